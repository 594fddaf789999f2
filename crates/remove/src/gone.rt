// The pages of a span that goes, given back.
ghost use Rattle.remove.specs.Gone.{GoneReady, GaveGone};

use draw::draw::give_chain;
use pages::free::give_page;

// Gives back the continuation pages from `first` on, the span's page and its tower's, if it has one. Answers how many pages.
pub fn give_gone(image: &mut [u8], first: usize, page: usize, tower: Option<usize>) -> usize
    requires { GoneReady image.old first page tower }
    ensures { GaveGone image.old first page tower result image.new }
{
    let conts = give_chain(image, first);
    give_page(image, page);
    let Some(tower) = tower else {
        return conts + 1;
    };
    give_page(image, tower);
    conts + 2
}
