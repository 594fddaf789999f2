// What the pages of a table say, read before anything is written.
ghost use Rattle.search.specs.Tables.{Reading};
ghost use Rattle.edit.specs.Fields.{ListRead, LinkedOn, LinksRead};

use pages::read::get;

// A table: the page of its head; its numbers of keys, spans and towers; its span size; the head's max and current height.
#[derive(Clone, Copy)]
pub struct SkipList {
    pub head: usize,
    pub size: usize,
    pub spans: usize,
    pub levels: usize,
    pub most: usize,
    pub max: usize,
    pub top: usize,
}

// A span: the spans before and behind it, its first continuation page, 0 for none, and its number of entries.
// The numbers are as the page has them, 0 for none too: they are passed on and written again as they were read.
#[derive(Clone, Copy)]
pub struct Links {
    pub prev: usize,
    pub next: usize,
    pub first: usize,
    pub size: usize,
}

// Reads the skip-list page and the head of a table.
pub fn read_list(image: &[u8], root: usize) -> SkipList
    requires { Reading image.now root }
    ensures { ListRead image.now root result }
{
    let head = get::<u32>(image, root, 12);
    let size = get::<u32>(image, root, 16);
    let spans = get::<u32>(image, root, 20);
    let levels = get::<u32>(image, root, 24);
    let most = get::<u16>(image, root, 28);
    let max = get::<u16>(image, head, 8);
    let top = get::<u16>(image, head, 10);
    SkipList {
        head,
        size,
        spans,
        levels,
        most,
        max,
        top,
    }
}

// Reads the fields of the span on the page.
pub fn read_links(image: &[u8], page: usize) -> Links
    requires { LinkedOn image.now page }
    ensures { LinksRead image.now page result }
{
    let first = get::<u32>(image, page, 4);
    let prev = get::<u32>(image, page, 8);
    let next = get::<u32>(image, page, 12);
    let size = get::<u16>(image, page, 18);
    Links {
        prev,
        next,
        first,
        size,
    }
}
