// A new table: its pages, and what is written on them.
ghost use Rattle.std.specs.Prelude.{◌<◌, ◌+◌, ◌≡◌};
ghost use Rattle.blockfile.specs.Bytes.{apply};
ghost use Rattle.blockfile.specs.Encode.{whole_span};
ghost use Rattle.blockfile.specs.Create.{empty_table, whole_table};
ghost use Rattle.pages.specs.Places.{Inside};
ghost use Rattle.pages.specs.Taking.{Ahead};
ghost use Rattle.create.specs.Tables.{TableFor, TableReady, empty_span};

use edit::span::{Header, put_header};
use links::write::{Counts, NewSkipList, put_skip_list, put_tower};
use pages::free::taken_after;
use pages::mark::Kind;
use pages::read::get;
use pages::write::put_page;

// The pages of its skip list, its span and its head, and its span size.
#[derive(Clone, Copy)]
pub struct NewTable {
    pub root: usize,
    pub span: usize,
    pub head: usize,
    pub most: usize,
}

// A table on the three pages that are taken after `skip` others, with the superblock's span size.
pub fn new_table(image: &[u8], skip: usize) -> NewTable
    requires { Ahead image.now (skip + 2) × (skip < 4294967296) }
    ensures { TableFor image.now skip result }
{
    let root = taken_after(image, skip);
    let span = taken_after(image, skip + 1);
    let head = taken_after(image, skip + 2);
    let most = get::<u16>(image, 1, 22);
    NewTable {
        root,
        span,
        head,
        most,
    }
}

// A span without entries, the only one of its table.
fn put_empty(image: &mut [u8], page: usize, most: usize)
    requires { Inside image.old page 0 1024 × (most < 65536) }
    ensures { image.new ≡ apply (whole_span (empty_span page most)) image.old }
{
    let mut stream = [0u8; 12];
    put_header(
        &mut stream,
        0,
        Header {
            prev: 0,
            next: 0,
            most,
            size: 0,
        },
    );
    put_page(image, page, Kind::Span, 0, &stream, 0)
}

// Writes the table whole, without entries: one span, and the head, of max height 12 and height 0.
pub fn write_table(image: &mut [u8], table: NewTable)
    requires { TableReady image.old table }
    ensures { image.new ≡ apply (whole_table (empty_table table.most table.root table.span table.head)) image.old }
{
    let list = NewSkipList {
        page: table.root,
        first: table.span,
        head: table.head,
        counts: Counts {
            size: 0,
            spans: 1,
            levels: 1,
        },
        span_size: table.most,
    };
    put_skip_list(image, list);
    put_empty(image, table.span, table.most);
    put_tower(image, table.head, 12, table.span, &[])
}
