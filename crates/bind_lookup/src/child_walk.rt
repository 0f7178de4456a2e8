// The walks of a look-up over a BIND content, of any bytes: each goes down what is left of the names, or of the headers and the data, so
// its time is linear in the content. Nothing is checked here.
ghost use Rattle.std.specs.Prelude.{◌≡◌, ◌<◌, IfSome};
ghost use Rattle.bind_layout.specs.BindLayout.{child_count, headers, data_of};
ghost use Rattle.bind_lookup.specs.ChildLookup.{headers_from, names_from, data_from, index_or, index_of};

use bind_layout::bind_parts::{self, CHILD_HEADER_SIZE};
use fields::text::{past_text, text_of};

// The index of the first child of this name.
pub(crate) fn index_of(content: &[u8], name: &[u8]) -> Option<usize>
    ensures value { index_or (child_count content.now) result ≡ index_of content.now name.now }
    ensures inside { IfSome result (λ i. i < child_count content.now) }
{
    let mut names = bind_parts::table_of(content);
    for i in 0..bind_parts::child_count(content) {
        if text_of(names) == name {
            return Some(i);
        }
        names = past_text(names);
    }
    None
}

// What is left of a name table from name i on.
pub(crate) fn names_from(table: &[u8], i: usize) -> &[u8]
    ensures { result.now ≡ names_from i table.now }
{
    let mut names = table;
    for _ in 0..i {
        names = past_text(names);
    }
    names
}

// What is left of the data from child i's on, by the sizes in the headers.
pub(crate) fn data_from(content: &[u8], i: usize) -> &[u8]
    ensures { result.now ≡ data_from i (headers content.now) (data_of content.now) }
{
    let mut headers = bind_parts::headers(content);
    let mut blocks = bind_parts::data_of(content);
    for _ in 0..i {
        blocks = bind_parts::after_block(blocks, bind_parts::size_of(headers));
        headers = fields::slice::rest(headers, CHILD_HEADER_SIZE);
    }
    blocks
}

// The header of child i, and those after it. The product is formed only where so many headers are there.
pub(crate) fn headers_from(content: &[u8], i: usize) -> &[u8]
    ensures { result.now ≡ headers_from i content.now }
{
    let headers = bind_parts::headers(content);
    if headers.len() / CHILD_HEADER_SIZE < i {
        return &headers[..0];
    }
    fields::slice::rest(headers, CHILD_HEADER_SIZE * i)
}
