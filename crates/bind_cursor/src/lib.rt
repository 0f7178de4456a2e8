// A walk through the children of a BIND content, one after the other (rule 6.4). The content is judged once, by `first_child`, and each
// step costs a constant and the length of a name. A cursor holds numbers and places only; the content is passed along with it. Of a cursor
// that is not of this content each function still gives an answer: the parts are what stands at its places.
#![tactic(auto)]

ghost use Rattle.std.specs.Prelude.{◌≡◌, ◌-◌, length};
ghost use Rattle.bind_cursor.specs.Cursor.{names_of, no_child, child_at, first_of, next_of, type_part, name_part, data_part};

use bind_layout::bind_parts;
use fields::slice::{part, rest};

// The number (rule 5.1), how many children there are from this one on, and where this one's type, name and data stand in the content and how
// long they are. Where `left` is 0 there is no child, and all places are 0: after the last child with number 0, or where refused. `clean` is
// the mark of the whole content (rule 13.4): false where refused.
//
// The number stays one of any value: `next_child` takes cursors that C and the program `vectors` make of any bytes, and hands them back.
#[derive(Clone, Copy)]
pub struct Cursor {
    pub number: u8,
    pub left: usize,
    pub type_at: usize,
    pub type_len: usize,
    pub name_at: usize,
    pub name_len: usize,
    pub at: usize,
    pub len: usize,
    pub clean: bool,
}

// What is left of a content from one child on: its header, its name and its data, and those of the children after it.
#[derive(Clone, Copy)]
struct Ends<'a> {
    headers: &'a [u8],
    names: &'a [u8],
    blocks: &'a [u8],
}

// What stands after NAME_TABLE_SIZE: the names, then the data.
fn names_of(content: &[u8]) -> &[u8]
    ensures { result.now ≡ names_of content.now }
{
    rest(bind_parts::after_headers(content), 2)
}

// Where the end of a content begins.
fn place_in(content: &[u8], end: &[u8]) -> usize
    ensures { result ≡ length content.now - length end.now }
{
    content.len().saturating_sub(end.len())
}

// At no child, with this number.
fn no_child(number: u8, clean: bool) -> Cursor
    ensures { result ≡ no_child number clean }
{
    Cursor {
        number,
        left: 0,
        type_at: 0,
        type_len: 0,
        name_at: 0,
        name_len: 0,
        at: 0,
        len: 0,
        clean,
    }
}

// At the first of the children that are left, which these ends of the content are of.
#[tactic(auto, unfolding(crate::specs::Cursor::child_at))]
fn child_at(content: &[u8], ends: Ends, left: usize, clean: bool) -> Cursor
    ensures { result ≡ child_at content.now ends.entry.headers.now ends.entry.names.now ends.entry.blocks.now left clean }
{
    if left == 0 {
        return no_child(0, clean);
    }
    Cursor {
        number: 0,
        left,
        type_at: place_in(content, ends.headers),
        type_len: bind_parts::type_of(ends.headers).len(),
        name_at: place_in(content, ends.names),
        name_len: fields::text::text_len(ends.names),
        at: place_in(content, ends.blocks),
        len: bind_parts::size_of(ends.headers),
        clean,
    }
}

// Judges the content, and stands at its first child.
pub fn first_child(content: &[u8]) -> Cursor
    ensures { result ≡ first_of content.now }
{
    match content::bind_check(content) {
        Ok(clean) => {
            let ends = Ends {
                headers: bind_parts::headers(content),
                names: names_of(content),
                blocks: bind_parts::data_of(content),
            };
            child_at(content, ends, bind_parts::child_count(content), clean)
        }
        Err(fault) => no_child(fault.number(), false),
    }
}

// Stands at the next child; nothing is judged again. A refused cursor, and one with no child left, stay as they are.
#[tactic(auto, unfolding(crate::specs::Cursor::next_of))]
pub fn next_child(content: &[u8], cursor: Cursor) -> Cursor
    ensures { result ≡ next_of content.now cursor }
{
    if cursor.number != 0 || cursor.left == 0 {
        return cursor;
    }
    let name_on = rest(content, cursor.name_at);
    let ends = Ends {
        headers: rest(rest(content, cursor.type_at), bind_parts::CHILD_HEADER_SIZE),
        names: rest(rest(name_on, cursor.name_len), 1),
        blocks: bind_parts::after_block(rest(content, cursor.at), cursor.len),
    };
    child_at(content, ends, cursor.left - 1, cursor.clean)
}

// The text of the type of the cursor's child. Where first_child or next_child gave no child it is empty, and so are its name and its data.
pub fn type_text(content: &[u8], cursor: Cursor) -> &[u8]
    ensures { result.now ≡ type_part content.now cursor }
{
    part(content, cursor.type_at, cursor.type_len)
}

// Its name.
pub fn name(content: &[u8], cursor: Cursor) -> &[u8]
    ensures { result.now ≡ name_part content.now cursor }
{
    part(content, cursor.name_at, cursor.name_len)
}

// Its data.
pub fn data(content: &[u8], cursor: Cursor) -> &[u8]
    ensures { result.now ≡ data_part content.now cursor }
{
    part(content, cursor.at, cursor.len)
}
