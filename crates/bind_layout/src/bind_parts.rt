// The parts of a BIND content, of any bytes: past the end there is nothing, and a number of no bytes is 0.
ghost use Rattle.std.specs.Prelude.{◌≡◌, take, drop};
ghost use Rattle.bind_layout.specs.Children.{child_header_size};
ghost use Rattle.bind_layout.specs.BindLayout.{child_count, headers, after_headers, table_of, data_of, type_of, size_of, after_block};

use fields::number::Number;

// The bytes of a child's header, and of CTYPE, its first field (rule 4.9).
pub const CHILD_HEADER_SIZE: usize = 20;

pub const CTYPE_SIZE: usize = 12;

// N_CHILD.
pub fn child_count(content: &[u8]) -> usize
    ensures { result ≡ child_count content.now }
{
    u16::read(content, 0) as usize
}

// What stands from the first child's header on.
pub fn headers(content: &[u8]) -> &[u8]
    ensures { result.now ≡ headers content.now }
{
    fields::slice::rest(content, 2)
}

// What stands from NAME_TABLE_SIZE on.
pub fn after_headers(content: &[u8]) -> &[u8]
    ensures { result.now ≡ after_headers content.now }
{
    fields::slice::rest(content, 2 + CHILD_HEADER_SIZE * child_count(content))
}

pub fn table_of(content: &[u8]) -> &[u8]
    ensures { result.now ≡ table_of content.now }
{
    let after = after_headers(content);
    fields::slice::part(after, 2, u16::read(after, 0) as usize)
}

// What stands after the name table: the children's data.
pub fn data_of(content: &[u8]) -> &[u8]
    ensures { result.now ≡ data_of content.now }
{
    let after = after_headers(content);
    fields::slice::rest(after, 2 + u16::read(after, 0) as usize)
}

// The text of the first header's CTYPE.
pub fn type_of(headers: &[u8]) -> &[u8]
    ensures { result.now ≡ type_of headers.now }
{
    fields::text::text_of(fields::slice::first(headers, CTYPE_SIZE))
}

// The first header's CSIZE.
pub fn size_of(headers: &[u8]) -> usize
    ensures { result ≡ size_of headers.now }
{
    u64::read(headers, CTYPE_SIZE) as usize
}

// What is left of the data after a child of n bytes and its pad. The two are not added: the sum could wrap.
pub fn after_block(blocks: &[u8], n: usize) -> &[u8]
    ensures { result.now ≡ after_block n blocks.now }
{
    fields::slice::rest(fields::slice::rest(blocks, n), n % 2)
}

// The children from one on: what stands from its header on, and what stands from its data on.
#[derive(Clone, Copy)]
pub struct Children<'a> {
    pub headers: &'a [u8],
    pub data: &'a [u8],
}

impl<'a> Children<'a> {
    // All children of a content.
    pub fn of(content: &'a [u8]) -> Children<'a>
        ensures headers { result.headers.now ≡ headers content.now }
        ensures content { result.data.now ≡ data_of content.now }
    {
        Children {
            headers: headers(content),
            data: data_of(content),
        }
    }

    // The text of the first one's type.
    pub fn type_text(self) -> &'a [u8]
        ensures { result.now ≡ type_of self.entry.headers.now }
    {
        type_of(self.headers)
    }

    // How many bytes the first one's content has.
    pub fn size(self) -> usize
        ensures { result ≡ size_of self.entry.headers.now }
    {
        size_of(self.headers)
    }

    // The first one's content.
    pub fn content(self) -> &'a [u8]
        ensures { result.now ≡ take (size_of self.entry.headers.now) self.entry.data.now }
    {
        fields::slice::first(self.data, self.size())
    }

    // The children after the first one.
    pub fn after_first(self) -> Children<'a>
        ensures headers { result.headers.now ≡ drop child_header_size self.entry.headers.now }
        ensures content { result.data.now ≡ after_block (size_of self.entry.headers.now) self.entry.data.now }
    {
        self.after(self.size())
    }

    // The same where the first one's content is known to have n bytes: a walk that asks for its size reads it once.
    pub fn after(self, n: usize) -> Children<'a>
        ensures headers { result.headers.now ≡ drop child_header_size self.entry.headers.now }
        ensures content { result.data.now ≡ after_block n self.entry.data.now }
    {
        Children {
            headers: fields::slice::rest(self.headers, CHILD_HEADER_SIZE),
            data: after_block(self.data, n),
        }
    }
}
