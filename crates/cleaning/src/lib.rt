// Contents written clean (rule 13.6): the rest of each CTYPE zeroed, at every level of a BIND. All else is written as it is given. The parts of
// a BIND are written in order, straight into the lent buffer, so the time is linear in the content.
#![tactic(auto)]

ghost use Rattle.std.specs.Prelude.{◌+◌, ◌*◌, ◌≤◌, ◌≡◌, length};
ghost use Rattle.std.proofs.lemmas.List.Edits.{sets};
ghost use Rattle.bind_layout.specs.Children.{child_header_size};
ghost use Rattle.bind_layout.specs.BindLayout.{layout_fault};
ghost use Rattle.cleaning.specs.CleanBytes.{clean_headers, clean_front, clean_bind, clean_bytes, bounded_levels, clean_put};

use bind_layout::bind_parts::{CHILD_HEADER_SIZE, CTYPE_SIZE, Children, type_of};
use fields::number::Number;
use fields::slice::{first, part, rest};
use fields::store::{array, put};

// Writes the headers of n children: the text of each CTYPE, zeros, and CSIZE.
fn put_headers(headers: &[u8], n: usize, at: usize, out: &mut [u8])
    requires { (child_header_size * n ≤ length headers.now) × (at + child_header_size * n ≤ length out.old) }
    ensures { out.new ≡ sets out.old at (clean_headers n headers.now) }
{
    let mut left = headers;
    for i in 0..n {
        let to = at + CHILD_HEADER_SIZE * i;
        let type_text = array::<CTYPE_SIZE>(type_of(left));
        put(&type_text, to, out);
        put(part(left, CTYPE_SIZE, 8), to + CTYPE_SIZE, out);
        left = rest(left, CHILD_HEADER_SIZE);
    }
}

// Writes what stands before the children's data.
fn put_front(content: &[u8], at: usize, out: &mut [u8])
    requires { (layout_fault content.now ≡ 0) × (at + length content.now ≤ length out.old) }
    ensures { out.new ≡ sets out.old at (clean_front content.now) }
{
    let n = bind_layout::bind_parts::child_count(content);
    let after = bind_layout::bind_parts::after_headers(content);
    let table_size = u16::read(after, 0) as usize;
    put(first(content, 2), at, out);
    put_headers(bind_layout::bind_parts::headers(content), n, at + 2, out);
    put(
        first(after, 2 + table_size),
        at + 2 + CHILD_HEADER_SIZE * n,
        out,
    );
}

// Writing a content and writing a BIND call each other. The measure is that of content's check: twice the levels left and twice the bytes
// left, and one more here.
#[cycle(put)]
fn put_content(type_text: &[u8], content: &[u8], levels: u32, at: usize, out: &mut [u8])
    requires { at + length content.now ≤ length out.old }
    ensures { out.new ≡ sets out.old at (clean_bytes levels type_text.now content.now) }
{
    if fields::slice::same(type_text, b"BIND") {
        put_bind(content, levels, at, out);
        return;
    }
    put(content, at, out);
}

// A BIND that is too deep, or not laid out as one, is written as it is given.
#[cycle(put)]
fn put_bind(content: &[u8], levels: u32, at: usize, out: &mut [u8])
    requires { at + length content.now ≤ length out.old }
    ensures { out.new ≡ sets out.old at (clean_bind levels content.now) }
{
    if levels == 0 {
        put(content, at, out);
        return;
    }
    if bind_layout::layout_check::layout_check(content).is_err() {
        put(content, at, out);
        return;
    }
    put_front(content, at, out);
    let mut left = Children::of(content);
    for _ in 0..bind_layout::bind_parts::child_count(content) {
        let size = left.size();
        let child = first(left.data, size);
        let to = at + (content.len() - left.data.len());
        put_content(left.type_text(), child, levels - 1, to, out);
        put(part(left.data, size, size % 2), to + child.len(), out);
        left = left.after(size);
    }
}

// So many levels, but not more than a BIND may have (rule 4.15). It bounds the depth of the calls above for any number.
fn bounded_levels(levels: u32) -> u32
    ensures { result ≡ bounded_levels levels }
{
    if levels <= content::DEEPEST {
        return levels;
    }
    content::DEEPEST
}

// Writes a content of the type with this text at a place, cleaned to so many levels of BIND, at most four. Writes nothing where it does not
// fit.
pub fn put_clean(type_text: &[u8], content: &[u8], levels: u32, at: usize, out: &mut [u8])
    ensures { out.new ≡ clean_put levels type_text.now content.now at out.old }
{
    if out.len() < at {
        return;
    }
    if out.len() - at < content.len() {
        return;
    }
    put_content(type_text, content, bounded_levels(levels), at, out);
}
