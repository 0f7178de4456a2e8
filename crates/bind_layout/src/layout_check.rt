// The check of a BIND content's layout. Each walk goes down what is left of the headers, the name table or the data, so its time is
// linear in the content; no sum of sizes is formed that could wrap.
ghost use Rattle.std.specs.Prelude.{◌≡◌};
ghost use Rattle.fields.specs.Answer.{checked_of};
ghost use Rattle.bind_layout.specs.BindLayout.{types_checked, name_ok, names_ok, table_ok, pad_ok, block_ok, data_ok, layout_checked};

use crate::bind_parts::{
    CHILD_HEADER_SIZE, CTYPE_SIZE, Children, after_headers, child_count, headers, table_of,
};
use fields::fault::Fault;
use fields::number::Number;
use fields::text::{all_zero, is_text, past_text, read_field, text_of};

// Are the CTYPEs of n headers clean? Refused where one is no text field.
fn types_check(headers: &[u8], n: usize) -> Result<bool, Fault>
    ensures { checked_of result ≡ types_checked n headers.now }
{
    let mut left = headers;
    let mut clean = true;
    for _ in 0..n {
        let Some(field) = read_field(fields::slice::first(left, CTYPE_SIZE)) else {
            return Err(Fault::Bind);
        };
        clean &= field.clean;
        left = fields::slice::rest(left, CHILD_HEADER_SIZE);
    }
    Ok(clean)
}

// Does a name, ended by a 0, stand in front?
#[tactic(auto, unfolding(crate::specs::BindLayout::name_ok, fields::specs::Text::text_ok))]
fn name_ok(table: &[u8]) -> bool
    ensures { result ≡ name_ok table.now }
{
    fields::text::text_len(table) < table.len() && is_text(text_of(table))
}

// Exactly n names, and then at most one more 0?
fn names_ok(table: &[u8], n: usize) -> bool
    ensures { result ≡ names_ok n table.now }
{
    let mut left = table;
    for _ in 0..n {
        if !name_ok(left) {
            return false;
        }
        left = past_text(left);
    }
    left.len() <= 1 && all_zero(left)
}

#[tactic(auto, unfolding(crate::specs::BindLayout::table_ok))]
fn table_ok(table: &[u8], n: usize) -> bool
    ensures { result ≡ table_ok n table.now }
{
    table.len() % 2 == 0 && names_ok(table, n)
}

// Does a pad of p bytes stand in front?
#[tactic(auto, unfolding(crate::specs::BindLayout::pad_ok))]
fn pad_ok(blocks: &[u8], p: usize) -> bool
    ensures { result ≡ pad_ok p blocks.now }
{
    p <= blocks.len() && all_zero(fields::slice::first(blocks, p))
}

// Do n bytes of data and their pad stand in front?
#[tactic(auto, unfolding(crate::specs::BindLayout::block_ok))]
fn block_ok(blocks: &[u8], n: usize) -> bool
    ensures { result ≡ block_ok n blocks.now }
{
    n <= blocks.len() && pad_ok(fields::slice::rest(blocks, n), n % 2)
}

// Are the data those of n children, by the sizes in their headers?
fn data_ok(children: Children, n: usize) -> bool
    ensures { result ≡ data_ok n children.entry.headers.now children.entry.data.now }
{
    let mut left = children;
    for _ in 0..n {
        let size = left.size();
        if !block_ok(left.data, size) {
            return false;
        }
        left = left.after(size);
    }
    left.data.len() == 0
}

// Are the CTYPEs clean? Refused for each fault of the layout. A child's content is not looked at.
pub fn layout_check(content: &[u8]) -> Result<bool, Fault>
    ensures { checked_of result ≡ layout_checked content.now }
{
    let n = child_count(content);
    let table_size = u16::read(after_headers(content), 0) as usize;
    if content.len() < 4 + CHILD_HEADER_SIZE * n + table_size {
        return Err(Fault::Bind);
    }
    let types_clean = types_check(headers(content), n)?;
    if !table_ok(table_of(content), n) {
        return Err(Fault::Bind);
    }
    if !data_ok(Children::of(content), n) {
        return Err(Fault::Bind);
    }
    Ok(types_clean)
}
