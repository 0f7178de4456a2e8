// The writer of a BIND content, from its children's types, names and contents. It refuses before the first byte is written, and makes no
// sum of lengths that could wrap: what is left is counted down.
#![tactic(auto)]

ghost use Rattle.std.specs.Prelude.{◌≡◌, true, ◌&&◌, map, eqb, leb, ◌++◌, ◌+◌, ◌*◌, ◌%◌, ◌<◌, ◌≤◌, min, length, replicate, MatchOption};
ghost use Rattle.std.proofs.lemmas.List.Edits.{sets};
ghost use Rattle.fields.specs.Lists.{all_of, flat};
ghost use Rattle.fields.specs.Numbers.{be_bytes, size_limit};
ghost use Rattle.fields.specs.Text.{is_text, text_bytes};
ghost use Rattle.fields.specs.Answer.{written_of, room_fault};
ghost use Rattle.fields.specs.Fault.{number_of};
ghost use Rattle.fields.specs.Writers.{writer_fault};
ghost use Rattle.bind_layout.specs.Children.{child_header_size, ctype_size, padded, encode_children, ended};
ghost use Rattle.content.specs.ContentTheorems.{first_fault};
ghost use Rattle.bind_writer.specs.ChildLists.{children, WithNames, WithContents};
ghost use Rattle.bind_writer.specs.BindWriter.{type_ok, texts_ok, lists_ok, child_fault, given_fault, clean_content, bind_bytes, plain_header, clean_data, BindPromise};

use bind_layout::bind_parts::{CHILD_HEADER_SIZE, CTYPE_SIZE};
use fields::fault::Fault;
use fields::number::{Number, SIZE_LIMIT};

// Is it a text that a CTYPE of 12 bytes holds?
fn type_ok(type_text: &[u8]) -> bool
    ensures { result ≡ type_ok type_text.now }
{
    type_text.len() <= CTYPE_SIZE && fields::text::is_text(type_text)
}

// Are a child's type and name such texts? A name has no limit of its own.
fn text_ok(type_text: &[u8], name: &[u8]) -> bool
    ensures { result ≡ (type_ok type_text.now && is_text name.now) }
{
    type_ok(type_text) && fields::text::is_text(name)
}

// Are those of all children?
fn texts_ok(types: &[&[u8]], names: &[&[u8]]) -> bool
    requires { length names.now ≡ length types.now }
    ensures { WithNames (map (λ x. x.now) types.now) (map (λ x. x.now) names.now) (λ cs. result ≡ all_of texts_ok cs) }
{
    for (i, type_text) in types.iter().enumerate() {
        if !text_ok(type_text, names[i]) {
            return false;
        }
    }
    true
}

// The length of the names, each ended by one 0; None where NAME_TABLE_SIZE cannot say it (rule 4.9).
fn names_len(names: &[&[u8]]) -> Option<usize>
    ensures { MatchOption result
        (size_limit < length (flat ended (map (λ x. x.now) names.now)))
        (λ n. (n ≡ length (flat ended (map (λ x. x.now) names.now))) × (n ≤ size_limit)) }
{
    let mut sum: usize = 0;
    for name in names {
        if SIZE_LIMIT - sum <= name.len() {
            return None;
        }
        sum += name.len() + 1;
    }
    Some(sum)
}

// Does the name table, with its pad, fit NAME_TABLE_SIZE?
fn table_ok(names: &[&[u8]]) -> bool
    ensures { result ≡ leb (length (padded (flat ended (map (λ x. x.now) names.now)))) size_limit }
{
    match names_len(names) {
        Some(n) => n + n % 2 <= SIZE_LIMIT,
        None => false,
    }
}

// Are the lists of one length, which fits N_CHILD?
fn counts_ok(types: &[&[u8]], names: &[&[u8]], contents: &[&[u8]]) -> bool
    ensures { result
        ≡ (eqb (length names.now) (length types.now)
        && (eqb (length contents.now) (length types.now) && leb (length types.now) size_limit)) }
{
    names.len() == types.len() && contents.len() == types.len() && types.len() <= SIZE_LIMIT
}

// The lists are of one length, hold texts, and their count and name table fit two bytes each.
fn lists_ok(types: &[&[u8]], names: &[&[u8]], contents: &[&[u8]]) -> bool
    ensures { result ≡ lists_ok (map (λ x. x.now) types.now) (map (λ x. x.now) names.now) (map (λ x. x.now) contents.now) }
{
    counts_ok(types, names, contents) && texts_ok(types, names) && table_ok(names)
}

// The first fault among the children's contents. The BIND that is written is level 1, so a BIND there is level 2.
fn first_fault(types: &[&[u8]], contents: &[&[u8]]) -> Result<(), Fault>
    requires { length contents.now ≡ length types.now }
    ensures { WithContents (map (λ x. x.now) types.now) (map (λ x. x.now) contents.now) (λ cs. number_of result ≡ first_fault child_fault cs) }
{
    for (i, type_text) in types.iter().enumerate() {
        content::nested_fault(type_text, contents[i])?;
    }
    Ok(())
}

// The length of the contents, each with its pad; `most` where it is more than that.
fn data_len(contents: &[&[u8]], most: usize) -> usize
    ensures { result ≡ min (length (flat padded (map (λ x. x.now) contents.now))) most }
{
    let mut left = most;
    for content in contents {
        let n = content.len();
        if left < n {
            return most;
        }
        if left - n < n % 2 {
            return most;
        }
        left -= n + n % 2;
    }
    most - left
}

// Check 20. What stands before the data is short, as the lists passed their check. It is compared first, so that no sum overflows.
fn space_fault(
    types: &[&[u8]],
    names: &[&[u8]],
    contents: &[&[u8]],
    room: usize,
) -> Result<(), Fault>
    requires { lists_ok (map (λ x. x.now) types.now) (map (λ x. x.now) names.now) (map (λ x. x.now) contents.now) ≡ true }
    ensures { number_of result ≡ room_fault (length (bind_bytes (map (λ x. x.now) types.now) (map (λ x. x.now) names.now) (map (λ x. x.now) contents.now))) room }
{
    let n = names_len(names).unwrap();
    let front = 4 + CHILD_HEADER_SIZE * types.len() + n + n % 2;
    if room < front {
        return fields::room_fault(front, room);
    }
    let left = room - front;
    fields::room_fault(data_len(contents, left + 1), left)
}

// All checks, in order.
fn write_fault(
    types: &[&[u8]],
    names: &[&[u8]],
    contents: &[&[u8]],
    room: usize,
) -> Result<(), Fault>
    ensures { number_of result
        ≡ writer_fault
        (given_fault (map (λ x. x.now) types.now) (map (λ x. x.now) names.now) (map (λ x. x.now) contents.now))
        (bind_bytes (map (λ x. x.now) types.now) (map (λ x. x.now) names.now) (map (λ x. x.now) contents.now))
        room }
{
    if !lists_ok(types, names, contents) {
        return Err(Fault::Bind);
    }
    first_fault(types, contents)?;
    space_fault(types, names, contents, room)
}

// Writes one 0 where n is odd.
fn put_pad(n: usize, at: usize, out: &mut [u8])
    ensures { out.new ≡ sets out.old at (replicate (n % 2) 0) }
{
    if n % 2 == 1 {
        0u8.put(at, out);
    }
}

// Writes CTYPE and CSIZE. On the target a length has 64 bits, so it fits the 8 bytes of CSIZE and the cast keeps it.
fn put_header(type_text: &[u8], size: usize, at: usize, out: &mut [u8])
    requires { at + child_header_size ≤ length out.old }
    ensures { out.new ≡ sets out.old at (text_bytes ctype_size type_text.now ++ be_bytes 8 size) }
{
    fields::store::put(&fields::store::array::<CTYPE_SIZE>(type_text), at, out);
    (size as u64).put(at + CTYPE_SIZE, out);
}

// Writes the headers, from behind N_CHILD on.
fn put_headers(types: &[&[u8]], contents: &[&[u8]], out: &mut [u8])
    requires { (length contents.now ≡ length types.now) × (2 + child_header_size * length types.now ≤ length out.old) }
    ensures { WithContents (map (λ x. x.now) types.now) (map (λ x. x.now) contents.now) (λ cs. out.new ≡ sets out.old 2 (flat plain_header cs)) }
{
    for (i, type_text) in types.iter().enumerate() {
        put_header(type_text, contents[i].len(), 2 + CHILD_HEADER_SIZE * i, out);
    }
}

// Writes a name, ended by one 0, and gives the place behind it.
fn put_name(name: &[u8], at: usize, out: &mut [u8]) -> usize
    requires { at + length (ended name.now) ≤ length out.old }
    ensures place { result ≡ at + length (ended name.now) }
    ensures bytes { out.new ≡ sets out.old at (ended name.now) }
{
    let end = at + name.len();
    fields::store::put(name, at, out);
    0u8.put(end, out);
    end + 1
}

fn put_names(names: &[&[u8]], at: usize, out: &mut [u8]) -> usize
    requires { at + length (flat ended (map (λ x. x.now) names.now)) ≤ length out.old }
    ensures place { result ≡ at + length (flat ended (map (λ x. x.now) names.now)) }
    ensures bytes { out.new ≡ sets out.old at (flat ended (map (λ x. x.now) names.now)) }
{
    let mut to = at;
    for name in names {
        to = put_name(name, to, out);
    }
    to
}

// Writes a child's content, cleaned (rule 13.6), and its pad, and gives the place behind them. A BIND there has three levels left.
fn put_content(type_text: &[u8], content: &[u8], at: usize, out: &mut [u8]) -> usize
    requires { at + length (padded content.now) ≤ length out.old }
    ensures place { result ≡ at + length (padded content.now) }
    ensures bytes { out.new ≡ sets out.old at (padded (clean_content type_text.now content.now)) }
{
    let n = content.len();
    cleaning::put_clean(type_text, content, content::NESTED_LEVELS, at, out);
    put_pad(n, at + n, out);
    at + n + n % 2
}

fn put_contents(types: &[&[u8]], contents: &[&[u8]], at: usize, out: &mut [u8]) -> usize
    requires { (length contents.now ≡ length types.now) × (at + length (flat padded (map (λ x. x.now) contents.now)) ≤ length out.old) }
    ensures place { result ≡ at + length (flat padded (map (λ x. x.now) contents.now)) }
    ensures bytes { WithContents (map (λ x. x.now) types.now) (map (λ x. x.now) contents.now) (λ cs. out.new ≡ sets out.old at (flat clean_data cs)) }
{
    let mut to = at;
    for (i, content) in contents.iter().enumerate() {
        to = put_content(types[i], content, to, out);
    }
    to
}

// Writes NAME_TABLE_SIZE and the table, and gives the place behind them.
fn put_table(names: &[&[u8]], at: usize, out: &mut [u8]) -> usize
    requires { (length (padded (flat ended (map (λ x. x.now) names.now))) ≤ size_limit)
        × (at + (2 + length (padded (flat ended (map (λ x. x.now) names.now)))) ≤ length out.old) }
    ensures place { result ≡ at + (2 + length (padded (flat ended (map (λ x. x.now) names.now)))) }
    ensures bytes { out.new
        ≡ sets out.old at
        (be_bytes 2 (length (padded (flat ended (map (λ x. x.now) names.now)))) ++ padded (flat ended (map (λ x. x.now) names.now))) }
{
    let n = names_len(names).unwrap();
    ((n + n % 2) as u16).put(at, out);
    let end = put_names(names, at + 2, out);
    put_pad(n, end, out);
    end + n % 2
}

// Writes the whole content, and gives its length.
fn put_children(types: &[&[u8]], names: &[&[u8]], contents: &[&[u8]], out: &mut [u8]) -> usize
    requires { (lists_ok (map (λ x. x.now) types.now) (map (λ x. x.now) names.now) (map (λ x. x.now) contents.now) ≡ true)
        × (length (encode_children (children (map (λ x. x.now) types.now) (map (λ x. x.now) names.now) (map (λ x. x.now) contents.now))) ≤ length out.old) }
    ensures count { result ≡ length (encode_children (children (map (λ x. x.now) types.now) (map (λ x. x.now) names.now) (map (λ x. x.now) contents.now))) }
    ensures bytes { out.new ≡ sets out.old 0 (bind_bytes (map (λ x. x.now) types.now) (map (λ x. x.now) names.now) (map (λ x. x.now) contents.now)) }
{
    let count = types.len();
    (count as u16).put(0, out);
    put_headers(types, contents, out);
    let end = put_table(names, 2 + CHILD_HEADER_SIZE * count, out);
    put_contents(types, contents, end, out)
}

// Writes the BIND content of the children with these types, names and contents: the first child has the first of each, and so on. They are three
// slices since lists of different lengths are an argument, which is refused (lists_ok).
pub fn write_bind(
    types: &[&[u8]],
    names: &[&[u8]],
    contents: &[&[u8]],
    out: &mut [u8],
) -> Result<usize, Fault>
    ensures { BindPromise (map (λ x. x.now) types.now) (map (λ x. x.now) names.now) (map (λ x. x.now) contents.now)
        out.old (written_of result) out.new }
{
    write_fault(types, names, contents, out.len())?;
    let n = put_children(types, names, contents, out);
    Ok(n)
}
