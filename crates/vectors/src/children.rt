// What look-ups of a BIND's children answer:
//
//   L content, index, name           the count; the number by itself, the type, the name and the place of
//                                    the child of that index; the number by itself and the place of the
//                                    child of that name
//   M length, patches, index, name   the same for a content of so many zeros, patched
//   E site, default, name            the number and the bundle of the child of that name, and its place
//
// A count and a place are each a number, what it goes with, and the mark. The bytes of a child follow its place.
use bind_lookup::{EitherPlace, Place, Source};
use fields::fault::{Fault, number_of};
use fields::number::Number;
use std::io;
use vector_records::{ROOM, after_field, field, print_bytes, print_mark, print_number};

fn print_place(rt: &impl Print, answer: Result<Place, Fault>) -> io::Result<()> {
    let (at, len, clean) = match answer {
        Ok(place) => (place.at, place.len, place.clean),
        Err(_) => (0, 0, false),
    };
    print!(rt; " {} {at} {len}", number_of(answer))?;
    print_mark(rt, clean)
}

fn print_source(rt: &impl Print, source: Option<Source>) -> io::Result<()> {
    let number = match source {
        None => 0,
        Some(Source::Site) => 1,
        Some(Source::Default) => 2,
    };
    print_number(rt, number)
}

fn print_count(rt: &impl Print, content: &[u8]) -> io::Result<()> {
    let answer = bind_lookup::child_count(content);
    let (count, clean) = match answer {
        Ok(children) => (children.count, children.clean),
        Err(_) => (0, false),
    };
    print!(rt; " {} {count}", number_of(answer))?;
    print_mark(rt, clean)
}

fn print_child(rt: &impl Print, content: &[u8], index: usize) -> io::Result<()> {
    print_number(
        rt,
        number_of(bind_lookup::child_fault(content, index)) as u64,
    )?;
    print_bytes(rt, bind_lookup::child_type(content, index))?;
    print_bytes(rt, bind_lookup::child_name(content, index))?;
    print_place(rt, bind_lookup::child_place(content, index))?;
    print_bytes(rt, bind_lookup::child(content, index))
}

fn print_named(rt: &impl Print, content: &[u8], name: &[u8]) -> io::Result<()> {
    print_number(
        rt,
        number_of(bind_lookup::named_fault(content, name)) as u64,
    )?;
    print_place(rt, bind_lookup::named_place(content, name))?;
    print_bytes(rt, bind_lookup::named(content, name))
}

// What is looked up: an index of eight bytes, and a name.
pub fn print_lookups(rt: &impl Print, content: &[u8], wanted: &[u8]) -> io::Result<()> {
    print_count(rt, content)?;
    print_child(rt, content, u64::read(field(wanted), 0) as usize)?;
    print_named(rt, content, field(after_field(wanted)))
}

#[inline(never)]
pub fn print_patched(
    rt: &impl Print,
    length: &[u8],
    patches: &[u8],
    wanted: &[u8],
) -> io::Result<()> {
    let mut zeros: [u8; ROOM] = vector_records::filled(0);
    vector_records::patch(patches, &mut zeros);
    let content = fields::slice::first(&zeros, u32::read(length, 0) as usize);
    print_lookups(rt, content, wanted)
}

pub fn print_either<'a>(
    rt: &impl Print,
    site: &'a [u8],
    default: &'a [u8],
    name: &[u8],
) -> io::Result<()> {
    print_number(
        rt,
        number_of(bind_lookup::either_fault(site, default, name)) as u64,
    )?;
    print_source(rt, bind_lookup::either_source(site, default, name))?;
    print_either_place(rt, bind_lookup::either_place(site, default, name))?;
    print_bytes(rt, bind_lookup::either(site, default, name))
}

fn print_either_place(rt: &impl Print, answer: Result<EitherPlace, Fault>) -> io::Result<()> {
    match answer {
        Ok(found) => {
            print_source(rt, Some(found.source))?;
            print_place(rt, Ok(found.place))
        }
        Err(fault) => {
            print_source(rt, None)?;
            print_place(rt, Err(fault))
        }
    }
}
