// What the look-up of a metadata section answers:
//
//   D section, key   the section's number; the look-up's number, the encoding and the place of the key's value; the value
use fields::fault::number_of;
use std::io;
use vector_records::{print_bytes, print_number};

pub fn print_value(rt: &impl Print, section: &[u8], key: &[u8]) -> io::Result<()> {
    let (at, len) = match metadata::value_place(section, key) {
        Ok(place) => (place.at, place.len),
        Err(_) => (0, 0),
    };
    print_number(rt, number_of(metadata::metadata_fault(section)) as u64)?;
    print_number(rt, number_of(metadata::value_fault(section, key)) as u64)?;
    print_number(rt, metadata::value_encoding(section, key) as u64)?;
    print_number(rt, at as u64)?;
    print_number(rt, len as u64)?;
    print_bytes(rt, metadata::value(section, key))
}
