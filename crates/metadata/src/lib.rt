// Metadata sections (rules 3.8 to 3.11): the check, and the look-up of a value by its key. A look-up checks the section once, and answers
// its fault before its own. A section of 0 bytes is no section: it is accepted and has no key. A value that is handed back lies in the
// lent section; an empty value looks like a refusal there, so ask `value_fault` first.
#![tactic(auto)]

mod entry_walk;
mod section_parts;

ghost use Rattle.std.specs.Prelude.{◌≡◌};
ghost use Rattle.metadata.specs.MetadataCheck.{index_size_in, section_ok, metadata_fault};
ghost use Rattle.metadata.specs.ValueLookup.{place_of, value_place, value_of};
ghost use Rattle.fields.specs.Fault.{number_of};

use fields::fault::Fault;
use section_parts::{ENTRY_HEADER_SIZE, Entries, index_count};

// The value's VALUE_ENCODING, and where the value stands in the section and how long it is.
#[derive(Clone, Copy)]
pub struct ValuePlace {
    pub encoding: u16,
    pub at: usize,
    pub len: usize,
}

// Is it a section, filled exactly?
#[tactic(auto, unfolding(crate::specs::MetadataCheck::section_ok))]
fn section_ok(section: &[u8]) -> bool
    ensures { result ≡ section_ok section.now }
{
    if section.len() < 2 {
        return false;
    }
    let n = index_count(section);
    2 + ENTRY_HEADER_SIZE * n <= section.len() && entry_walk::entries_ok(Entries::of(section), n)
}

// The bytes that INDEX_COUNT and the entries' headers take, by INDEX_COUNT; 0 for no section. Nothing is checked here.
#[tactic(auto, unfolding(crate::specs::MetadataCheck::index_size_in))]
pub fn index_size(section: &[u8]) -> usize
    ensures { result ≡ index_size_in section.now }
{
    if section.is_empty() {
        return 0;
    }
    2 + ENTRY_HEADER_SIZE * index_count(section)
}

// Does the section keep its rule?
#[tactic(auto, unfolding(crate::specs::MetadataCheck::metadata_fault))]
pub fn metadata_fault(section: &[u8]) -> Result<(), Fault>
    ensures { number_of result ≡ metadata_fault section.now }
{
    if section.is_empty() || section_ok(section) {
        Ok(())
    } else {
        Err(Fault::Metadata)
    }
}

// Where the value of the first entry with this key stands. The key may be any bytes.
#[tactic(auto, unfolding(crate::specs::ValueLookup::value_place))]
pub fn value_place(section: &[u8], key: &[u8]) -> Result<ValuePlace, Fault>
    ensures { place_of result ≡ value_place section.now key.now }
{
    metadata_fault(section)?;
    entry_walk::search(section, key)
}

// Why the look-up is refused, if it is.
pub fn value_fault(section: &[u8], key: &[u8]) -> Result<(), Fault>
    ensures { number_of result ≡ (value_place section.now key.now).number }
{
    value_place(section, key)?;
    Ok(())
}

// The value's VALUE_ENCODING, which may be 0, and 0 where refused.
pub fn value_encoding(section: &[u8], key: &[u8]) -> u16
    ensures { result ≡ (value_place section.now key.now).encoding }
{
    match value_place(section, key) {
        Ok(place) => place.encoding,
        Err(_) => 0,
    }
}

// The value, a part of the section; no bytes where refused.
pub fn value<'a>(section: &'a [u8], key: &[u8]) -> &'a [u8]
    ensures { result.now ≡ value_of section.now key.now }
{
    match value_place(section, key) {
        Ok(place) => fields::slice::part(section, place.at, place.len),
        Err(_) => &section[..0],
    }
}
