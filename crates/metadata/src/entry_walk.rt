// The walks over the entries of a metadata section: each goes from one entry to the next, so its time is linear in the section, and no sum
// of sizes is formed over the entries.
ghost use Rattle.std.specs.Prelude.{◌≡◌};
ghost use Rattle.metadata.specs.MetadataCheck.{entries_ok};
ghost use Rattle.metadata.specs.ValueLookup.{place_of, searched};

use crate::ValuePlace;
use crate::section_parts::{Entries, index_count};
use fields::fault::Fault;

// Are the headers and the data those of n entries, and nothing left of the data?
pub(crate) fn entries_ok(all: Entries, n: usize) -> bool
    ensures { result ≡ entries_ok n all.entry.headers.now all.entry.data.now }
{
    let mut entries = all;
    for _ in 0..n {
        if !entries.first_ok() {
            return false;
        }
        entries = entries.after_first();
    }
    entries.data.len() == 0
}

// Where the value of the first entry with this key stands. Nothing is checked here.
pub(crate) fn search(section: &[u8], key: &[u8]) -> Result<ValuePlace, Fault>
    ensures { place_of result ≡ searched section.now key.now }
{
    let mut entries = Entries::of(section);
    for _ in 0..index_count(section) {
        if entries.key() == key {
            let value_on = fields::slice::rest(entries.data, entries.key_size());
            let place = ValuePlace {
                encoding: entries.encoding(),
                at: section.len() - value_on.len(),
                len: entries.value_size(),
            };
            return Ok(place);
        }
        entries = entries.after_first();
    }
    Err(Fault::NotFound)
}
