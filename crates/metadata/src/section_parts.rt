// The parts of a metadata section, of any bytes: past the end there is nothing, and a number of no bytes is 0.
ghost use Rattle.std.specs.Prelude.{◌≡◌, ◌<◌, ◌^◌, take, drop};
ghost use Rattle.metadata.specs.Metadata.{entry_header_size};
ghost use Rattle.metadata.specs.MetadataCheck.{index_count, key_size, encoding_of, value_size, entry_size, entry_ok, headers_of, data_of};

use fields::number::Number;
use fields::slice::{first, rest};

// The bytes of an entry's header (rule 3.8).
pub(crate) const ENTRY_HEADER_SIZE: usize = 8;

// INDEX_COUNT.
pub(crate) fn index_count(section: &[u8]) -> usize
    ensures value { result ≡ index_count section.now }
    ensures bound { result < 256 ^ 2 }
{
    u16::read(section, 0) as usize
}

// The entries from one on: what stands from its header on, and what stands from its key on.
#[derive(Clone, Copy)]
pub(crate) struct Entries<'a> {
    pub headers: &'a [u8],
    pub data: &'a [u8],
}

impl<'a> Entries<'a> {
    // All entries of a section.
    pub(crate) fn of(section: &'a [u8]) -> Entries<'a>
        ensures headers { result.headers.now ≡ headers_of section.now }
        ensures content { result.data.now ≡ data_of section.now }
    {
        Entries {
            headers: rest(section, 2),
            data: rest(section, 2 + ENTRY_HEADER_SIZE * index_count(section)),
        }
    }

    // The first one's KEY_SIZE.
    pub(crate) fn key_size(self) -> usize
        ensures value { result ≡ key_size self.entry.headers.now }
        ensures bound { result < 256 ^ 2 }
    {
        u16::read(self.headers, 0) as usize
    }

    // The first one's VALUE_ENCODING.
    pub(crate) fn encoding(self) -> u16
        ensures { result ≡ encoding_of self.entry.headers.now }
    {
        u16::read(self.headers, 2)
    }

    // The first one's VALUE_SIZE.
    pub(crate) fn value_size(self) -> usize
        ensures value { result ≡ value_size self.entry.headers.now }
        ensures bound { result < 256 ^ 4 }
    {
        u32::read(self.headers, 4) as usize
    }

    // The bytes of the first one's key and value. The sum of 16 and 32 bits cannot wrap in 64.
    pub(crate) fn entry_size(self) -> usize
        ensures { result ≡ entry_size self.entry.headers.now }
    {
        self.key_size() + self.value_size()
    }

    // The first one's key.
    pub(crate) fn key(self) -> &'a [u8]
        ensures { result.now ≡ take (key_size self.entry.headers.now) self.entry.data.now }
    {
        first(self.data, self.key_size())
    }

    // Is the first one as the rule says?
    #[tactic(auto, unfolding(crate::specs::MetadataCheck::entry_ok))]
    pub(crate) fn first_ok(self) -> bool
        ensures { result ≡ entry_ok self.entry.headers.now self.entry.data.now }
    {
        0 < self.key_size()
            && self.entry_size() <= self.data.len()
            && fields::text::is_text(self.key())
    }

    // The entries after the first one.
    pub(crate) fn after_first(self) -> Entries<'a>
        ensures headers { result.headers.now ≡ drop entry_header_size self.entry.headers.now }
        ensures content { result.data.now ≡ drop (entry_size self.entry.headers.now) self.entry.data.now }
    {
        Entries {
            headers: rest(self.headers, ENTRY_HEADER_SIZE),
            data: rest(self.data, self.entry_size()),
        }
    }
}
