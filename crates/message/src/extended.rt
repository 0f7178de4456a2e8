// What goes by the layout (rule 3.6): the numbers after EXT_HEADER_SIZE, in a body that is read and in one that is written. Nothing else
// knows what they mean.
ghost use Rattle.std.specs.Prelude.{◌≡◌};
ghost use Rattle.fields.specs.Fault.{number_of};
ghost use Rattle.message.specs.Body.{extended_numbers, MetadataFits};
ghost use Rattle.message.specs.MessageReader.{section_size, id_at, reserved_ok, index_size_fault};
ghost use Rattle.message.specs.MessageWriter.{size_fits};

use crate::Layout;
use fields::fault::Fault;
use fields::number::{Number, SIZE_LIMIT};

// The numbers after EXT_HEADER_SIZE, which have two, four and four bytes.
#[derive(Clone, Copy)]
pub struct ExtendedNumbers {
    pub second: u16,
    pub third: u32,
    pub fourth: u32,
}

// How many bytes the metadata has. The two sizes are added in a wider type than theirs.
pub(crate) fn section_size(layout: Layout, body: &[u8]) -> usize
    ensures { result ≡ section_size layout body.now }
{
    match layout {
        Layout::New => u16::read(body, 2) as usize + u32::read(body, 4) as usize,
        Layout::Old => u16::read(body, 2) as usize,
    }
}

// MSG_ID.
pub(crate) fn id_at(layout: Layout, body: &[u8]) -> u32
    ensures { result ≡ id_at layout body.now }
{
    match layout {
        Layout::New => u32::read(body, 8),
        Layout::Old => u32::read(body, 4),
    }
}

// Is the reserved word 0, where there is one?
pub(crate) fn reserved_ok(layout: Layout, body: &[u8]) -> bool
    ensures { result ≡ reserved_ok layout body.now }
{
    match layout {
        Layout::New => true,
        Layout::Old => u32::read(body, 8) == 0,
    }
}

// Check 7 of METADATA_HEADER_SIZE, where there is one: it is to be the size of the section's index.
pub(crate) fn index_size_fault(layout: Layout, body: &[u8], section: &[u8]) -> Result<(), Fault>
    ensures { number_of result ≡ index_size_fault layout body.now section.now }
{
    match layout {
        Layout::New if u16::read(body, 2) as usize != metadata::index_size(section) => {
            Err(Fault::Metadata)
        }
        _ => Ok(()),
    }
}

// Does the metadata's size of two bytes fit? In the new layout it is that of the index, in the old that of the whole metadata.
pub(crate) fn size_fits(layout: Layout, index: usize, metadata: usize) -> bool
    ensures { result ≡ size_fits layout index metadata }
{
    match layout {
        Layout::New => index <= SIZE_LIMIT,
        Layout::Old => metadata <= SIZE_LIMIT,
    }
}

// The numbers for metadata whose sizes fit.
pub(crate) fn extended_numbers(
    layout: Layout,
    index: usize,
    metadata: usize,
    id: u32,
) -> ExtendedNumbers
    requires { MetadataFits layout index metadata }
    ensures { result ≡ extended_numbers layout index metadata id }
{
    match layout {
        Layout::New => ExtendedNumbers {
            second: index as u16,
            third: (metadata - index) as u32,
            fourth: id,
        },
        Layout::Old => ExtendedNumbers {
            second: metadata as u16,
            third: id,
            fourth: 0,
        },
    }
}
