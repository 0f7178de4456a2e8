// Fields of a byte layout, read from lent slices and written into lent buffers. Lent means passed by reference: the memory stays the
// caller's. Every function answers for every slice, place and number: a read past the end leaves out what is not there, and a write past
// the end leaves out what does not fit.
#![tactic(auto)]

pub mod fault;
pub mod number;
pub mod slice;
pub mod store;
pub mod text;

ghost use Rattle.std.specs.Prelude.{◌≡◌};
ghost use Rattle.fields.specs.Answer.{room_fault};
ghost use Rattle.fields.specs.Fault.{number_of};

use fault::Fault;

// Is there room for n bytes in a buffer of this length?
pub fn room_fault(n: usize, room: usize) -> Result<(), Fault>
    ensures { number_of result ≡ room_fault n room }
{
    if n <= room {
        Ok(())
    } else {
        Err(Fault::NoRoom)
    }
}
