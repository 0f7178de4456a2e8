// The two parts of a TIME_STAMP (rule 3.12): seconds, and a fraction of a second.
ghost use Rattle.std.specs.Prelude.{◌≡◌};
ghost use Rattle.header.specs.TimeStamp.{seconds_of, nanoseconds_of};

pub fn seconds(time_stamp: u64) -> u32
    ensures { result ≡ seconds_of time_stamp }
{
    (time_stamp / 4294967296) as u32
}

// The fraction is below 2^32, so that its product with 10^9 fits 64 bits and the quotient 32.
pub fn nanoseconds(time_stamp: u64) -> u32
    ensures { result ≡ nanoseconds_of time_stamp }
{
    (time_stamp % 4294967296 * 1000000000 / 4294967296) as u32
}
