// Why something is refused (rule 5.1).
ghost use Rattle.std.specs.Prelude.{◌≡◌, ◌≤◌};
ghost use Rattle.fields.specs.Fault.{fault_number, number_of};

// Each refusal has a number of its own, from 1 to 21; `number` gives it.
#[derive(Clone, Copy, Debug, PartialEq, Eq, Hash)]
pub enum Fault {
    // The header or the rest of the message has not arrived.
    Incomplete,
    // TYPE or DEVICE_NAME.
    Names,
    BodySize,
    Version,
    Crc,
    ExtendedHeader,
    Metadata,
    // The length of a TRANSFORM or of a POSITION.
    PoseLength,
    Image,
    Bind,
    // A BIND that lies too deep.
    BindDepth,
    // A message is followed by more bytes.
    MoreBytes,
    // No tile has the message's device name and type.
    NoTile,
    LinkDown,
    // The clock is behind the panel's.
    ClockBehind,
    // A new tile's type, name or hold time.
    NewTile,
    // The panel has a tile of this name and type.
    TileTaken,
    // The panel has sixteen tiles.
    PanelFull,
    // There is no such tile, child or key.
    NotFound,
    // The buffer is too short.
    NoRoom,
    FeedStopped,
}

impl Fault {
    // Its number.
    pub fn number(self) -> u8
        ensures { result ≡ fault_number self }
    {
        match self {
            Fault::Incomplete => 1,
            Fault::Names => 2,
            Fault::BodySize => 3,
            Fault::Version => 4,
            Fault::Crc => 5,
            Fault::ExtendedHeader => 6,
            Fault::Metadata => 7,
            Fault::PoseLength => 8,
            Fault::Image => 9,
            Fault::Bind => 10,
            Fault::BindDepth => 11,
            Fault::MoreBytes => 12,
            Fault::NoTile => 13,
            Fault::LinkDown => 14,
            Fault::ClockBehind => 15,
            Fault::NewTile => 16,
            Fault::TileTaken => 17,
            Fault::PanelFull => 18,
            Fault::NotFound => 19,
            Fault::NoRoom => 20,
            Fault::FeedStopped => 21,
        }
    }
}

// The number of an answer: 0 for none refused.
pub fn number_of<T: Copy>(answer: Result<T, Fault>) -> u8
    ensures { result ≡ number_of answer }
{
    match answer {
        Ok(_) => 0,
        Err(fault) => fault.number(),
    }
}
