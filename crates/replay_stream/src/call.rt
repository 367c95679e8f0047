// The calls of a list, each by its number (oracle/README.md, "stream").
ghost use Rattle.replay_stream.specs.Call.{Decodes};

// A call on a stream, with its number.
#[derive(Clone, Copy, Debug, PartialEq, Eq)]
pub enum Call {
    New = 1,
    NextU64 = 2,
    NextU32 = 3,
    FillBytes = 4,
    Jump = 5,
    LongJump = 6,
    Export = 7,
    Import = 8,
    Unit = 9,
    SeedFromU64 = 10,
    UnitOf = 11,
}

// A number that is no call's.
#[derive(Clone, Copy, Debug, PartialEq, Eq)]
pub struct UnknownCall(pub u64);

impl TryFrom<u64> for Call {
    type Error = UnknownCall;

    ghost try_from_gives = { Decodes };

    fn try_from(number: u64) -> Result<Self, UnknownCall> {
        match number {
            1 => Ok(Call::New),
            2 => Ok(Call::NextU64),
            3 => Ok(Call::NextU32),
            4 => Ok(Call::FillBytes),
            5 => Ok(Call::Jump),
            6 => Ok(Call::LongJump),
            7 => Ok(Call::Export),
            8 => Ok(Call::Import),
            9 => Ok(Call::Unit),
            10 => Ok(Call::SeedFromU64),
            11 => Ok(Call::UnitOf),
            _ => Err(UnknownCall(number)),
        }
    }
}
