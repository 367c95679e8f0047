// The calls of a list, each by its letter (README.md).
ghost use Rattle.replay_real.specs.Call.{Decodes};

// A call of a kernel; a library's logarithm and power are to be met nearly, all else bit for bit.
#[derive(Clone, Copy, Debug, PartialEq, Eq)]
pub enum Call {
    Sqrt,
    Ln,
    Power,
    LibraryLn,
    LibraryPower,
    Norm,
    Inv,
    Count,
    Whole,
    Finite,
}

// A letter that is no call's.
#[derive(Clone, Copy, Debug, PartialEq, Eq)]
pub struct UnknownCall(pub u8);

impl TryFrom<u8> for Call {
    type Error = UnknownCall;

    ghost try_from_gives = { Decodes };

    fn try_from(letter: u8) -> Result<Self, UnknownCall> {
        match letter {
            b's' => Ok(Call::Sqrt),
            b'l' => Ok(Call::Ln),
            b'p' => Ok(Call::Power),
            b'L' => Ok(Call::LibraryLn),
            b'P' => Ok(Call::LibraryPower),
            b'n' => Ok(Call::Norm),
            b'i' => Ok(Call::Inv),
            b'c' => Ok(Call::Count),
            b'w' => Ok(Call::Whole),
            b'f' => Ok(Call::Finite),
            _ => Err(UnknownCall(letter)),
        }
    }
}
