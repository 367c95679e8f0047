// Why a call is refused. Each refusal has one number and one meaning, those of the document's table.
ghost use Rattle.std.specs.Prelude.{◌≡◌};
ghost use Rattle.doubles.specs.Refusal.{number_of};

use std::error::Error;
use std::fmt;

#[derive(Clone, Copy, Debug, PartialEq, Eq, Hash)]
pub enum Refusal {
    // Plan bytes are malformed: a cut field, a wrong length or tag, surplus bytes.
    Malformed = 1,
    // A size is zero or above its bound.
    Size = 2,
    // A floor, ratio, rate, flag, stream number or sample number is outside its range.
    Range = 3,
    // Forms differ: a path, the number of coordinates, the shapes of a merge.
    Form = 4,
    // A coordinate is NaN, below 0 or above 1.
    Coordinate = 5,
    // A bin index is past the end.
    Bin = 6,
    // An evaluation or a weight is not finite.
    Infinite = 7,
    // A kept sum, an importance or their total would not be finite, or a count would pass 2^53.
    Overflow = 8,
    // An update would give edges that do not rise strictly from 0 to 1, or a probability that is not finite and above 0.
    Edges = 9,
    // A lent buffer is shorter than its plan needs.
    Room = 10,
    // Merged grids of equal shapes differ in edges, probabilities or floors.
    Unequal = 11,
    // A lent state is not well formed.
    State = 12,
}

impl Refusal {
    // Its number.
    pub fn number(self) -> u64
        ensures { result ≡ number_of self }
    {
        self as u64
    }
}

impl fmt::Display for Refusal {
    fn fmt<W: fmt::Write>(&self, f: &mut fmt::Formatter<W>) -> fmt::Result {
        f.write_str(match self {
            Refusal::Malformed => "plan bytes are malformed",
            Refusal::Size => "a size is zero or above its bound",
            Refusal::Range => "a value is outside its range",
            Refusal::Form => "forms differ",
            Refusal::Coordinate => "a coordinate is no number in [0, 1]",
            Refusal::Bin => "a bin index is past the end",
            Refusal::Infinite => "an evaluation or a weight is not finite",
            Refusal::Overflow => "a sum would not be finite, or a count would pass 2^53",
            Refusal::Edges =>
                "edges would not rise from 0 to 1, or a probability would not be above 0",
            Refusal::Room => "a lent buffer is too short",
            Refusal::Unequal => "edges, probabilities or floors differ",
            Refusal::State => "a lent state is not well formed",
        })
    }
}

impl Error for Refusal {}
