// Grids in lent memory, as definitions: what stands where, what each call answers and leaves (specs/), and the laws of it (proofs/).
// Of code there are the records that the definitions speak of, and what all crates ask of a place: where axes stand, and whether there is
// room for them.
#![tactic(auto)]

pub mod layout;
pub mod room;

ghost use Rattle.std.specs.Prelude.{◌≡◌, ◌||◌};

use doubles::Refusal;
use std::ops::{BitOr, BitOrAssign};
use stream::MonteCarloRng;

// A grid in lent memory, to be read: its plan's table, its reals and its counts. A call that writes is lent the three one by one: of a struct
// of `&mut` slices each promise would have to say that they stay where they are and as long as they are, which parameters give for nothing.
// Public calls take them one by one too, as a caller has them. The table's numbers, a run's kind and its links among them, are its format
// (docs/DESIGN.md, "Lent memory"), which a plan's reader writes and no heap can stand for. What lies at a word, and how deep, is a fact of
// word and table together, and so a clause of each call and not an invariant of a place.
#[derive(Clone, Copy)]
pub struct Lent<'a> {
    pub table: &'a [u64],
    pub reals: &'a [f64],
    pub counts: &'a [u64],
}

// An axes grid's plan in numbers, and where its axes' reals and counts begin: each axis has room for `most` bins.
#[derive(Clone, Copy)]
pub struct AxesAt {
    pub axes: usize,
    pub most: usize,
    pub floor: f64,
    pub reals: usize,
    pub counts: usize,
}

// A sample: a bin for each bins grid on its path, a weight for each of them and for the axes grid at its end, and that grid's
// coordinates. Of each as many are there as its number says: no heap, so an array with its number beside it stands for each list.
#[derive(Clone, Copy)]
pub struct Sample {
    pub path: [usize; 4],
    pub levels: usize,
    pub weights: [f64; 5],
    pub given: usize,
    pub coordinates: [f64; 8],
    pub axes: usize,
}

// A drawn sample, and the stream after it.
#[derive(Clone, Copy)]
pub struct Drawing {
    pub sample: Sample,
    pub stream: MonteCarloRng,
}

// The coordinates of a probe: `many` of them (no heap), each given or, where it is free, left open. The two lists go as the public calls
// promise of them (specs/Probed `coordinates_of`), and callers set them so.
#[derive(Clone, Copy)]
pub struct Coordinates {
    pub at: [f64; 8],
    pub free: [bool; 8],
    pub many: usize,
}

// What a probe asks for: a bin for each bins grid on its path, and the coordinates in the axes grid at its end. Lists and numbers as in a
// sample, whose path it is given.
#[derive(Clone, Copy)]
pub struct Region {
    pub path: [usize; 4],
    pub levels: usize,
    pub coordinates: Coordinates,
}

// What a batch answers: how it ended, by the first refusal where there was one; how many evaluations were trained; and the stream after
// their draws.
#[derive(Clone, Copy)]
pub struct Batched {
    pub end: Result<(), Refusal>,
    pub done: usize,
    pub stream: MonteCarloRng,
}

// The weight of the coordinates that a walk sets, and the stream after them.
#[derive(Clone, Copy)]
pub struct Walked {
    pub weight: f64,
    pub stream: MonteCarloRng,
}

// What a draw answers beside the bins, weights and coordinates that it writes: how many of them are there now, its weight, and the
// stream after it.
#[derive(Clone, Copy)]
pub struct Traced {
    pub levels: usize,
    pub given: usize,
    pub axes: usize,
    pub weight: f64,
    pub stream: MonteCarloRng,
}

// The values of an accumulator that a sample changes, by the accumulator's names. Its sample numbers are counts of lent memory, 0 for none.
#[derive(Clone, Copy)]
pub struct Gain {
    pub sum: f64,
    pub sum_sq: f64,
    pub new_samples: u64,
    pub new_zero_evaluations: u64,
    pub max_eval_positive: f64,
    pub max_eval_positive_number: u64,
    pub max_eval_negative: f64,
    pub max_eval_negative_number: u64,
}

// What the plan says of an update: the bins where it has no evolution list, the least samples, whether averages are trained on.
#[derive(Clone, Copy)]
pub struct Rule {
    pub bins: usize,
    pub least: u64,
    pub averages: bool,
}

// Whether some 8 and whether some 9 was found. An 8 anywhere goes before a 9 anywhere, so that a tree's update keeps both to its end.
#[derive(Clone, Copy, Debug, PartialEq, Eq)]
pub struct Found {
    pub eight: bool,
    pub nine: bool,
}

impl Found {
    pub const NOTHING: Found = Found {
        eight: false,
        nine: false,
    };

    pub const EIGHT: Found = Found {
        eight: true,
        nine: false,
    };
}

// What was found in either of two.
impl BitOr for Found {
    type Output = Found;

    ghost bitor_gives = { λ a b r. (r.eight ≡ (a.eight || b.eight)) × (r.nine ≡ (a.nine || b.nine)) };

    fn bitor(self, other: Found) -> Found {
        Found {
            eight: self.eight | other.eight,
            nine: self.nine | other.nine,
        }
    }
}

impl BitOrAssign for Found {
    ghost bitor_assign_gives = { λ a b r. (r.eight ≡ (a.eight || b.eight)) × (r.nine ≡ (a.nine || b.nine)) };

    fn bitor_assign(&mut self, other: Found) {
        *self = *self | other;
    }
}
