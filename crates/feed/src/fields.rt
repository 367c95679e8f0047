// The fields behind a plan, as they stand in some bytes.
ghost use Rattle.std.specs.Prelude.{◌≡◌, ◌≤◌, length, take};
ghost use Rattle.feed.specs.Fields.{missing_of, standing_of, is_sample, row_from};

use crate::numbers::{double_at, number_at};

// A field that is due: all of it is there; its bytes may still come; or another stands there, or none, or it is cut by the input's end.
#[derive(Clone, Copy, Debug, PartialEq, Eq)]
pub enum Standing {
    Whole,
    Waiting,
    Wrong,
}

// Bytes are missing: they may come, unless these are the last.
#[tactic(auto, unfolding(crate::specs::Fields::missing_of))]
fn missing(last: bool) -> Standing
    ensures { result ≡ missing_of last }
{
    if last {
        return Standing::Wrong;
    }
    Standing::Waiting
}

// The field of this tag and length. The tag is a byte of the format, as in `plan`.
#[tactic(auto, using(std::proofs::lemmas::Bool::Decides::nat_tests), unfolding(crate::specs::Fields::standing_of))]
pub fn stands(bytes: &[u8], tag: u8, size: usize, last: bool) -> Standing
    requires { size ≤ 16 }
    ensures { result ≡ standing_of bytes.now tag size last }
{
    if bytes.len() < 3 {
        return missing(last);
    }
    if bytes[0] != tag {
        return Standing::Wrong;
    }
    if number_at(bytes, 1, 2) != size as u64 {
        return Standing::Wrong;
    }
    if bytes.len() < 3 + size {
        return missing(last);
    }
    Standing::Whole
}

// Whether a whole 11 stands at a place.
#[tactic(auto, using(std::proofs::lemmas::Bool::Decides::nat_tests), unfolding(crate::specs::Fields::is_sample))]
fn is_sample(bytes: &[u8], at: usize) -> bool
    requires { at ≤ length bytes.now }
    ensures { result ≡ is_sample bytes.now at }
{
    at + 11 <= bytes.len() && bytes[at] == 0x11 && number_at(bytes, at + 1, 2) == 8
}

// The evaluations of the 11s that the bytes begin with, as many as there is room for; and how many they are.
pub fn gather(bytes: &[u8], evaluations: &mut [f64]) -> usize
    ensures { (take result evaluations.new ≡ row_from bytes.now 0 (length evaluations.old)) × (result ≤ length evaluations.old) }
{
    let mut at = 0;
    for (many, evaluation) in evaluations.iter_mut().enumerate() {
        if !is_sample(bytes, at) {
            return many;
        }
        *evaluation = double_at(bytes, at + 3);
        at += 11;
    }
    evaluations.len()
}
