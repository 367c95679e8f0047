// Reading as much of an input as there is room for.
#![tactic(auto)]

ghost use Rattle.std.specs.Prelude.{ℕ, ◌≤◌, ◌<◌, length, take, IfOk, OnErr};
ghost use Rattle.std.specs.Io.KnownBytes.{Consumes, IsAtEnd};

use std::io;
use std::io::Read;

// Fills `text` from an input, as far as the input goes; how many bytes it put there. They are what was taken of the input. Where there
// is room left, the input is at its end. A read that fails is answered, and what was taken before stands in front of `text`. A `while`, since
// each read takes as much as it finds.
pub fn read_full<R: Read>(input: &mut R, text: &mut [u8]) -> io::Result<usize>
    ensures in_bounds { IfOk result (λ got. got ≤ length text.new) }
    ensures bytes { IfOk result (λ got. Consumes (R.remaining input.old) (R.remaining input.new) (take got text.new)) }
    ensures end { IfOk result (λ got. got < length text.new → IsAtEnd (R.remaining input.new)) }
    ensures failed { OnErr result ((got : ℕ) × (got ≤ length text.new) × Consumes (R.remaining input.old) (R.remaining input.new) (take got text.new)) }
{
    let mut got = 0;
    while got < text.len() {
        let more = input.read(&mut text[got..])?;
        if more == 0 {
            return Ok(got);
        }
        got += more;
    }
    Ok(got)
}
