// Lays the plans of a list of the oracle's answers (standard input), makes its calls on their grids, and prints how many agreed.
//
// The list is that of `oracle/target/release/answers grid 3 150`.
#![tactic(auto)]

mod call;
mod calls;
mod list;
mod memory;
mod reads;
mod tally;
mod writes;

ghost use Rattle.std.specs.Prelude.{◌*◌, ◌≤◌, length, IfOk};

use input::read_full;
use std::io;

// The list read into `text`; how many words it has: two lines of `input`'s, which replay_program has too.
fn read(rt: &HostRuntime, text: &mut [u8]) -> io::Result<usize>
    ensures { IfOk result (λ words. words * 17 ≤ length text.new) }
{
    let got = read_full(&mut rt.stdin(), text)?;
    Ok(got / 17)
}

// The list read, its calls made, and a line for each kind of them. The text comes as a reference to an array, so that the proof sees its
// length and not its zeros.
fn run(rt: &HostRuntime, text: &mut [u8; 2097152]) -> io::Result<()> {
    let words = read(rt, text)?;
    calls::replay(text, words).print(rt)
}

fn main(rt: HostRuntime) -> io::Result<()> {
    let mut text = [0u8; 2097152];
    run(&rt, &mut text)
}
