// Makes the calls of a list of the oracle's answers (standard input) on the accumulator, and prints how many records agreed.
//
// The list is that of `oracle/target/release/answers accumulator 6 1900`: every call, with each refusal that it has.
#![tactic(auto)]

mod call;
mod calls;
mod list;

use answers::Replayed;
use call::CALLS;
use input::read_full;
use std::io;

// The list read into `text`; a line for each call, and one for all.
fn replay(rt: &HostRuntime, text: &mut [u8]) -> io::Result<()> {
    let got = read_full(&mut rt.stdin(), text)?;
    let list = &text[..got];
    for call in &CALLS {
        let Replayed { agreed, all } = calls::replay(list, Some(*call));
        println!(rt; "{call}: {agreed} of {all} agree")?;
    }
    let Replayed { agreed, all } = calls::replay(list, None);
    println!(rt; "all records: {agreed} of {all} agree")
}

// The room comes as a reference to an array, so that the proof sees its length and not a million and a half zeros.
fn run(rt: &HostRuntime, room: &mut [u8; 1572864]) -> io::Result<()> {
    replay(rt, room)
}

fn main(rt: HostRuntime) -> io::Result<()> {
    let mut room = [0u8; 1572864];
    run(&rt, &mut room)
}
