// Runs plans of every kind, most of them malformed, through the reader and through the table's judge, and prints how many
// answers agree with a stored list (standard input). list.py writes the list, from a reader of its own.
#![tactic(auto)]

mod cases;
mod codes;
mod rule;

use answers::Replayed;
use input::read_full;
use std::io;

// Replays the list, and prints how much of it agrees.
fn say_list(rt: &HostRuntime, text: &mut [u8]) -> io::Result<()> {
    let got = read_full(&mut rt.stdin(), text)?;
    let Replayed { agreed, all } = cases::replay(&text[..got]);
    println!(rt; "plans and tables: {agreed} of {all} agree")
}

// The room comes as a reference to an array, so that the proof sees its length and not its zeros.
fn say_list_in(rt: &HostRuntime, text: &mut [u8; 262144]) -> io::Result<()> {
    say_list(rt, text)
}

fn main(rt: HostRuntime) -> io::Result<()> {
    let mut text = [0u8; 262144];
    say_list_in(&rt, &mut text)
}
