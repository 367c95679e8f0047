// Runs the stream on published words and on a list of the oracle's answers (standard input), and prints what agreed. The list is that
// of `oracle/target/release/answers stream 1 1500`.
#![tactic(auto)]

mod call;
mod list;
mod published;

use answers::Replayed;
use input::read_full;
use std::io;

// A line of what agreed.
fn line(rt: &HostRuntime, name: &str, replayed: Replayed) -> io::Result<()> {
    println!(rt; "{name}{} of {} agree", replayed.agreed, replayed.all)
}

// The published words.
fn say_published(rt: &HostRuntime) -> io::Result<()> {
    line(
        rt,
        "xoshiro256** from 1, 2, 3, 4, words: ",
        published::xoshiro(),
    )?;
    line(rt, "SplitMix64 from 0, words: ", published::splitmix_zero())?;
    line(
        rt,
        "SplitMix64 from 1234567, words: ",
        published::splitmix_1234567(),
    )
}

// The list.
fn say_list(rt: &HostRuntime, text: &mut [u8]) -> io::Result<()> {
    let got = read_full(&mut rt.stdin(), text)?;
    line(
        rt,
        "the oracle's list, records: ",
        list::replay(&text[..got]),
    )
}

// The room comes as a reference to an array, so that the proof sees its length and not its zeros.
fn say_list_in(rt: &HostRuntime, text: &mut [u8; 524288]) -> io::Result<()> {
    say_list(rt, text)
}

fn main(rt: HostRuntime) -> io::Result<()> {
    say_published(&rt)?;
    let mut text = [0u8; 524288];
    say_list_in(&rt, &mut text)
}
