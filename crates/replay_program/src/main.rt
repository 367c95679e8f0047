// Feeds the inputs of a list of the oracle's answers (standard input) through `feed::turn`, whole and cut in two, and prints how many agreed.
//
// The list is that of `oracle/target/release/answers program 3 160`.
#![tactic(auto)]

mod feeding;
mod list;
mod tally;

ghost use Rattle.std.specs.Prelude.{◌*◌, ◌≤◌, length, IfOk};

use answers::{below, load};
use input::read_full;
use std::io;
use tally::Tally;

// Whether the input at the list's begin agrees.
fn agrees_at(list: &[u8]) -> bool {
    let mut room = [0u8; 1024];
    load(list, 2, &mut room);
    feeding::feed_cuts(list, &room, below(list, 1, 1024))
}

// The inputs of a list of so many words one after the other: a `while`, since an input says how long it is.
fn replay(list: &[u8], words: usize) -> Tally
    requires { words * 17 ≤ length list.now }
{
    let mut tally = Tally::new();
    let mut at = 0;
    while at < words {
        let here = &list[at * 17..];
        tally.count(list::ends_in(here), agrees_at(here));
        at += 1 + below(here, 0, 4096);
    }
    tally
}

// The list read into `text`; how many words it has: two lines of `input`'s, which replay_grid has too.
fn read(rt: &HostRuntime, text: &mut [u8]) -> io::Result<usize>
    ensures { IfOk result (λ words. words * 17 ≤ length text.new) }
{
    let got = read_full(&mut rt.stdin(), text)?;
    Ok(got / 17)
}

// The list read and replayed, and the tally's lines. The text comes as a reference to an array, so that the proof sees its length and not
// its zeros.
fn run(rt: &HostRuntime, text: &mut [u8; 1048576]) -> io::Result<()> {
    let words = read(rt, text)?;
    replay(text, words).print(rt)
}

fn main(rt: HostRuntime) -> io::Result<()> {
    let mut text = [0u8; 1048576];
    run(&rt, &mut text)
}
