// Runs one of the library's inner loops as often as standard input says, `KIND COUNT`, and prints a word made of all results,
// so that no part of the work can be left out; or a refusal's number, and 0 for an unknown kind. bench/run times it beside the
// same loop of the Rust.
#![tactic(auto)]

mod edges;
mod grids;
mod kernels;
mod plans;
mod records;
mod request;

use doubles::Refusal;
use input::read_full;
use plans::Plan;
use request::Kind;
use std::io;
use stream::MonteCarloRng;

// The exclusive or of the first words of new(0, 0).
fn stream_words(count: u64) -> u64 {
    let mut stream = MonteCarloRng::seed_from_u64(0);
    let mut xor: u64 = 0;
    for _ in 0..count {
        let word = stream.next_u64();
        xor = xor ^ word.value;
        stream = word.stream;
    }
    xor
}

// The loop of a kind, so often.
fn run(kind: Kind, count: u64) -> Result<u64, Refusal> {
    match kind {
        Kind::Add => records::added(count),
        Kind::Draw => Ok(edges::drawn(count)),
        Kind::Exponent => Ok(kernels::raised(count)),
        Kind::Grid => grids::trained(Plan::Axes, count),
        Kind::Judged => grids::drawn(Plan::Axes, count),
        Kind::Log => Ok(kernels::logged(count)),
        Kind::Nested => grids::drawn(Plan::Tree, count),
        Kind::Probe => Ok(edges::probed(count)),
        Kind::Root => Ok(kernels::rooted(count)),
        Kind::Stream => Ok(stream_words(count)),
        Kind::Tree => grids::trained(Plan::Tree, count),
        Kind::Update => records::updated(false, count),
        Kind::Weighted => records::updated(true, count),
    }
}

fn main(rt: HostRuntime) -> io::Result<()> {
    let mut text = [0u8; 64];
    let got = read_full(&mut rt.stdin(), &mut text)?;
    let count = request::count(&text[..got]);
    let word = match request::kind_of(&text[..got]) {
        Some(kind) => run(kind, count).unwrap_or_else(|why| why.number()),
        None => 0,
    };
    println!(rt; "{word:016x}")
}
