// The oracle's list, record by record (oracle/README.md, "stream"): each is a line. A list here begins with the record at hand.
ghost use Rattle.std.specs.Prelude.{◌<◌, ◌≤◌, length};

use crate::call::Call;
use answers::{Replayed, bits, byte_of, holds, load, word};
use stream::{MonteCarloRng, unit_of};

// Whether the four words from a place on are a state.
fn holds_state(list: &[u8], at: usize, state: MonteCarloRng) -> bool {
    holds(list, at, &[state.s0, state.s1, state.s2, state.s3])
}

// Whether the words from a place on are a stream's, `count` of them, and then its state.
fn holds_words(list: &[u8], from: usize, start: MonteCarloRng, count: u64) -> bool {
    let mut agrees = count < 256;
    let mut at = from;
    let mut stream = start;
    for _ in 0..count % 256 {
        let drawn = stream.next_u64();
        agrees = agrees & (word(list, at) == drawn.value);
        stream = drawn.stream;
        at = at.wrapping_add(1);
    }
    agrees & holds_state(list, at, stream)
}

// The state behind a record's first word.
fn state_of(list: &[u8]) -> MonteCarloRng {
    MonteCarloRng {
        s0: word(list, 1),
        s1: word(list, 2),
        s2: word(list, 3),
        s3: word(list, 4),
    }
}

// Whether `bytes` are those packed from word `at` on.
fn same_bytes(list: &[u8], at: usize, bytes: &[u8]) -> bool {
    let mut agrees = true;
    for (i, byte) in bytes.iter().enumerate() {
        agrees = agrees & (byte_of(list, at, i) == *byte);
    }
    agrees
}

// new(seed, number), then the first words.
fn replay_new(list: &[u8]) -> bool {
    match MonteCarloRng::new(word(list, 1), word(list, 2)) {
        Err(why) => word(list, 4) == why.number(),
        Ok(stream) => {
            (word(list, 4) == 0)
                & holds_state(list, 5, stream)
                & holds_words(list, 9, stream, word(list, 3))
        }
    }
}

// Words from a state.
fn replay_words(list: &[u8]) -> bool {
    holds_words(list, 6, state_of(list), word(list, 5))
}

// The upper half of a word.
fn replay_half(list: &[u8]) -> bool {
    let half = state_of(list).next_u32();
    let stream = half.stream;
    (word(list, 5) == u64::from(half.value)) & holds_state(list, 6, stream)
}

// `bytes` filled in from a state, held against the bytes packed behind their number.
fn holds_fill(list: &[u8], bytes: &mut [u8]) -> bool
    requires { length bytes.old ≤ 40 }
{
    let words = (bytes.len() + 7) / 8;
    let stream = state_of(list).fill_bytes(bytes);
    same_bytes(list, 6, bytes) & holds_state(list, 6 + words, stream)
}

// Bytes filled in from a state, up to 40 of them.
fn replay_fill(list: &[u8]) -> bool {
    let count = word(list, 5);
    if 40 < count {
        return false;
    }
    let length = count as usize;
    let mut bytes = [0u8; 40];
    holds_fill(list, &mut bytes[..length])
}

// A state's bytes, packed behind their number, and the state.
fn replay_export(list: &[u8]) -> bool {
    let state = state_of(list);
    let bytes = state.export();
    (word(list, 5) == 32) & same_bytes(list, 6, &bytes) & holds_state(list, 10, state)
}

// 32 packed bytes behind their number, and the state that they import as.
fn replay_import(list: &[u8]) -> bool {
    let mut bytes = [0u8; 32];
    load(list, 2, &mut bytes);
    (word(list, 1) == 32) & holds_state(list, 6, MonteCarloRng::import(bytes))
}

// The unit draw from a state.
fn replay_unit(list: &[u8]) -> bool {
    let drawn = state_of(list).unit();
    let stream = drawn.stream;
    (word(list, 5) == bits(drawn.value)) & holds_state(list, 6, stream)
}

// The stream of a seed.
fn replay_seed(list: &[u8]) -> bool {
    holds_state(list, 2, MonteCarloRng::seed_from_u64(word(list, 1)))
}

// The unit draw of a word.
fn replay_unit_of(list: &[u8]) -> bool {
    word(list, 2) == bits(unit_of(word(list, 1)))
}

// One record's call made, and what it gives held against the list.
fn replay_call(list: &[u8], call: Call) -> bool {
    match call {
        Call::New => replay_new(list),
        Call::NextU64 => replay_words(list),
        Call::NextU32 => replay_half(list),
        Call::FillBytes => replay_fill(list),
        Call::Jump => holds_state(list, 5, state_of(list).jump()),
        Call::LongJump => holds_state(list, 5, state_of(list).long_jump()),
        Call::Export => replay_export(list),
        Call::Import => replay_import(list),
        Call::Unit => replay_unit(list),
        Call::SeedFromU64 => replay_seed(list),
        Call::UnitOf => replay_unit_of(list),
    }
}

// One record: its first word says which call it is of. A record of no call never agrees.
fn replay_record(list: &[u8]) -> bool {
    Call::try_from(word(list, 0)).is_ok_and(|call| replay_call(list, call))
}

// Where the line of a place ends: behind its line end, or with the list.
fn line_end(list: &[u8], from: usize) -> usize
    requires { from < length list.now }
    ensures { (from < result) × (result ≤ length list.now) }
{
    match list[from..].iter().position(|byte| *byte == b'\n') {
        Some(before) => from + before + 1,
        None => list.len(),
    }
}

// All records of the list, in order: a `while`, since a record is as long as its line.
pub fn replay(list: &[u8]) -> Replayed {
    let mut replayed = Replayed { agreed: 0, all: 0 };
    let mut at = 0;
    while at < list.len() {
        replayed = replayed.count(replay_record(&list[at..]));
        at = line_end(list, at);
    }
    replayed
}
