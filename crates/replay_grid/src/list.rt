// The words of a list as the calls' arguments, and held against their answers. A list here begins with the record at hand.
ghost use Rattle.std.specs.Prelude.{◌*◌, ◌<◌, ◌≤◌, length};

use answers::{below, bits, double, holds, word};
use grid::{Coordinates, Refusal, Region, Sample};
use stream::MonteCarloRng;

// The number of an answer: its refusal's, or 0.
pub fn number_of(answer: Result<(), Refusal>) -> u64 {
    match answer {
        Ok(()) => 0,
        Err(why) => why.number(),
    }
}

// Whether an answer is the list's: the refusal's number at a place, or a 0 there and the value behind it.
// replay_accumulator has the same one: `answers`, which they share, is built on nothing and knows no refusals.
pub fn holds_answer<T, Same: Fn(usize, T) -> bool>(
    list: &[u8],
    at: usize,
    answer: Result<T, Refusal>,
    same: Same,
) -> bool
    requires in_list { at < 64 }
    requires callable { Same.IsAlwaysCallable same }
{
    match answer {
        Ok(value) => (word(list, at) == 0) & same(at + 1, value),
        Err(why) => word(list, at) == why.number(),
    }
}

// Whether the words from a place on are these doubles.
pub fn holds_doubles(list: &[u8], at: usize, values: &[f64]) -> bool {
    let mut agrees = true;
    for (i, value) in values.iter().enumerate() {
        agrees = agrees & (word(list, at.saturating_add(i)) == bits(*value));
    }
    agrees
}

// Whether the words from the fifth on are this path.
fn holds_path(list: &[u8], path: [usize; 4]) -> bool {
    let words = [
        path[0] as u64,
        path[1] as u64,
        path[2] as u64,
        path[3] as u64,
    ];
    holds(list, 4, &words)
}

// Whether a sample is that of the list: path, weights and coordinates, each behind its number.
pub fn holds_sample(list: &[u8], s: Sample) -> bool {
    let path = s.path;
    let weights = s.weights;
    let coordinates = s.coordinates;
    (word(list, 3) == s.levels as u64)
        & holds_path(list, path)
        & (word(list, 8) == s.given as u64)
        & holds_doubles(list, 9, &weights)
        & (word(list, 14) == s.axes as u64)
        & holds_doubles(list, 15, &coordinates)
}

// Whether the stream behind a drawing is that of the list: replay_stream's lists have it at other words.
pub fn holds_stream(list: &[u8], stream: MonteCarloRng) -> bool {
    holds(list, 23, &[stream.s0, stream.s1, stream.s2, stream.s3])
}

// How many words the plan at the list's begin has with its calls, no more than there are.
pub fn words_of(list: &[u8]) -> usize
    ensures { result * 17 ≤ length list.now }
{
    (1 + below(list, 0, 4096)).min(list.len() / 17)
}

// Where the calls of the plan at the list's begin begin: behind its bytes and its stream.
pub fn first_call(list: &[u8]) -> usize
    ensures { (4 ≤ result) × (result ≤ 300) }
{
    6 + (below(list, 1, 2048) + 7) / 8
}

// The stream that the calls of the plan at the list's begin start with.
pub fn stream_of(list: &[u8]) -> MonteCarloRng {
    let at = first_call(list);
    MonteCarloRng {
        s0: word(list, at - 4),
        s1: word(list, at - 3),
        s2: word(list, at - 2),
        s3: word(list, at - 1),
    }
}

// The indices of a path.
pub fn path_at(list: &[u8], at: usize) -> [usize; 4]
    requires { at < 64 }
{
    [
        word(list, at) as usize,
        word(list, at + 1) as usize,
        word(list, at + 2) as usize,
        word(list, at + 3) as usize,
    ]
}

// Eight doubles.
fn doubles_at(list: &[u8], at: usize) -> [f64; 8]
    requires { at < 64 }
{
    let mut doubles = [0.0f64; 8];
    for (i, x) in doubles.iter_mut().enumerate() {
        *x = double(word(list, at + i));
    }
    doubles
}

// Five doubles.
fn weights_at(list: &[u8], at: usize) -> [f64; 5]
    requires { at < 64 }
{
    let doubles = doubles_at(list, at);
    [doubles[0], doubles[1], doubles[2], doubles[3], doubles[4]]
}

// Eight marks, each 1 or 0.
fn marks_at(list: &[u8], at: usize) -> [bool; 8]
    requires { at < 64 }
{
    let mut marks = [false; 8];
    for (i, mark) in marks.iter_mut().enumerate() {
        *mark = word(list, at + i) == 1;
    }
    marks
}

// What a probe asks for: a path, then the coordinates, each behind its number, then their marks.
pub fn region_at(list: &[u8]) -> Region {
    Region {
        path: path_at(list, 3),
        levels: word(list, 2) as usize,
        coordinates: Coordinates {
            at: doubles_at(list, 8),
            free: marks_at(list, 16),
            many: word(list, 7) as usize,
        },
    }
}

// A sample: path, weights and coordinates, each behind its number.
pub fn sample_at(list: &[u8]) -> Sample {
    Sample {
        path: path_at(list, 3),
        levels: word(list, 2) as usize,
        weights: weights_at(list, 8),
        given: word(list, 7) as usize,
        coordinates: doubles_at(list, 14),
        axes: word(list, 13) as usize,
    }
}
