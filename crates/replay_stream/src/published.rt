// Published words, and how many of them the stream gives.
use answers::Replayed;
use stream::MonteCarloRng;

// xoshiro256** from the state 1, 2, 3, 4: the reference implementation's first words, as rand_xoshiro's tests have them.
const XOSHIRO: [u64; 10] = [
    11520,
    0,
    1509978240,
    1215971899390074240,
    1216172134540287360,
    607988272756665600,
    16172922978634559625,
    8476171486693032832,
    10595114339597558777,
    2904607092377533576,
];

// How many of the ten words the state 1, 2, 3, 4 gives.
pub fn xoshiro() -> Replayed {
    let mut stream = MonteCarloRng {
        s0: 1,
        s1: 2,
        s2: 3,
        s3: 4,
    };
    let mut replayed = Replayed { agreed: 0, all: 0 };
    for known in &XOSHIRO {
        let word = stream.next_u64();
        replayed = replayed.count(word.value == *known);
        stream = word.stream;
    }
    replayed
}

// How many words of a seed's stream are these.
fn splitmix(seed: u64, s0: u64, s1: u64, s2: u64, s3: u64) -> Replayed {
    let state = MonteCarloRng::seed_from_u64(seed);
    Replayed { agreed: 0, all: 0 }
        .count(state.s0 == s0)
        .count(state.s1 == s1)
        .count(state.s2 == s2)
        .count(state.s3 == s3)
}

// SplitMix64's words from 0, as splitmix64.c gives them.
pub fn splitmix_zero() -> Replayed {
    splitmix(
        0,
        0xe220_a839_7b1d_cdaf,
        0x6e78_9e6a_a1b9_65f4,
        0x06c4_5d18_8009_454f,
        0xf88b_b8a8_724c_81ec,
    )
}

// The same from 1234567.
pub fn splitmix_1234567() -> Replayed {
    splitmix(
        1234567,
        6457827717110365317,
        3203168211198807973,
        9817491932198370423,
        4593380528125082431,
    )
}
