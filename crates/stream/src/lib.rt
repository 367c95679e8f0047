// MonteCarloRng: the stream of random words, xoshiro256** seeded by SplitMix64, with its two jumps, its bytes and the unit draw.
//
// A stream is four words, passed and returned by value; any four are a state, zeros too. Each call's promise is an equation
// with its definition in specs/, which says what the publications say.
#![tactic(auto)]

mod bytes;

ghost use Rattle.std.specs.Prelude.{◌≡◌, ◌<◌, ◌≤◌, length};
ghost use Rattle.doubles.specs.Refusal.{paper};
ghost use Rattle.stream.specs.SplitMix.{advanced, mix_of, seeded_of};
ghost use Rattle.stream.specs.Jumps.{jump_table, long_jump_table, joined, walk_bit, walk_bits, jump_of, jumps_of};
ghost use Rattle.stream.specs.Calls.{drawn_of, upper_of, unit_of, unit_drawn_of, words_for, filled, filled_of, export_of, state_in, import_of, new_of};

use bytes::{is_all_zero, put_word, with_word, word_at};
use doubles::Refusal;

// The state: four words in the order of the publication.
#[derive(Clone, Copy, Debug, PartialEq, Eq)]
pub struct MonteCarloRng {
    pub s0: u64,
    pub s1: u64,
    pub s2: u64,
    pub s3: u64,
}

// A value, and the stream after it.
#[derive(Clone, Copy)]
pub struct Next<T> {
    pub value: T,
    pub stream: MonteCarloRng,
}

// The top 53 bits of a word times 2^-53: a number of [0, 1 - 2^-53].
pub fn unit_of(word: u64) -> f64
    ensures { result ≡ unit_of word }
{
    ((word >> 11) as f64) * 1.1102230246251565e-16
}

// A jump on its way: the sum of the states taken so far, and the state reached.
#[derive(Clone, Copy)]
pub struct Walk {
    pub sum: MonteCarloRng,
    pub state: MonteCarloRng,
}

// SplitMix64's next state.
fn advance(x: u64) -> u64
    ensures { result ≡ advanced x }
{
    x.wrapping_add(MonteCarloRng::SPLITMIX64_GAMMA)
}

// SplitMix64's word at the state x.
fn mix(x: u64) -> u64
    ensures { result ≡ mix_of x }
{
    let y = (x ^ (x >> 30)).wrapping_mul(0xbf58_476d_1ce4_e5b9);
    let z = (y ^ (y >> 27)).wrapping_mul(0x94d0_49bb_1331_11eb);
    z ^ (z >> 31)
}

// The state whose words stand first in `bytes`.
fn state_in(bytes: &[u8]) -> MonteCarloRng
    requires { 32 ≤ length bytes.now }
    ensures { result ≡ state_in bytes.now }
{
    MonteCarloRng {
        s0: word_at(bytes, 0),
        s1: word_at(bytes, 8),
        s2: word_at(bytes, 16),
        s3: word_at(bytes, 24),
    }
}

// The words that n bytes spend: one for each eight, and one for a short rest.
fn words_for(n: usize) -> usize
    ensures { result ≡ words_for n }
{
    n / 8 + (n % 8 + 7) / 8
}

// Two states joined word by word.
fn join(a: MonteCarloRng, b: MonteCarloRng) -> MonteCarloRng
    ensures { result ≡ joined a b }
{
    MonteCarloRng {
        s0: a.s0 ^ b.s0,
        s1: a.s1 ^ b.s1,
        s2: a.s2 ^ b.s2,
        s3: a.s3 ^ b.s3,
    }
}

// One bit of a jump's walk: the state is added to the sum where the bit is set, and goes one step on.
fn walk_bit(word: u64, bit: u64, walk: Walk) -> Walk
    requires { bit < 64 }
    ensures { result ≡ walk_bit word bit walk }
{
    let sum = walk.sum;
    let state = walk.state;
    let next = state.next_u64();
    let after = next.stream;
    if (word >> bit) % 2 == 1 {
        return Walk {
            sum: join(sum, state),
            state: after,
        };
    }
    Walk { sum, state: after }
}

// A jump's walk over the 64 bits of one word of its table.
fn walk_word(word: u64, walk: Walk) -> Walk
    ensures { result ≡ walk_bits word 64 0 walk }
{
    let mut at = walk;
    for bit in 0..64 {
        at = walk_bit(word, bit, at);
    }
    at
}

impl MonteCarloRng {
    const SPLITMIX64_GAMMA: u64 = 0x9e37_79b9_7f4a_7c15;

    const JUMP: [u64; 4] = [
        0x180e_c6d3_3cfd_0aba,
        0xd5a6_1266_f0c9_392c,
        0xa958_2618_e03f_c9aa,
        0x39ab_dc45_29b1_661c,
    ];

    const LONG_JUMP: [u64; 4] = [
        0x76e1_5d3e_fefd_cbbf,
        0xc500_4e44_1c52_2fb3,
        0x7771_0069_854e_e241,
        0x3910_9bb0_2acb_e635,
    ];

    // The stream of a seed: four words of SplitMix64.
    pub fn seed_from_u64(seed: u64) -> MonteCarloRng
        ensures { result ≡ seeded_of seed }
    {
        let x0 = advance(seed);
        let x1 = advance(x0);
        let x2 = advance(x1);
        let x3 = advance(x2);
        MonteCarloRng {
            s0: mix(x0),
            s1: mix(x1),
            s2: mix(x2),
            s3: mix(x3),
        }
    }

    // The stream of a seed and a stream number: `seed_from_u64`, then that many jumps. A number above 4,095 is refused with 3.
    pub fn new(seed: u64, number: u64) -> Result<MonteCarloRng, Refusal>
        ensures { paper result ≡ new_of seed number }
    {
        if 4095 < number {
            return Err(Refusal::Range);
        }
        Ok(MonteCarloRng::seed_from_u64(seed).jumps(number))
    }

    // The stream whose words stand in 32 bytes, as `export` writes them; of 32 zero bytes, the stream of seed 0.
    pub fn from_seed(seed: [u8; 32]) -> MonteCarloRng
        ensures { result ≡ import_of seed }
    {
        if is_all_zero(&seed) {
            return MonteCarloRng::seed_from_u64(0);
        }
        state_in(&seed)
    }

    // `from_seed`, under the name that goes with `export`.
    pub fn import(state: [u8; 32]) -> MonteCarloRng
        ensures { result ≡ import_of state }
    {
        MonteCarloRng::from_seed(state)
    }

    // The state as 32 bytes: the words in order, each lowest byte first.
    pub fn export(self) -> [u8; 32]
        ensures { result ≡ export_of self }
    {
        let one = with_word([0u8; 32], 0, self.s0);
        let two = with_word(one, 8, self.s1);
        let three = with_word(two, 16, self.s2);
        with_word(three, 24, self.s3)
    }

    // The next word, and the stream after it.
    pub fn next_u64(self) -> Next<u64>
        ensures { result ≡ drawn_of self }
    {
        let value = self.s1.wrapping_mul(5).rotate_left(7).wrapping_mul(9);
        let t = self.s1 << 17;
        let s2 = self.s2 ^ self.s0;
        let s3 = self.s3 ^ self.s1;
        Next {
            value,
            stream: MonteCarloRng {
                s0: self.s0 ^ s3,
                s1: self.s1 ^ s2,
                s2: s2 ^ t,
                s3: s3.rotate_left(45),
            },
        }
    }

    // The upper half of the next word, and the stream after it.
    pub fn next_u32(self) -> Next<u32>
        ensures { result ≡ upper_of self }
    {
        let word = self.next_u64();
        let stream = word.stream;
        Next {
            value: (word.value >> 32) as u32,
            stream,
        }
    }

    // The unit draw of the next word, and the stream after it.
    pub fn unit(self) -> Next<f64>
        ensures { result ≡ unit_drawn_of self }
    {
        let word = self.next_u64();
        let stream = word.stream;
        Next {
            value: unit_of(word.value),
            stream,
        }
    }

    // Fills `dest` with the bytes of the next words, the last word's surplus unused, and answers the stream after them.
    pub fn fill_bytes(self, dest: &mut [u8]) -> MonteCarloRng
        ensures { filled result dest.new ≡ filled_of (length dest.old) self }
    {
        let words = words_for(dest.len());
        let mut stream = self;
        for k in 0..words {
            let word = stream.next_u64();
            put_word(dest, k * 8, word.value);
            stream = word.stream;
        }
        stream
    }

    // The stream 2^128 words on, for streams that run side by side.
    pub fn jump(self) -> MonteCarloRng
        ensures { result ≡ jump_of jump_table self }
    {
        self.jumped(&MonteCarloRng::JUMP)
    }

    // The stream 2^192 words on, for machines that each run many streams.
    pub fn long_jump(self) -> MonteCarloRng
        ensures { result ≡ jump_of long_jump_table self }
    {
        self.jumped(&MonteCarloRng::LONG_JUMP)
    }

    // The jump of a table.
    fn jumped(self, table: &[u64]) -> MonteCarloRng
        ensures { result ≡ jump_of table.now self }
    {
        let none = MonteCarloRng {
            s0: 0,
            s1: 0,
            s2: 0,
            s3: 0,
        };
        let mut walk = Walk {
            sum: none,
            state: self,
        };
        for word in table {
            walk = walk_word(*word, walk);
        }
        walk.sum
    }

    // `count` jumps.
    fn jumps(self, count: u64) -> MonteCarloRng
        ensures { result ≡ jumps_of count self }
    {
        let mut stream = self;
        for _ in 0..count {
            stream = stream.jump();
        }
        stream
    }
}
