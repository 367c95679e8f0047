// A list of answers: words of 16 lower-case hex digits, each with one byte after it, as oracle/README.md describes,
// and doubles as the words of such a list. Every program that replays a list reads it here.
#![tactic(auto)]

ghost use Rattle.std.specs.Prelude.{◌≡◌, ◌<◌, length};
ghost use Rattle.std.specs.Float.{binary64};
ghost use Rattle.std.specs.Float.Ieee.{to_bits, of_bits, nan_bits};
ghost use Rattle.answers.specs.List.{digit_of, words_of, word_of, below_of, holds_of, byte_in, bytes_from};
ghost use Rattle.answers.specs.Replayed.{counted};

// The value of a hex digit; any other byte counts as 0.
#[tactic(auto, using(std::proofs::lemmas::Bool::Decides::nat_tests), unfolding(crate::specs::List::digit_of))]
fn digit(glyph: u8) -> u64
    ensures { (result ≡ digit_of glyph) × (result < 16) }
{
    match glyph {
        b'0'..=b'9' => u64::from(glyph) - 48,
        b'a'..=b'f' => u64::from(glyph) - 87,
        _ => 0,
    }
}

// How many words the list holds.
pub fn words(list: &[u8]) -> usize
    ensures { result ≡ words_of list.now }
{
    list.len() / 17
}

// The word at `index`, and 0 past the last.
pub fn word(list: &[u8], index: usize) -> u64
    ensures { result ≡ word_of list.now index }
{
    if list.len() / 17 <= index {
        return 0;
    }
    let start = index * 17;
    let mut value: u64 = 0;
    for glyph in &list[start..start + 16] {
        value = value * 16 + digit(*glyph);
    }
    value
}

// The word at `index` where it is below `bound`, else 0.
pub fn below(list: &[u8], index: usize, bound: u64) -> usize
    ensures value { result ≡ below_of list.now index bound }
    ensures in_bounds { 0 < bound → result < bound }
{
    let x = word(list, index);
    if x < bound { x as usize } else { 0 }
}

// Whether the words from `at` on are these.
pub fn holds(list: &[u8], at: usize, values: &[u64]) -> bool
    ensures { result ≡ holds_of list.now at values.now }
{
    let mut agrees = true;
    for (i, value) in values.iter().enumerate() {
        agrees = agrees & (word(list, at.saturating_add(i)) == *value);
    }
    agrees
}

// Byte `i` of the bytes packed from word `at` on, eight to a word, lowest first.
pub fn byte_of(list: &[u8], at: usize, i: usize) -> u8
    ensures { result ≡ byte_in list.now at i }
{
    let lowest = (i % 8 * 8) as u64;
    ((word(list, at.saturating_add(i / 8)) >> lowest) % 256) as u8
}

// Fills `room` with the bytes packed from word `at` on.
pub fn load(list: &[u8], at: usize, room: &mut [u8])
    ensures { room.new ≡ bytes_from list.now at 0 (length room.old) }
{
    for (i, byte) in room.iter_mut().enumerate() {
        *byte = byte_of(list, at, i);
    }
}

// A double's word: its bits, any NaN as 7ff8000000000000.
pub fn bits(x: f64) -> u64
    ensures { result ≡ to_bits binary64 x }
{
    if x != x {
        return 0x7ff8_0000_0000_0000;
    }
    f64::to_bits(x)
}

// Whether these are a NaN's bits.
fn is_nan(bits: u64) -> bool
    ensures { result ≡ nan_bits binary64 bits }
{
    0x7ff0_0000_0000_0000 < bits % 0x8000_0000_0000_0000
}

// The double of a word.
pub fn double(bits: u64) -> f64
    ensures { result ≡ of_bits binary64 bits }
{
    if is_nan(bits) {
        return 0.0 / 0.0;
    }
    f64::from_bits(bits)
}

// How many records agreed, of how many.
#[derive(Clone, Copy, Debug, PartialEq, Eq)]
pub struct Replayed {
    pub agreed: u64,
    pub all: u64,
}

impl Replayed {
    // One record more, which agrees or does not.
    pub fn count(self, agrees: bool) -> Replayed
        ensures { result ≡ counted self agrees }
    {
        Replayed {
            agreed: self.agreed.wrapping_add(u64::from(agrees)),
            all: self.all.wrapping_add(1),
        }
    }
}
