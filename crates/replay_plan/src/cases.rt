// The list's sections: a rule that makes cases out of a base, and the code that each is to come to. A list here begins with the section
// at hand.
ghost use Rattle.std.specs.Prelude.{◌≡◌, ◌+◌, ◌*◌, ◌%◌, ◌^◌, ◌<◌, ◌≤◌};

use crate::codes;
use crate::rule::Rule;
use answers::{Replayed, below, load, word, words};

type Base = [u8; 2048];

type Table = [u64; 512];

// A section's head: its rule, whether the whole plan is read, how many fields stand in a row, how many bytes the base has,
// how many cases there are; and the word where the codes begin, behind the base.
#[derive(Clone, Copy)]
struct Section {
    rule: Rule,
    whole: bool,
    depth: usize,
    size: usize,
    cases: usize,
    codes: usize,
}

// The head of the section at the list's begin. A number of no rule cuts.
fn head(list: &[u8]) -> Section
    ensures { (result.size ≤ 2048) × (result.depth ≤ 8) × (result.cases ≤ 65536) × (5 ≤ result.codes) × (result.codes ≤ 261) }
{
    let size = below(list, 3, 2048);
    Section {
        rule: Rule::try_from(word(list, 0)).unwrap_or(Rule::Cut),
        whole: word(list, 1) == 0,
        depth: below(list, 2, 8),
        size,
        cases: below(list, 4, 65536),
        codes: 5 + (size + 7) / 8,
    }
}

// One of the four codes of a word.
fn code_of(list: &[u8], index: usize, place: u64) -> u64
    requires { place < 4 }
{
    (word(list, index) >> (16 * place)) % 65536
}

// The base's first bytes, as many as the case's number.
fn cut(base: &Base, size: usize, case: usize, out: &mut Base) -> usize
    requires { size ≤ 2048 }
    ensures { result ≤ 2048 }
{
    if size < case {
        return 0;
    }
    out[..case].copy_from_slice(&base[..case]);
    case
}

// The base with one byte changed: each byte in turn, by 1 to 255.
fn changed(base: &Base, size: usize, case: usize, out: &mut Base) -> usize
    requires { size ≤ 2048 }
    ensures { result ≤ 2048 }
{
    out[..size].copy_from_slice(&base[..size]);
    let i = case / 255;
    if i < size {
        out[i] = ((usize::from(base[i]) + case % 255 + 1) % 256) as u8;
    }
    size
}

// `depth` of the base's fields in a row. The base has 32 bytes for each: how many it takes, and these.
fn row(base: &Base, size: usize, depth: usize, case: usize, out: &mut Base) -> usize
    requires { (size ≤ 2048) × (depth ≤ 8) }
    ensures { result ≤ 2048 }
{
    let fields = size / 32;
    if fields == 0 {
        return 0;
    }
    let mut left = case;
    let mut at = 0;
    for _done in 0..depth {
        let start = 32 * (left % fields);
        let n = usize::from(base[start]) % 31;
        out[at..at + n].copy_from_slice(&base[start + 1..start + 1 + n]);
        left /= fields;
        at += n;
    }
    at
}

// Another word in the place of an old one.
fn other(old: u64, way: usize) -> u64 {
    match way {
        0 => old.wrapping_add(1),
        1 => old.wrapping_sub(1),
        5 => u64::MAX,
        _ => (way as u64) - 2,
    }
}

// The base's table with one word changed.
fn spoilt(base: &[u8], case: usize, table: &mut Table) -> u64 {
    let _ = plan::read_plan(base, table);
    let i = case / 6;
    if i < table.len() {
        table[i] = other(table[i], case % 6);
        return codes::of_table(table);
    }
    0
}

// The code of a case, on a table that nothing was written to.
fn answer(s: Section, case: usize, base: &Base) -> u64
    requires { (s.size ≤ 2048) × (s.depth ≤ 8) }
{
    let mut table = [codes::UNTOUCHED; 512];
    let mut out = [0u8; 2048];
    let n = match s.rule {
        Rule::Cut => cut(base, s.size, case, &mut out),
        Rule::Change => changed(base, s.size, case, &mut out),
        Rule::Row => row(base, s.size, s.depth, case, &mut out),
        Rule::Table => return spoilt(&base[..s.size], case, &mut table),
    };
    codes::of_plan(&out[..n], s.whole, &mut table)
}

// The section's cases, each counted: at most so many more agree.
#[tactic(auto, unfolding(answers::specs::Replayed::counted))]
fn run(list: &[u8], s: Section, base: &Base, before: Replayed) -> Replayed
    requires { (s.size ≤ 2048) × (s.depth ≤ 8) × (s.cases ≤ 65536) × (s.codes ≤ 261) }
    ensures agreed { result.agreed ≤ before.agreed + s.cases }
    ensures all { result.all ≡ (before.all + s.cases) % 2 ^ 64 }
{
    let mut replayed = before;
    for case in 0..s.cases {
        let told = code_of(list, s.codes + case / 4, (case % 4) as u64);
        replayed = replayed.count(answer(s, case, base) == told);
    }
    replayed
}

// Runs every section of a list: a `while`, since a section says how long it is.
#[tactic(auto, unfolding(answers::specs::List::words_of))]
pub fn replay(list: &[u8]) -> Replayed {
    let mut base = [0u8; 2048];
    let end = words(list);
    let mut replayed = Replayed { agreed: 0, all: 0 };
    let mut at = 0;
    while at < end {
        let here = &list[at * 17..];
        let s = head(here);
        load(here, 5, &mut base);
        replayed = run(here, s, &base, replayed);
        at += s.codes + (s.cases + 3) / 4;
    }
    replayed
}
