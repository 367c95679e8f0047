// What an answer comes to as one number below 65,536: 4096 times a refusal's number plus its offset, or what a digest leaves.
ghost use Rattle.std.specs.Prelude.{◌≡◌, ◌<◌, length};

use plan::{Misread, Needs, Read};

// What the program lends the reader holds this where nothing was written.
pub const UNTOUCHED: u64 = 7;

// A refusal's number and offset.
fn refused(number: u64, offset: usize) -> u64 {
    (number % 16) * 4096 + (offset as u64) % 4096
}

// One number more in a digest.
fn fold(d: u64, x: u64) -> u64
    requires { d < 4294967291 }
    ensures { result < 4294967291 }
{
    (d * 31 + x % 4294967296 + x / 4294967296) % 4294967291
}

// A plan's needs in a digest.
fn fold_needs(d: u64, n: Needs) -> u64
    requires { d < 4294967291 }
    ensures { result < 4294967291 }
{
    let words = fold(d, n.words as u64);
    let reals = fold(words, n.reals as u64);
    let counts = fold(reals, n.counts as u64);
    fold(counts, n.bins as u64)
}

// A table's first words in a digest.
fn fold_table(d: u64, table: &[u64], words: usize) -> u64
    requires { d < 4294967291 }
    ensures { result < 4294967291 }
{
    let mut sum = d;
    for x in table.iter().take(words) {
        sum = fold(sum, *x);
    }
    sum
}

// Whether nothing was written to a table.
fn is_untouched(table: &[u64]) -> bool {
    table.iter().all(|x| *x == UNTOUCHED)
}

// Whether what lies behind a plan's words is as it was, and its table is known again with the same needs.
fn is_kept(table: &[u64], n: Needs) -> bool {
    let words = n.words;
    words <= table.len() && is_untouched(&table[words..]) && plan::sizes(table) == Ok(n)
}

// Reads a plan, or a prefix that is one, into a table that nothing was written to.
pub fn of_plan(bytes: &[u8], whole: bool, table: &mut [u64]) -> u64
    ensures { length table.new ≡ length table.old }
{
    match read(bytes, whole, table) {
        Err(m) if is_untouched(table) => refused(m.why.number(), m.at),
        Ok(r) if is_kept(table, r.needs) => {
            let d = fold_needs(fold(0, r.end as u64), r.needs);
            fold_table(d, table, r.needs.words) % 4096
        }
        _ => 65535,
    }
}

// A plan, or a prefix that is one, read into a table.
fn read(bytes: &[u8], whole: bool, table: &mut [u64]) -> Result<Read, Misread> {
    if whole {
        return plan::read_plan(bytes, table);
    }
    plan::read_prefix(bytes, table)
}

// What a table's sizes come to.
pub fn of_table(table: &[u64]) -> u64 {
    match plan::sizes(table) {
        Ok(n) => fold_needs(0, n) % 4096,
        Err(why) => refused(why.number(), 0),
    }
}
