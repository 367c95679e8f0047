// The fields of a plan, each judged where it stands.
ghost use Rattle.std.specs.Prelude.{ℕ, ◌≡◌, ◌+◌, ◌*◌, ◌≤◌, ◌<◌, length};
ghost use Rattle.plan.specs.Numbers.{run_of, values_at};
ghost use Rattle.doubles.specs.Refusal.{fault_of};
ghost use Rattle.plan.specs.Ranges.{within, most_if_bounded};
ghost use Rattle.plan.specs.Judged.{judged};
ghost use Rattle.plan.specs.Needs.{axes_taken, bins_taken};
ghost use Rattle.plan.specs.Fields.{formed, values_in, evolution_fault, span_of, axes_at, bins_at, axes_fault, bins_fault, axes_field, bins_field, nothing_field, field_of};
ghost use Rattle.plan.specs.Bounds.{Inside, AxesFit, BinsFit};

use crate::bits::{floor_fits, ratio_fits};
use crate::bytes::{byte_at, eight_at, four_at, pair_at};
use crate::{AxesPlan, BinPlan, BinsPlan, Child, Misread, Place, Tally};
use doubles::Refusal;

// Whether n lies from lo to hi.
#[tactic(auto, using(std::proofs::lemmas::Bool::Decides::nat_tests), unfolding(crate::specs::Ranges::within))]
pub fn is_within(lo: usize, hi: usize, n: usize) -> bool
    ensures { result ≡ within lo hi n }
{
    (lo..=hi).contains(&n)
}

// Whether the field has this length and all its bytes are there.
#[tactic(auto, using(std::proofs::lemmas::Bool::Decides::nat_tests), unfolding(crate::specs::Fields::formed))]
fn is_formed(bytes: &[u8], at: usize, n: usize) -> bool
    requires { (at ≤ length bytes.now) × (n < 65536) }
    ensures { result ≡ formed bytes.now at n }
{
    pair_at(bytes, at + 1) == n && at + 3 + n <= bytes.len()
}

// The largest of `least` and so many values; nothing where one is out of bounds.
pub fn most_of<F: Fn(usize) -> usize>(least: usize, values: usize, value: F) -> Option<usize>
    requires { (i : ℕ) → i < values → F.pre value i }
    ensures { (g : ℕ → ℕ) (apart at : ℕ) → ((i x : ℕ) → i < values → F.post value i x → x ≡ g (at + apart * i)) → result ≡ most_if_bounded least (run_of g apart at values) }
{
    let mut most = least;
    for i in 0..values {
        let v = value(i);
        if !is_within(1, 1024, v) {
            return None;
        }
        most = most.max(v);
    }
    Some(most)
}

// The largest of `least` and the values from a place on; nothing where one is out of bounds.
fn most_in(bytes: &[u8], at: usize, values: usize, least: usize) -> Option<usize>
    requires { at + 2 * values ≤ length bytes.now + 131072 }
    ensures { result ≡ most_if_bounded least (values_at bytes.now at values) }
{
    most_of(least, values, |i| pair_at(bytes, at + 2 * i))
}

// How many values the 02 at a place has; none where no 02 stands there.
#[tactic(auto, using(std::proofs::lemmas::Bool::Decides::nat_tests), unfolding(crate::specs::Fields::values_in))]
fn values_in(bytes: &[u8], at: usize) -> usize
    requires { at ≤ length bytes.now + 64 }
    ensures { (result ≡ values_in bytes.now at) × (result < 32768) }
{
    if byte_at(bytes, at) == 2 {
        pair_at(bytes, at + 1) / 2
    } else {
        0
    }
}

// What stands against the evolution field at a place: 1 where it is cut or its length is odd, 2 for the number of its values or a value out of
// its range; else nothing, also where no such field follows.
#[tactic(auto, using(std::proofs::lemmas::Bool::Decides::nat_tests), unfolding(crate::specs::Fields::evolution_fault))]
fn evolution_fault(bytes: &[u8], at: usize) -> Result<(), Refusal>
    requires { at ≤ length bytes.now }
    ensures { fault_of result ≡ evolution_fault bytes.now at }
{
    if byte_at(bytes, at) != 2 {
        return Ok(());
    }
    let len = pair_at(bytes, at + 1);
    if bytes.len() < at + 3 + len || len % 2 != 0 {
        return Err(Refusal::Malformed);
    }
    let values = values_in(bytes, at);
    if !is_within(1, 16, values) || most_in(bytes, at + 3, values, 1).is_none() {
        return Err(Refusal::Size);
    }
    Ok(())
}

// The bytes that an axes grid takes, its 02 with it.
#[tactic(auto, using(std::proofs::lemmas::Bool::Decides::nat_tests), unfolding(crate::specs::Fields::span_of))]
fn span(values: usize) -> usize
    requires { values < 32768 }
    ensures { result ≡ span_of values }
{
    if values == 0 { 19 } else { 22 + 2 * values }
}

// The numbers of a 01 with its 02, whatever they are.
fn axes_at(bytes: &[u8], at: usize) -> AxesPlan
    requires { at ≤ length bytes.now }
    ensures { (result ≡ axes_at bytes.now at) × (result.values < 32768) }
{
    let bins = pair_at(bytes, at + 4);
    let values = values_in(bytes, at + 19);
    AxesPlan {
        axes: byte_at(bytes, at + 3),
        bins,
        least: four_at(bytes, at + 6),
        flag: byte_at(bytes, at + 10),
        floor: eight_at(bytes, at + 11),
        most: most_in(bytes, at + 22, values, bins).unwrap_or(0),
        values,
    }
}

// What stands against an axes grid's values where so many grids are left: 2 for a size, 3 for a value; else nothing.
#[tactic(auto, using(std::proofs::lemmas::Bool::Decides::nat_tests), unfolding(crate::specs::Fields::axes_fault))]
pub fn axes_fault(a: AxesPlan, left: usize) -> Result<(), Refusal>
    ensures { fault_of result ≡ axes_fault a left }
{
    if left == 0 || !is_within(1, 8, a.axes) || !is_within(1, 1024, a.bins) {
        return Err(Refusal::Size);
    }
    if 1 < a.flag || !floor_fits(a.floor) {
        return Err(Refusal::Range);
    }
    Ok(())
}

// What is taken past an axes grid.
#[tactic(auto, unfolding(crate::specs::Needs::axes_taken, crate::specs::Needs::axes_reals, crate::specs::Needs::axes_counts))]
pub fn take_axes(a: AxesPlan, t: Tally) -> Tally
    requires { AxesFit a t }
    ensures { result ≡ axes_taken a t }
{
    Tally {
        left: t.left - 1,
        words: t.words + (11 + a.values),
        reals: t.reals + (14 + a.axes * (6 * a.most + 1)),
        counts: t.counts + (7 + a.axes * (3 * a.most + 2)),
        bins: t.bins + a.axes * a.most,
    }
}

// The field of an axes grid, its evolution with it.
fn axes_field(bytes: &[u8], p: Place) -> Result<BinPlan, Misread>
    requires { Inside bytes.now p }
    ensures { judged result ≡ axes_field bytes.now p }
{
    let at = p.at;
    let t = p.tally;
    if !is_formed(bytes, at, 16) {
        return Err(Misread {
            why: Refusal::Malformed,
            at,
        });
    }
    let a = axes_at(bytes, at);
    axes_fault(a, t.left).map_err(|why| Misread { why, at })?;
    let next = at + 19;
    evolution_fault(bytes, next).map_err(|why| Misread { why, at: next })?;
    Ok(BinPlan {
        child: Child::Axes(a),
        past: Place {
            at: at + span(a.values),
            tally: take_axes(a, t),
        },
    })
}

// The numbers of a 03, whatever they are.
#[tactic(auto, unfolding(crate::specs::Fields::bins_at))]
fn bins_at(bytes: &[u8], at: usize) -> BinsPlan
    requires { at ≤ length bytes.now }
    ensures { result ≡ bins_at bytes.now at }
{
    BinsPlan {
        bins: pair_at(bytes, at + 3),
        ratio: eight_at(bytes, at + 5),
        flag: byte_at(bytes, at + 13),
    }
}

// What stands against a bins grid's values where so many grids and levels are left: 2 for a size, 3 for a value; else nothing.
#[tactic(auto, using(std::proofs::lemmas::Bool::Decides::nat_tests), unfolding(crate::specs::Fields::bins_fault))]
pub fn bins_fault(b: BinsPlan, left: usize, level: usize) -> Result<(), Refusal>
    ensures { fault_of result ≡ bins_fault b left level }
{
    if left == 0 || level == 0 || !is_within(1, 256, b.bins) {
        return Err(Refusal::Size);
    }
    if 1 < b.flag || !ratio_fits(b.ratio) {
        return Err(Refusal::Range);
    }
    Ok(())
}

// What is taken past a bins grid's own record.
#[tactic(auto, unfolding(crate::specs::Needs::bins_taken, crate::specs::Needs::bins_reals, crate::specs::Needs::bins_counts))]
pub fn take_bins(b: BinsPlan, t: Tally) -> Tally
    requires { BinsFit b t }
    ensures { result ≡ bins_taken b t }
{
    Tally {
        left: t.left - 1,
        words: t.words + (7 + b.bins),
        reals: t.reals + (14 + 15 * b.bins),
        counts: t.counts + (7 + 7 * b.bins),
        bins: t.bins + b.bins,
    }
}

// The field of a bins grid, without what hangs at its bins.
fn bins_field(bytes: &[u8], level: usize, p: Place) -> Result<BinPlan, Misread>
    requires { Inside bytes.now p }
    ensures { judged result ≡ bins_field bytes.now level p }
{
    let at = p.at;
    let t = p.tally;
    if !is_formed(bytes, at, 11) {
        return Err(Misread {
            why: Refusal::Malformed,
            at,
        });
    }
    let b = bins_at(bytes, at);
    bins_fault(b, t.left, level).map_err(|why| Misread { why, at })?;
    Ok(BinPlan {
        child: Child::Bins(b),
        past: Place {
            at: at + 14,
            tally: take_bins(b, t),
        },
    })
}

// The field that says that nothing hangs at a bin.
#[tactic(auto, using(std::proofs::lemmas::Bool::Decides::nat_tests), unfolding(crate::specs::Fields::nothing_field))]
fn nothing_field(bytes: &[u8], p: Place) -> Result<BinPlan, Misread>
    requires { Inside bytes.now p }
    ensures { judged result ≡ nothing_field bytes.now p }
{
    let at = p.at;
    if !is_formed(bytes, at, 0) {
        return Err(Misread {
            why: Refusal::Malformed,
            at,
        });
    }
    Ok(BinPlan {
        child: Child::Nothing,
        past: Place {
            at: at + 3,
            tally: p.tally,
        },
    })
}

// The field at a place, judged, with so many levels of bins grids left. A field's tag is a byte of the format, here and in `feed`, and is read
// once: what it says comes out as a `Child`.
#[tactic(auto, using(std::proofs::lemmas::Bool::Decides::nat_tests), unfolding(crate::specs::Fields::field_of))]
pub fn field_at(bytes: &[u8], level: usize, p: Place) -> Result<BinPlan, Misread>
    requires { Inside bytes.now p }
    ensures { judged result ≡ field_of bytes.now level p }
{
    match byte_at(bytes, p.at) {
        1 => axes_field(bytes, p),
        3 => bins_field(bytes, level, p),
        4 => nothing_field(bytes, p),
        _ => Err(Misread {
            why: Refusal::Malformed,
            at: p.at,
        }),
    }
}
