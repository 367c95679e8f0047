// Plan bytes to the plan's table, and what a plan needs of each lent slice.
//
// A plan is judged and measured first, field by field; only then is its table written, over the same bytes. A table is
// known again by walking it in the same way. Each call's promise is an equation with its definition in specs/Calls.antt.
#![tactic(auto)]

mod bits;
mod bytes;
mod fields;
mod measuring;
mod walking;
mod writing;

ghost use Rattle.std.specs.Prelude.{IfErr, ◌≡◌};
ghost use Rattle.plan.specs.Reading.{step_of};
ghost use Rattle.plan.specs.Judged.{Found, judged};
ghost use Rattle.plan.specs.Paper.{paper_read, paper_sized};
ghost use Rattle.plan.specs.Needs.{needs_of};
ghost use Rattle.plan.specs.Calls.{begin, end, grid_of, measure_of, measure_prefix_of, read_plan_of, read_prefix_of, sizes_of, whole};

use bytes::byte_at;
use doubles::Refusal;
use measuring::measure;
use walking::known;
use writing::write;

// An axes grid's plan: the numbers of its 01; the largest of its bin numbers, and how many values its bin evolution has.
// The values stay in the bytes, and then in the table. The flag is the byte, which is judged (3) with the rest, and so no `bool` yet.
#[derive(Clone, Copy)]
pub struct AxesPlan {
    pub axes: usize,
    pub bins: usize,
    pub least: usize,
    pub flag: usize,
    pub floor: u64,
    pub most: usize,
    pub values: usize,
}

// A bins grid's plan: the numbers of its 03, the flag a byte as in an axes grid's.
#[derive(Clone, Copy)]
pub struct BinsPlan {
    pub bins: usize,
    pub ratio: u64,
    pub flag: usize,
}

// What hangs at a bin.
#[derive(Clone, Copy)]
pub enum Child {
    Nothing,
    Axes(AxesPlan),
    Bins(BinsPlan),
}

// The grids that may still come, and what those before take: words of the table, reals, counts, and bins in all.
#[derive(Clone, Copy)]
pub struct Tally {
    pub left: usize,
    pub words: usize,
    pub reals: usize,
    pub counts: usize,
    pub bins: usize,
}

// Where reading stands: the byte, and what is taken by then. That it lies inside the bytes, or has room in a table, is a fact of it and what is
// read together, and so a clause and no invariant.
#[derive(Clone, Copy)]
pub struct Place {
    pub at: usize,
    pub tally: Tally,
}

// A bin's plan: what hangs there, and the place past its field.
#[derive(Clone, Copy)]
pub struct BinPlan {
    pub child: Child,
    pub past: Place,
}

// What a plan needs: words of its table, reals and counts, each axis at its largest bin number; and its bins in all.
#[derive(Clone, Copy, Debug, PartialEq, Eq)]
pub struct Needs {
    pub words: usize,
    pub reals: usize,
    pub counts: usize,
    pub bins: usize,
}

// A plan that was read: how many bytes it takes and what it needs.
#[derive(Clone, Copy, Debug, PartialEq, Eq)]
pub struct Read {
    pub end: usize,
    pub needs: Needs,
}

// Why bytes are no plan, and the offset of the field where that shows.
#[derive(Clone, Copy, Debug, PartialEq, Eq)]
pub struct Misread {
    pub why: Refusal,
    pub at: usize,
}

// Nothing taken, 64 grids to come.
fn start() -> Place
    ensures { result ≡ begin }
{
    Place {
        at: 0,
        tally: Tally {
            left: 64,
            words: 0,
            reals: 0,
            counts: 0,
            bins: 0,
        },
    }
}

// What a plan needs, from the tally at its end.
#[tactic(auto, unfolding(crate::specs::Needs::needs_of))]
fn needs_of(t: Tally) -> Needs
    ensures { result ≡ needs_of t }
{
    Needs {
        words: t.words,
        reals: t.reals,
        counts: t.counts,
        bins: t.bins,
    }
}

// What was read up to a place.
fn read_to(past: Place) -> Read
    ensures { (result.end ≡ past.at) × (result.needs ≡ needs_of past.tally) }
{
    Read {
        end: past.at,
        needs: needs_of(past.tally),
    }
}

// Judges the grid that the bytes begin with.
fn judge(bytes: &[u8]) -> Result<Place, Misread>
    ensures { judged result ≡ step_of (grid_of bytes.now) }
{
    if byte_at(bytes, 0) == 4 {
        return Err(Misread {
            why: Refusal::Malformed,
            at: 0,
        });
    }
    measure(4, start(), bytes)
}

// The same of all the bytes: behind the grid there is none.
fn judge_whole(bytes: &[u8]) -> Result<Place, Misread>
    ensures { judged result ≡ whole bytes.now (step_of (grid_of bytes.now)) }
{
    let past = judge(bytes)?;
    if past.at < bytes.len() {
        return Err(Misread {
            why: Refusal::Malformed,
            at: past.at,
        });
    }
    Ok(past)
}

// Writes the table of a judged grid, where there is room for it.
fn put(bytes: &[u8], past: Place, table: &mut [u64]) -> Result<Read, Misread>
    requires { Found past ≡ step_of (grid_of bytes.now) }
    ensures { end (paper_read result) table.new ≡ read_prefix_of bytes.now table.old }
{
    if table.len() < past.tally.words {
        return Err(Misread {
            why: Refusal::Room,
            at: 0,
        });
    }
    write(4, start(), bytes, table);
    Ok(read_to(past))
}

// Judges a whole plan and measures it: how many bytes it takes and what it needs.
pub fn measure_plan(bytes: &[u8]) -> Result<Read, Misread>
    ensures { paper_read result ≡ measure_of bytes.now }
{
    Ok(read_to(judge_whole(bytes)?))
}

// Judges the shortest prefix that is a plan and measures it; what follows is not looked at, and nothing is written.
pub fn measure_prefix(bytes: &[u8]) -> Result<Read, Misread>
    ensures { paper_read result ≡ measure_prefix_of bytes.now }
{
    Ok(read_to(judge(bytes)?))
}

// Reads a whole plan and writes its table. Nothing is written where it is refused.
pub fn read_plan(bytes: &[u8], table: &mut [u64]) -> Result<Read, Misread>
    ensures { end (paper_read result) table.new ≡ read_plan_of bytes.now table.old }
{
    put(bytes, judge_whole(bytes)?, table)
}

// Reads the shortest prefix that is a plan, and writes its table; what follows is not looked at.
pub fn read_prefix(bytes: &[u8], table: &mut [u64]) -> Result<Read, Misread>
    ensures { end (paper_read result) table.new ≡ read_prefix_of bytes.now table.old }
{
    put(bytes, judge(bytes)?, table)
}

// What the plan of a table needs; 12 where the table is not what reading some plan writes.
pub fn sizes(table: &[u64]) -> Result<Needs, Refusal>
    ensures sized { paper_sized result ≡ sizes_of table.now }
    ensures refused { IfErr result (λ why. why ≡ Refusal.State) }
{
    let past = known(4, start(), table).ok_or(Refusal::State)?;
    if table.len() < past.tally.words {
        return Err(Refusal::State);
    }
    Ok(needs_of(past.tally))
}
