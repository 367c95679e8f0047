// The integration program: a plan, a stream, then samples and updates from standard input; a line for each update, or the first refusal.
//
// The work is `feed::turn`; this program reads, writes, and keeps the bytes that a turn has not taken.
#![tactic(auto)]

mod lines;

ghost use Rattle.std.specs.Prelude.{◌≡◌, true, false, ◌&&◌, ◌+◌, ◌-◌, ◌≤◌, ◌<◌, eqb, length, take, drop};
ghost use Rattle.lent.specs.Memory.{memory};
ghost use Rattle.feed.specs.Said.{is_over_of};
ghost use Rattle.integrate.specs.Pouring.{place, goes_on, Turns, Stepped, TakenIn};

use accumulator::Summary;
use feed::{Refused, Run, Turned, beginning, is_over, turn};
use std::io::Read;

// A table of 16,832 words holds any plan; 128 bins in 64 grids need at most 2,816 reals and 1,344 counts (`rooms-hold` in feed's
// proofs/Rooms.antt). The rooms are lent as references to arrays, so that no proof has to follow their lengths, and one by one, as `turn` is
// lent them.
type Table = [u64; 16832];

type Reals = [f64; 2816];

type Counts = [u64; 1344];

// A run after turns on some bytes: how many they took, whether what they told could be written, and whether another turn follows. The run
// counts in either case, so that neither flag is an Option's.
#[derive(Clone, Copy)]
struct Poured {
    run: Run,
    taken: usize,
    written: bool,
    goes: bool,
}

// A run after a read: how many bytes at the front of the text are still to be taken, and whether there is more to read; in either case the run
// counts.
#[derive(Clone, Copy)]
struct Fed {
    run: Run,
    held: usize,
    goes: bool,
}

// The bytes from a place up to another, moved to the front; and how many they are.
fn keep(text: &mut [u8], from: usize, to: usize) -> usize
    requires { (from ≤ to) × (to ≤ length text.old) }
    ensures { (result ≡ to - from) × (take result text.new ≡ take result (drop from text.old)) }
{
    text.copy_within(from..to, 0);
    to - from
}

// Writes what a turn tells; and whether that could be written.
fn tell(rt: &HostRuntime, told: Result<Option<Summary>, Refused>) -> bool {
    let mut out = [0u8; 128];
    let put = lines::put_told(told, &mut out);
    rt.write_all(&out[..put]).is_ok()
}

// Whether another turn follows on the bytes that are left: one that took nothing waits for more of them.
#[tactic(auto, using(std::proofs::lemmas::Bool::Decides::nat_tests), unfolding(crate::specs::Pouring::goes_on))]
fn goes_on(turned: Turned, written: bool) -> bool
    ensures { result ≡ goes_on turned.taken turned.run && written }
{
    turned.taken != 0 && !is_over(turned.run) && written
}

// One turn on the bytes from a place on, and its line.
fn step(
    rt: &HostRuntime,
    run: Run,
    bytes: &[u8],
    from: usize,
    last: bool,
    table: &mut Table,
    reals: &mut Reals,
    counts: &mut Counts,
    spare_reals: &mut Reals,
    spare_counts: &mut Counts,
) -> Poured
    requires { from ≤ length bytes.now }
    ensures { Stepped bytes.now last 2816 1344
        (place run from table.old (memory reals.old counts.old))
        (place result.run result.taken table.new (memory reals.new counts.new)) result.written result.goes }
{
    let turned = turn(
        run,
        &bytes[from..],
        last,
        table,
        reals,
        counts,
        spare_reals,
        spare_counts,
    );
    let written = tell(rt, turned.told);
    let goes = goes_on(turned, written);
    Poured {
        run: turned.run,
        taken: from + turned.taken,
        written,
        goes,
    }
}

// Turn by turn, as far as these bytes go: a `loop`, since a turn says whether another follows.
fn pour(
    rt: &HostRuntime,
    run: Run,
    bytes: &[u8],
    last: bool,
    table: &mut Table,
    reals: &mut Reals,
    counts: &mut Counts,
) -> Poured
    ensures taken_in_bounds { result.taken ≤ length bytes.now }
    ensures turns { result.written ≡ true → Turns bytes.now last 2816 1344
        (place run 0 table.old (memory reals.old counts.old))
        (place result.run result.taken table.new (memory reals.new counts.new)) }
    ensures bytes_len_bound { result.written ≡ true → is_over_of result.run ≡ false → length bytes.now < result.taken + 131072 }
{
    let mut spare_reals = [0.0f64; 2816];
    let mut spare_counts = [0u64; 1344];
    let mut now = run;
    let mut taken = 0;
    loop {
        let poured = step(
            rt,
            now,
            bytes,
            taken,
            last,
            table,
            reals,
            counts,
            &mut spare_reals,
            &mut spare_counts,
        );
        if !poured.goes {
            return poured;
        }
        now = poured.run;
        taken = poured.taken;
    }
}

// The turns on the first `full` bytes of the text, of which `held` were there before; what they leave is kept. Where the run goes on these
// are fewer than 131,072.
fn take_in(
    rt: &HostRuntime,
    run: Run,
    text: &mut [u8],
    held: usize,
    full: usize,
    table: &mut Table,
    reals: &mut Reals,
    counts: &mut Counts,
) -> Fed
    requires { full ≤ length text.old }
    ensures taken_in { TakenIn text.old full (eqb full held) 2816 1344
        run table.old (memory reals.old counts.old)
        text.new result.held result.goes result.run table.new (memory reals.new counts.new) }
    ensures held_bound { result.goes ≡ true → result.held < 131072 }
{
    let poured = pour(rt, run, &text[..full], full == held, table, reals, counts);
    let rest = keep(text, poured.taken, full);
    Fed {
        run: poured.run,
        held: rest,
        goes: poured.written & (held < full) & !is_over(poured.run),
    }
}

// One read behind the bytes that are held, and the turns on all of them. There is room for it: a read into nothing would look like the
// input's end. A read that fails ends it.
fn feed_once(
    rt: &HostRuntime,
    run: Run,
    text: &mut [u8],
    held: usize,
    table: &mut Table,
    reals: &mut Reals,
    counts: &mut Counts,
) -> Fed
    requires { held < length text.old }
    ensures { result.goes ≡ true → result.held < 131072 }
{
    match rt.stdin().read(&mut text[held..]) {
        Ok(got) => take_in(rt, run, text, held, held + got, table, reals, counts),
        Err(_) => Fed {
            run,
            held,
            goes: false,
        },
    }
}

// Read by read, to the input's end, a refusal, or a read or a write that fails. The reads are as many as no run
// uses up, since a proved loop has to end and nothing says that an input does.
fn integrate(rt: &HostRuntime, text: &mut [u8])
    requires { 131072 ≤ length text.old }
{
    let mut table = [0u64; 16832];
    let mut reals = [0.0f64; 2816];
    let mut counts = [0u64; 1344];
    let mut run = beginning();
    let mut held = 0;
    for _ in 0..u64::MAX {
        let fed = feed_once(rt, run, text, held, &mut table, &mut reals, &mut counts);
        if !fed.goes {
            return;
        }
        run = fed.run;
        held = fed.held;
    }
}

// The text comes as a reference to an array, so that the proof sees its length and not its zeros.
fn run(rt: &HostRuntime, text: &mut [u8; 131072]) {
    integrate(rt, text);
}

// 131,072 bytes decide any plan, so that a text full of them is never waited on.
fn main(rt: HostRuntime) {
    let mut text = [0u8; 131072];
    run(&rt, &mut text);
}
