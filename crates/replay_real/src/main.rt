// Replays a list of the kernels' answers. A line of standard input is an opcode and three words of 16
// hexadecimal digits: x, a (or zeros) and the answer. The program writes each line that it does not agree
// with, and at the end how many lines of each kind it compared and how many differ. The list is that of list.py beside it.
#![tactic(auto)]

mod call;

use answers::{bits, double, word};
use call::Call;
use input::read_full;
use std::io;

#[derive(Clone, Copy, Default)]
struct Tally {
    root: u64,
    ln: u64,
    power: u64,
    library: u64,
    plain: u64,
    differ: u64,
}

// Whether r has the bits `want`, those of the one NaN for any NaN.
fn same(r: f64, want: u64) -> bool {
    bits(r) == want
}

// Whether r is within relative 1e-12 of a library's value.
fn near(r: f64, v: f64) -> bool {
    real::norm(r - v) <= 0.000000000001 * real::norm(v)
}

// Whether a call gives what the list wants.
fn agrees(call: Call, x: u64, a: u64, want: u64) -> bool {
    match call {
        Call::Sqrt => same(real::sqrt(double(x)), want),
        Call::Ln => same(real::ln(double(x)), want),
        Call::Power => same(real::power(double(x), double(a)), want),
        Call::LibraryLn => near(real::ln(double(x)), double(want)),
        Call::LibraryPower => near(real::power(double(x), double(a)), double(want)),
        Call::Norm => same(real::norm(double(x)), want),
        Call::Inv => same(real::inv(double(x)), want),
        Call::Count => same(real::count(x), want),
        Call::Whole => real::whole(double(x)) == want,
        Call::Finite => u64::from(real::finite(double(x))) == want,
    }
}

// The tally with one line more of its kind.
fn counted(t: Tally, call: Option<Call>) -> Tally {
    let mut r = t;
    match call {
        Some(Call::Sqrt) => r.root = t.root.wrapping_add(1),
        Some(Call::Ln) => r.ln = t.ln.wrapping_add(1),
        Some(Call::Power) => r.power = t.power.wrapping_add(1),
        Some(Call::LibraryLn | Call::LibraryPower) => r.library = t.library.wrapping_add(1),
        _ => r.plain = t.plain.wrapping_add(1),
    }
    r
}

// The tally after a line, which is shown where it differs. A line of no call differs.
fn judged(rt: &HostRuntime, t: Tally, line: &[u8; 53]) -> io::Result<Tally> {
    let call = Call::try_from(line[0]).ok();
    let words = &line[2..];
    let mut r = counted(t, call);
    if !call.is_some_and(|call| agrees(call, word(words, 0), word(words, 1), word(words, 2))) {
        rt.write_all(line)?;
        r.differ = t.differ.wrapping_add(1);
    }
    Ok(r)
}

// A label and a number on a line.
fn show(rt: &HostRuntime, label: &str, n: u64) -> io::Result<()> {
    println!(rt; "{label}{n}")
}

// The tally after one line more, and none at the end of the input.
fn turned(rt: &HostRuntime, t: Tally) -> io::Result<Option<Tally>> {
    let mut line = [0u8; 53];
    if read_full(&mut rt.stdin(), &mut line)? < 53 {
        return Ok(None);
    }
    let r = judged(rt, t, &line)?;
    Ok(Some(r))
}

// A proved loop has to end, and nothing says that the input does: so it counts its turns down.
fn replayed(rt: &HostRuntime) -> io::Result<Tally> {
    let mut t = Tally::default();
    for _ in 0..1000000u64 {
        match turned(rt, t)? {
            Some(next) => t = next,
            None => return Ok(t),
        }
    }
    Ok(t)
}

fn main(rt: HostRuntime) -> io::Result<()> {
    let t = replayed(&rt)?;
    show(&rt, "roots ", t.root)?;
    show(&rt, "logarithms ", t.ln)?;
    show(&rt, "powers ", t.power)?;
    show(&rt, "within 1e-12 of a library ", t.library)?;
    show(&rt, "finite, norm, inv, whole, count ", t.plain)?;
    show(&rt, "differ ", t.differ)
}
