// Reads of lent memory, with no test: one for each list, since each promise names what stands past its end. A call that reads costs the proofs above less than an index among other things.
ghost use Rattle.std.specs.Prelude.{◌≡◌, ◌+◌, ◌^◌, ◌≤◌, ◌<◌, length, get_or};
ghost use Rattle.std.specs.Float.{nan};
ghost use Rattle.lent.specs.Tree.{axes_place};

use lent::AxesAt;

// The double at i.
pub fn real_at(reals: &[f64], i: usize) -> f64
    requires { i < length reals.now }
    ensures { result ≡ get_or reals.now i nan }
{
    reals[i]
}

// The number at i.
pub fn count_at(counts: &[u64], i: usize) -> u64
    requires { i < length counts.now }
    ensures { result ≡ get_or counts.now i 0 }
{
    counts[i]
}

// Where the axes of the axes grid at word w stand, whose run is known to lie in the table; the tests of lent's `axes_place` are spared. What
// lent hands on asks nothing, so that its own `place_there` stays inside it.
pub fn place_at(table: &[u64], w: usize) -> AxesAt
    requires { (w + 11 ≤ length table.now) × (get_or table.now (w + 9) 0 ≤ 2 ^ 63) × (get_or table.now (w + 10) 0 ≤ 2 ^ 63) }
    ensures { result ≡ axes_place table.now w }
{
    AxesAt {
        axes: count_at(table, w + 2) as usize,
        most: count_at(table, w + 7) as usize,
        floor: answers::double(count_at(table, w + 6)),
        reals: count_at(table, w + 9) as usize + 14,
        counts: count_at(table, w + 10) as usize + 7,
    }
}
