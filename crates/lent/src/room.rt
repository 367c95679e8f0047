// Whether lent memory has room for axes: tests in which nothing overflows, whatever the numbers.
ghost use Rattle.std.specs.Prelude.{◌≡◌, ◌+◌, leb};
ghost use Rattle.lent.specs.Layout.{roomy_axes};
ghost use Rattle.lent.specs.Laid.{roomy};

// Whether so many entries from a place on lie in a slice of this length.
fn is_within(all: usize, start: usize, size: usize) -> bool
    ensures { result ≡ leb (start + size) all }
{
    if all < size {
        return false;
    }
    start <= all - size
}

// Whether so many reals and counts have room for the axes from r and c on.
pub fn has_axes(reals: usize, counts: usize, most: usize, axes: usize, r: usize, c: usize) -> bool
    ensures { result ≡ roomy_axes most axes r c reals counts }
{
    if 1024 < most {
        return false;
    }
    if 8 < axes {
        return false;
    }
    let all = is_within(reals, r, axes * (6 * most + 1));
    let whole = is_within(counts, c, axes * (3 * most + 2));
    all & whole
}

// Whether they have room for one axis, and n is a number of bins that it may have.
pub fn is_roomy(reals: usize, counts: usize, most: usize, r: usize, c: usize, n: usize) -> bool
    ensures { result ≡ roomy most n r c reals counts }
{
    let room = has_axes(reals, counts, most, 1, r, c);
    (n <= most) & room
}
