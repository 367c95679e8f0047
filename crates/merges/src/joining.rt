// Columns of one memory that take the other's, entry by entry.
ghost use Rattle.std.specs.Prelude.{◌≡◌, ◌+◌, ◌≤◌, length};
ghost use Rattle.std.specs.Float.{binary64};
ghost use Rattle.std.specs.Float.Ieee.{add};
ghost use Rattle.lent.specs.Merged.{lower_of, join_at};

// Both together.
pub fn sum(a: f64, b: f64) -> f64
    ensures { result ≡ add binary64 a b }
{
    a + b
}

// The second where it is below the first, else the first.
pub fn lower(a: f64, b: f64) -> f64
    ensures { result ≡ lower_of a b }
{
    if b < a {
        return b;
    }
    a
}

// The n entries from a place on, each made what f answers of it and the other's. `recut::each::pair` on the two parts would do the same; it
// stays `recut`'s own: it asks that f always answers, and the calls of `recut` ask nothing.
pub fn join<T: Copy, F: Fn(T, T) -> T>(
    entries: &mut [T],
    start: usize,
    theirs: &[T],
    from: usize,
    n: usize,
    f: F,
)
    requires { (start + n ≤ length entries.old) × (from + n ≤ length theirs.now) × F.IsAlwaysCallable f }
    ensures { (g : T → T → T) → ((x y z : T) → F.post f x y z → z ≡ g x y) → entries.new ≡ join_at g start from n theirs.now entries.old }
{
    let others = &theirs[from..from + n];
    for (i, entry) in entries[start..start + n].iter_mut().enumerate() {
        *entry = f(*entry, others[i]);
    }
}
