// Parts of lent memory cleared.
ghost use Rattle.std.specs.Prelude.{◌≡◌, ◌+◌, ◌≤◌, length, replicate};
ghost use Rattle.lent.specs.Memory.{put};

// The n entries from a place on become the value. `fill` clones, and nothing says of each type that can be copied what its clone is.
pub fn clear<T: Copy>(entries: &mut [T], start: usize, n: usize, value: T)
    requires { start + n ≤ length entries.old }
    ensures { entries.new ≡ put start n (replicate n value) entries.old }
{
    for entry in entries[start..start + n].iter_mut() {
        *entry = value;
    }
}
