// A bin of a bins grid in lent memory.
ghost use Rattle.std.specs.Prelude.{◌≡◌};
ghost use Rattle.merges.specs.Bins.{bin_place, Placed};

// Where a bin's probability stands, and where its accumulator's reals and counts begin. It asks that there is such a bin, and so is no call of
// `lent`.
#[derive(Clone, Copy)]
pub struct BinAt {
    pub chance: usize,
    pub reals: usize,
    pub counts: usize,
}

// The place of bin i of the bins grid at word w.
pub fn bin_place(table: &[u64], w: usize, i: usize) -> BinAt
    requires { Placed table.now w i }
    ensures { result ≡ bin_place table.now w i }
{
    let chances = table[w + 5] as usize + 14;
    BinAt {
        chance: chances + i,
        reals: chances + table[w + 2] as usize + 14 * i,
        counts: table[w + 6] as usize + 7 + 7 * i,
    }
}
