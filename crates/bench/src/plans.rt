// The plans of the grids that are timed, laid in lent memory.
use crate::grids::{Counts, Reals, Table};
use plan::{Misread, Read};

// The bytes of a bins grid of 16 bins, its ratio 10, and at each bin an axes grid of 2 axes of 32 bins.
fn byte_of_tree(i: usize) -> u8 {
    let head = [3u8, 11, 0, 16, 0, 0, 0, 0, 0, 0, 0, 36, 64, 0];
    let child = [1u8, 16, 0, 2, 32, 0, 0, 0, 0, 0, 0, 0, 0, 0, 0, 0, 0, 0, 0];
    if i < 14 {
        return head[i];
    }
    child[(i - 14) % 19]
}

// These bytes written.
fn write_tree(bytes: &mut [u8]) {
    for (i, byte) in bytes.iter_mut().enumerate() {
        *byte = byte_of_tree(i);
    }
}

// The grids that are timed: 5 axes of 64 bins, or that bins grid.
#[derive(Clone, Copy, Debug, PartialEq, Eq)]
pub enum Plan {
    Axes,
    Tree,
}

// A grid laid.
pub fn lay(
    plan: Plan,
    table: &mut Table,
    reals: &mut Reals,
    counts: &mut Counts,
) -> Result<Read, Misread> {
    match plan {
        Plan::Axes => {
            let bytes = [1u8, 16, 0, 5, 64, 0, 0, 0, 0, 0, 0, 0, 0, 0, 0, 0, 0, 0, 0];
            quiet::fresh(&bytes, table, reals, counts)
        }
        Plan::Tree => {
            let mut bytes = [0u8; 318];
            write_tree(&mut bytes);
            quiet::fresh(&bytes, table, reals, counts)
        }
    }
}
