// Lent memory: a plan's table and two states of its grid, the calls on them, and a mark of all that a plan needs.
use answers::bits;
use grid::{Needs, Refusal, Sample};
use stream::MonteCarloRng;

// A grid's state.
#[derive(Drop)]
pub struct Memory {
    pub reals: [f64; 16384],
    pub counts: [u64; 8192],
}

// A plan's table, two states of its grid, and the stream of its draws. Calls are made on the first state.
#[derive(Drop)]
pub struct Rooms {
    pub table: [u64; 8192],
    pub own: Memory,
    pub other: Memory,
    pub stream: MonteCarloRng,
}

// An entry set; none where there is no such place.
pub fn set<T: Copy>(entries: &mut [T], place: usize, x: T) {
    if place < entries.len() {
        entries[place] = x;
    }
}

impl Rooms {
    // A sample drawn from the stream.
    pub fn draw(&mut self) -> Result<Sample, Refusal> {
        let drawing = grid::draw(&self.table, &self.own.reals, &self.own.counts, self.stream)?;
        self.stream = drawing.stream;
        Ok(drawing.sample)
    }

    // A sample's evaluation, with its number.
    pub fn train(&mut self, sample: Sample, evaluation: f64, number: u64) -> Result<(), Refusal> {
        grid::train(
            &self.table,
            &mut self.own.reals,
            &mut self.own.counts,
            sample,
            evaluation,
            number,
        )
    }

    // An update, on a spare that holds other numbers.
    pub fn update(&mut self, bins_rate: f64, axes_rate: f64) -> Result<(), Refusal> {
        let mut spare_reals = [1.0f64; 16384];
        let mut spare_counts = [1u64; 8192];
        grid::update(
            &self.table,
            &mut self.own.reals,
            &mut self.own.counts,
            &mut spare_reals,
            &mut spare_counts,
            bins_rate,
            axes_rate,
        )
    }

    // A copy of the first state in the other.
    pub fn copy(&mut self) -> Result<(), Refusal> {
        grid::clone_without_samples(
            &self.table,
            &self.own.reals,
            &self.own.counts,
            &mut self.other.reals,
            &mut self.other.counts,
        )
    }

    // A copy of the other state in the first.
    pub fn copy_back(&mut self) -> Result<(), Refusal> {
        grid::clone_without_samples(
            &self.table,
            &self.other.reals,
            &self.other.counts,
            &mut self.own.reals,
            &mut self.own.counts,
        )
    }

    // Whether the other state merges into the first; the plan's table serves both.
    pub fn is_mergeable(&self) -> Result<(), Refusal> {
        grid::is_mergeable(
            &self.table,
            &self.own.reals,
            &self.own.counts,
            &self.table,
            &self.other.reals,
            &self.other.counts,
        )
    }

    // The other state merged into the first.
    pub fn merge(&mut self) -> Result<(), Refusal> {
        grid::merge(
            &self.table,
            &mut self.own.reals,
            &mut self.own.counts,
            &self.table,
            &self.other.reals,
            &self.other.counts,
        )
    }
}

impl Memory {
    // Zeros.
    pub fn new() -> Memory {
        Memory {
            reals: [0.0; 16384],
            counts: [0; 8192],
        }
    }

    // The mark of all that the table's plan needs, what is room now among it; 0 where there is not so much.
    pub fn mark(&self, table: &[u64; 8192]) -> u64 {
        match plan::sizes(table) {
            Ok(needs) => self.mark_front(needs),
            Err(_) => 0,
        }
    }

    // The mark of what is needed.
    fn mark_front(&self, needs: Needs) -> u64 {
        if self.reals.len() < needs.reals || self.counts.len() < needs.counts {
            return 0;
        }
        let mut mark = 0xcbf2_9ce4_8422_2325;
        for x in &self.reals[..needs.reals] {
            mark = mixed(mark, bits(*x));
        }
        for count in &self.counts[..needs.counts] {
            mark = mixed(mark, *count);
        }
        mark
    }
}

// A word joined to the mark; sums and halves shifted then spread it over all bits.
fn mixed(mark: u64, word: u64) -> u64 {
    let joined = mark ^ word;
    let up = joined.wrapping_add(joined << 21);
    let down = up ^ (up >> 24);
    let again = down.wrapping_add(down << 8);
    again ^ (again >> 14)
}
