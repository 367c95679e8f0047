// Draws and trainings on a grid in lent memory, from new(0, 0).
use crate::plans::Plan;
use crate::{plans, records};
use accumulator::Estimate;
use answers::bits;
use doubles::Refusal;
use stream::MonteCarloRng;

pub type Table = [u64; 8192];

pub type Reals = [f64; 16384];

pub type Counts = [u64; 8192];

type Room = [f64; 100000];

// The evaluations of a batch.
fn evaluate(evaluations: &mut Room) {
    for (i, evaluation) in evaluations.iter_mut().enumerate() {
        *evaluation = records::evaluation(i as u64);
    }
}

// An estimate's word.
fn word(e: Estimate) -> u64 {
    bits(e.avg) ^ bits(e.err) ^ bits(e.chi_sq)
}

// Batches of draws and trainings: the word of the live estimate and of the stream after them.
fn batches(
    table: &Table,
    reals: &mut Reals,
    counts: &mut Counts,
    evaluations: &Room,
    count: u64,
) -> Result<u64, Refusal> {
    let mut stream = MonteCarloRng::seed_from_u64(0);
    for _ in 0..count {
        let batch = samples::draw_and_train(table, reals, counts, stream, evaluations, 1);
        batch.end?;
        stream = batch.stream;
    }
    Ok(word(quiet::live_estimate(table, reals, counts)?) ^ stream.s0)
}

// So many samples, in whole batches of 100,000.
fn train_all(
    table: &Table,
    reals: &mut Reals,
    counts: &mut Counts,
    count: u64,
) -> Result<u64, Refusal> {
    let mut room = [0.0f64; 100000];
    evaluate(&mut room);
    batches(table, reals, counts, &room, count / 100000)
}

// Draws one by one, each of which judges the grid: the exclusive or of their weights and first coordinates.
fn draw_all(table: &Table, reals: &Reals, counts: &Counts, count: u64) -> Result<u64, Refusal> {
    let mut stream = MonteCarloRng::seed_from_u64(0);
    let mut xor: u64 = 0;
    for _ in 0..count {
        let drawing = samples::draw(table, reals, counts, stream)?;
        xor = xor ^ bits(drawing.sample.weights[0]) ^ bits(drawing.sample.coordinates[0]);
        stream = drawing.stream;
    }
    Ok(xor)
}

// Draws on a grid with training, in batches.
pub fn trained(plan: Plan, count: u64) -> Result<u64, Refusal> {
    let mut table = [0u64; 8192];
    let mut reals = [0.0f64; 16384];
    let mut counts = [0u64; 8192];
    plans::lay(plan, &mut table, &mut reals, &mut counts).map_err(|misread| misread.why)?;
    train_all(&table, &mut reals, &mut counts, count)
}

// Public draws alone, each on a grid that it judges.
pub fn drawn(plan: Plan, count: u64) -> Result<u64, Refusal> {
    let mut table = [0u64; 8192];
    let mut reals = [0.0f64; 16384];
    let mut counts = [0u64; 8192];
    plans::lay(plan, &mut table, &mut reals, &mut counts).map_err(|misread| misread.why)?;
    draw_all(&table, &reals, &counts, count)
}
