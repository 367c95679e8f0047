// The accumulator's inner loops, on a record in a local.
use accumulator::StatisticsAccumulator;
use answers::bits;
use doubles::Refusal;

// An evaluation that varies with `i` and costs next to nothing: the whole numbers from -512 to 511 in turn.
pub fn evaluation(i: u64) -> f64 {
    ((i % 1024) as u32) as f64 - 512.0
}

// The exclusive or of a record's doubles.
fn doubles_of(a: StatisticsAccumulator) -> u64 {
    bits(a.sum)
        ^ bits(a.sum_sq)
        ^ bits(a.total_sum)
        ^ bits(a.total_sum_sq)
        ^ bits(a.weight_sum)
        ^ bits(a.avg_sum)
        ^ bits(a.avg)
        ^ bits(a.err)
        ^ bits(a.guess)
        ^ bits(a.chi_sq)
        ^ bits(a.chi_sum)
        ^ bits(a.chi_sq_sum)
        ^ bits(a.max_eval_positive)
        ^ bits(a.max_eval_negative)
}

// The exclusive or of a record's words.
fn word(a: StatisticsAccumulator) -> u64 {
    doubles_of(a)
        ^ a.new_samples
        ^ a.new_zero_evaluations
        ^ a.cur_iter
        ^ a.processed_samples
        ^ a.max_eval_positive_number
        ^ a.max_eval_negative_number
        ^ a.num_zero_evaluations
}

// Samples added to a fresh record: the record's word.
pub fn added(count: u64) -> Result<u64, Refusal> {
    let mut record = StatisticsAccumulator::new();
    for i in 0..count {
        record = record.add_sample(evaluation(i), i % 1024)?;
    }
    Ok(word(record))
}

// The sum and the sum of the squares of 1,024 pairs of evaluations, in turns.
fn sum_pairs(room: &mut [f64; 2048]) {
    for i in 0..1024usize {
        let a = evaluation(i as u64);
        let b = evaluation((i as u64) ^ 341);
        room[2 * i] = a + b;
        room[2 * i + 1] = a * a + b * b;
    }
}

// The exclusive or of the estimates that were kept.
fn estimates_word(kept: &[f64; 192]) -> u64 {
    let mut sum: u64 = 0;
    for estimate in kept {
        sum = sum ^ bits(*estimate);
    }
    sum
}

// Ends of iterations on a fresh record, where two or three samples with such sums wait: the record's word and that of the last 64
// estimates. Each iteration's estimates are kept, as a caller would: else the compiler leaves some of them out.
pub fn updated(weighted: bool, count: u64) -> Result<u64, Refusal> {
    let mut room = [0.0f64; 2048];
    let mut kept = [0.0f64; 192];
    sum_pairs(&mut room);
    let mut record = StatisticsAccumulator::new();
    for i in 0..count {
        let at = (i % 1024) as usize;
        record.sum = room[2 * at];
        record.sum_sq = room[2 * at + 1];
        record.new_samples = 2 + i % 2;
        record = record.update_iter(weighted)?.after;
        let row = (i % 64) as usize;
        kept[row] = record.avg;
        kept[row + 64] = record.err;
        kept[row + 128] = record.chi_sq;
    }
    Ok(word(record) ^ estimates_word(&kept))
}
