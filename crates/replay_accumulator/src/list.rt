// A list's records as records of the accumulator, and words held against the list. A list here begins with the record at hand.
use accumulator::StatisticsAccumulator;
use answers::{bits, double, holds, word};

// Whether the words from a place on are these three doubles.
pub fn holds_three(list: &[u8], at: usize, x: f64, y: f64, z: f64) -> bool {
    holds(list, at, &[bits(x), bits(y), bits(z)])
}

// Whether the 21 words from a place on are the record's.
pub fn holds_record(list: &[u8], at: usize, a: StatisticsAccumulator) -> bool {
    let words = words_of(a);
    holds(list, at, &words)
}

// A record's words, in the order of the Rust's declaration.
fn words_of(a: StatisticsAccumulator) -> [u64; 21] {
    [
        bits(a.sum),
        bits(a.sum_sq),
        bits(a.total_sum),
        bits(a.total_sum_sq),
        bits(a.weight_sum),
        bits(a.avg_sum),
        bits(a.avg),
        bits(a.err),
        bits(a.guess),
        bits(a.chi_sq),
        bits(a.chi_sum),
        bits(a.chi_sq_sum),
        a.new_samples,
        a.new_zero_evaluations,
        a.cur_iter,
        a.processed_samples,
        bits(a.max_eval_positive),
        a.max_eval_positive_number,
        bits(a.max_eval_negative),
        a.max_eval_negative_number,
        a.num_zero_evaluations,
    ]
}

// The double at a place.
pub fn double_at(list: &[u8], at: usize) -> f64 {
    double(word(list, at))
}

// The record of the 21 words from a place on, and a fresh one past the last word.
pub fn record_at(list: &[u8], at: usize) -> StatisticsAccumulator {
    if list.len() / 17 < at {
        return StatisticsAccumulator::new();
    }
    let start = at * 17;
    record_of(&list[start..])
}

// The record of a list's first 21 words.
fn record_of(list: &[u8]) -> StatisticsAccumulator {
    StatisticsAccumulator {
        sum: double_at(list, 0),
        sum_sq: double_at(list, 1),
        total_sum: double_at(list, 2),
        total_sum_sq: double_at(list, 3),
        weight_sum: double_at(list, 4),
        avg_sum: double_at(list, 5),
        avg: double_at(list, 6),
        err: double_at(list, 7),
        guess: double_at(list, 8),
        chi_sq: double_at(list, 9),
        chi_sum: double_at(list, 10),
        chi_sq_sum: double_at(list, 11),
        new_samples: word(list, 12),
        new_zero_evaluations: word(list, 13),
        cur_iter: word(list, 14),
        processed_samples: word(list, 15),
        max_eval_positive: double_at(list, 16),
        max_eval_positive_number: word(list, 17),
        max_eval_negative: double_at(list, 18),
        max_eval_negative_number: word(list, 19),
        num_zero_evaluations: word(list, 20),
    }
}
