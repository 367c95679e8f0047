// An axis of 64 even bins: probes and draws.
use axis::edges;
use stream::MonteCarloRng;

// The sum of the weights that probes at the unit draws of new(0, 0) give.
pub fn probed(count: u64) -> u64 {
    let mut room = [0.0f64; 65];
    edges::lay_even(&mut room);
    let mut stream = MonteCarloRng::seed_from_u64(0);
    let mut sum = 0.0;
    for _ in 0..count {
        let drawn = stream.unit();
        sum = sum + edges::weight_of(&room, edges::bin_of(&room, drawn.value)) * drawn.value;
        stream = drawn.stream;
    }
    answers::bits(sum)
}

// The sum of the points drawn from new(0, 0), each times its weight.
pub fn drawn(count: u64) -> u64 {
    let mut room = [0.0f64; 65];
    edges::lay_even(&mut room);
    let mut stream = MonteCarloRng::seed_from_u64(0);
    let mut sum = 0.0;
    for _ in 0..count {
        let unit = stream.unit();
        let point = edges::point_of(&room, unit.value);
        sum = sum + point.at * point.weight;
        stream = unit.stream;
    }
    answers::bits(sum)
}
