// The re-cut: new edges such that every new bin has the same part of the old bins' weights.
ghost use Rattle.std.specs.Prelude.{◌≡◌, ◌<◌, length};
ghost use Rattle.recut.specs.Cut.{walk_to, edge_at, cuts_of};

// Where the walk over the old bins stands: the weight passed, and the bin.
#[derive(Clone, Copy)]
pub struct Spot {
    pub passed: f64,
    pub bin: usize,
}

// The spot of the bin that holds the target weight. The last bin is never left, though its weight may be passed.
fn seek(weights: &[f64], target: f64, from: Spot) -> Spot
    requires { from.bin < length weights.now }
    ensures { (result ≡ walk_to weights.now target from) × (result.bin < length weights.now) }
{
    let mut passed = from.passed;
    let last = weights.len() - 1;
    for bin in from.bin..last {
        let next = passed + weights[bin];
        if next < target {
            passed = next;
        } else {
            return Spot { passed, bin };
        }
    }
    let next = passed + weights[last];
    if next < target {
        passed = next;
    }
    Spot { passed, bin: last }
}

// The edge as deep in the spot's bin as the target lies in its weight.
fn edge_at(edges: &[f64], weights: &[f64], target: f64, s: Spot) -> f64
    requires { (s.bin < length weights.now) × (length weights.now < length edges.now) }
    ensures { result ≡ edge_at edges.now weights.now target s }
{
    let j = s.bin;
    let depth = (target - s.passed) / weights[j];
    edges[j] + depth * (edges[j + 1] - edges[j])
}

// New edges for the whole room, from 0 on; the last is set to 1.
pub fn cut(edges: &[f64], weights: &[f64], step: f64, room: &mut [f64])
    requires { (0 < length weights.now) × (length weights.now < length edges.now) × (0 < length room.old) }
    ensures { room.new ≡ cuts_of edges.now weights.now step (length room.old) }
{
    let n = room.len();
    room[0] = 0.0;
    let mut s = Spot {
        passed: 0.0,
        bin: 0,
    };
    let mut target = 0.0;
    for i in 1..n {
        target = target + step;
        s = seek(weights, target, s);
        room[i] = edge_at(edges, weights, target, s);
    }
    room[n - 1] = 1.0;
}
