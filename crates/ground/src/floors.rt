// The floor of an axes grid.
ghost use Rattle.std.specs.Prelude.{◌≡◌};
ghost use Rattle.model.specs.Draw.{floored_of};

// The weight under a floor.
pub fn floored(floor: f64, weight: f64) -> f64
    ensures { result ≡ floored_of floor weight }
{
    if floor == 0.0 {
        return weight;
    }
    if floor == 1.0 {
        return 1.0;
    }
    if weight == 0.0 {
        return 0.0;
    }
    plain::inv((1.0 - floor) / weight + floor)
}
