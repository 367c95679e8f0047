// Slices changed element by element, as a function says.
ghost use Rattle.std.specs.Prelude.{◌≡◌, map};
ghost use Rattle.recut.specs.Pairs.{pairwise};

// Every element made what f answers of it.
pub fn map<T: Copy, F: Fn(T) -> T>(xs: &mut [T], f: F)
    requires { F.IsAlwaysCallable f }
    ensures { (g : T → T) → ((x y : T) → F.post f x y → y ≡ g x) → xs.new ≡ map g xs.old }
{
    for x in xs.iter_mut() {
        *x = f(*x);
    }
}

// Every element made what f answers of it and its neighbour in ys, over the shorter length.
pub fn pair<T: Copy, U: Copy, F: Fn(T, U) -> T>(xs: &mut [T], ys: &[U], f: F)
    requires { F.IsAlwaysCallable f }
    ensures { (g : T → U → T) → ((x : T) (y : U) (z : T) → F.post f x y z → z ≡ g x y) → xs.new ≡ pairwise g xs.old ys.now }
{
    // By index: of what is written through `iter_mut().zip(..)` a proof knows the length alone.
    for i in 0..xs.len().min(ys.len()) {
        xs[i] = f(xs[i], ys[i]);
    }
}
