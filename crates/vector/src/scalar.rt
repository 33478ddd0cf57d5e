// Single numbers: size, lesser, greater. `f32::min`, `max` and `abs` answer a NaN and a zero's sign otherwise than `min_of`, `max_of` and `abs_of`, so
// they do not stand here.
ghost use Rattle.std.specs.Prelude.{◌≡◌};
ghost use Rattle.vector.specs.Scalar.{abs_of, min_of, max_of, min_int_of};

// -a where a is below zero, else a.
pub fn abs_float(a: f32) -> f32
    ensures { result ≡ abs_of a }
{
    if a < 0.0 {
        return -a;
    }
    a
}

// a where it is below b, else b.
pub fn min_float(a: f32, b: f32) -> f32
    ensures { result ≡ min_of a b }
{
    if a < b {
        return a;
    }
    b
}

// a where it is above b, else b.
pub fn max_float(a: f32, b: f32) -> f32
    ensures { result ≡ max_of a b }
{
    if a > b {
        return a;
    }
    b
}

// The lesser of two counts.
pub fn min_int(a: usize, b: usize) -> usize
    ensures { result ≡ min_int_of a b }
{
    a.min(b)
}
