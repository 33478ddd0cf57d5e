// Floats and their bits, for every float and every bit pattern. The logic has one NaN, written 7fc00000.
ghost use Rattle.std.specs.Prelude.{◌≡◌};
ghost use Rattle.std.specs.Float.{binary32};
ghost use Rattle.std.specs.Float.Ieee.{to_bits, of_bits};

// The bits of any float, 7fc00000 for a NaN.
pub fn bits_of(x: f32) -> u32
    ensures { result ≡ to_bits binary32 x }
{
    if x != x {
        return 0x7fc00000;
    }
    f32::to_bits(x)
}

// The float of any bits.
pub fn float_of(n: u32) -> f32
    ensures { result ≡ of_bits binary32 n }
{
    if 0x7f800000 < n % 0x80000000 {
        return 0.0 / 0.0;
    }
    f32::from_bits(n)
}
