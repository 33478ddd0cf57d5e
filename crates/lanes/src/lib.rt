// Four lanes of binary32 numbers: a vertex number embedded in the low seven bits of each, the least of lanes, and the number that the least carries.
// The part of simd_scalar.rs that works on bits and order; sums and products of lanes are plain `f32` expressions and need no helper.
#![tactic(auto)]

ghost use Rattle.std.specs.Prelude.{◌≡◌, ◌+◌, ◌<◌, T};
ghost use Rattle.std.specs.Float.Ieee.Scale.{finite};
ghost use Rattle.bounds.specs.LowBits.{embed_of};
ghost use Rattle.lanes.specs.Lanes.{FiniteW, embed_w_of, least_of, least_w_of, lesser_of, min_index_of};

#[repr(C)]
#[derive(Clone, Copy)]
pub struct FloatW {
    pub x: f32,
    pub y: f32,
    pub z: f32,
    pub w: f32,
}

// The low seven bits of a lane replaced by the number i.
pub fn embed_index(value: f32, i: u32) -> f32
    requires { T (finite value) × (i < 128) }
    ensures { result ≡ embed_of value i }
{
    let bits = f32::to_bits(value);
    f32::from_bits(bits - bits % 128 + i)
}

// The numbers from base on in the four lanes.
pub fn embed_index_w(value: FloatW, base: u32) -> FloatW
    requires { FiniteW value × (base + 3 < 128) }
    ensures { result ≡ embed_w_of value base }
{
    FloatW {
        x: embed_index(value.x, base),
        y: embed_index(value.y, base + 1),
        z: embed_index(value.z, base + 2),
        w: embed_index(value.w, base + 3),
    }
}

// The least of two: the first where it is at most the second. Of finite numbers that is where the second is not strictly below it, and that test is
// one instruction for four lanes.
pub fn least(a: f32, b: f32) -> f32
    requires { T (finite a) × T (finite b) }
    ensures least { result ≡ least_of a b }
    ensures lesser { result ≡ lesser_of a b }
    ensures bounded { T (finite result) }
{
    if b < a { b } else { a }
}

// The least of each lane.
pub fn min_w(a: FloatW, b: FloatW) -> FloatW
    requires { FiniteW a × FiniteW b }
    ensures { result ≡ least_w_of a b }
{
    FloatW {
        x: least(a.x, b.x),
        y: least(a.y, b.y),
        z: least(a.z, b.z),
        w: least(a.w, b.w),
    }
}

// The number that the least of the four lanes carries.
pub fn min_index_w(a: FloatW) -> u32
    requires { FiniteW a }
    ensures { result ≡ min_index_of a }
{
    let m = least(least(least(a.x, a.y), a.z), a.w);
    f32::to_bits(m) % 128
}
