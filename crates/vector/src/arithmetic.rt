// Vectors of three numbers: sums go left to right over x, y, z.
ghost use Rattle.std.specs.Prelude.{◌≡◌};
ghost use Rattle.vector.specs.Arithmetic.{add_of, sub_of, neg_of, abs_vec_of, dot_of, cross_of, length_squared_of, mul_sv_of, mul_add_of, mul_sub_of, lerp_of};
ghost use Rattle.vector.specs.Arithmetic.{normalize_of};

use crate::Vec3;
use crate::scalar::abs_float;

pub fn add(a: Vec3, b: Vec3) -> Vec3
    ensures { result ≡ add_of a b }
{
    Vec3 {
        x: a.x + b.x,
        y: a.y + b.y,
        z: a.z + b.z,
    }
}

pub fn sub(a: Vec3, b: Vec3) -> Vec3
    ensures { result ≡ sub_of a b }
{
    Vec3 {
        x: a.x - b.x,
        y: a.y - b.y,
        z: a.z - b.z,
    }
}

pub fn neg(a: Vec3) -> Vec3
    ensures { result ≡ neg_of a }
{
    Vec3 {
        x: -a.x,
        y: -a.y,
        z: -a.z,
    }
}

pub fn abs(a: Vec3) -> Vec3
    ensures { result ≡ abs_vec_of a }
{
    Vec3 {
        x: abs_float(a.x),
        y: abs_float(a.y),
        z: abs_float(a.z),
    }
}

pub fn dot(a: Vec3, b: Vec3) -> f32
    ensures { result ≡ dot_of a b }
{
    a.x * b.x + a.y * b.y + a.z * b.z
}

pub fn cross(a: Vec3, b: Vec3) -> Vec3
    ensures { result ≡ cross_of a b }
{
    Vec3 {
        x: a.y * b.z - a.z * b.y,
        y: a.z * b.x - a.x * b.z,
        z: a.x * b.y - a.y * b.x,
    }
}

pub fn length_squared(v: Vec3) -> f32
    ensures { result ≡ length_squared_of v }
{
    v.x * v.x + v.y * v.y + v.z * v.z
}

// s * v
pub fn mul_sv(s: f32, v: Vec3) -> Vec3
    ensures { result ≡ mul_sv_of s v }
{
    Vec3 {
        x: s * v.x,
        y: s * v.y,
        z: s * v.z,
    }
}

// a + s * b
pub fn mul_add(a: Vec3, s: f32, b: Vec3) -> Vec3
    ensures { result ≡ mul_add_of a s b }
{
    Vec3 {
        x: a.x + s * b.x,
        y: a.y + s * b.y,
        z: a.z + s * b.z,
    }
}

// a - s * b
pub fn mul_sub(a: Vec3, s: f32, b: Vec3) -> Vec3
    ensures { result ≡ mul_sub_of a s b }
{
    Vec3 {
        x: a.x - s * b.x,
        y: a.y - s * b.y,
        z: a.z - s * b.z,
    }
}

// (1 - t) * a + t * b
pub fn lerp(a: Vec3, b: Vec3, t: f32) -> Vec3
    ensures { result ≡ lerp_of a b t }
{
    let s = 1.0 - t;
    Vec3 {
        x: s * a.x + t * b.x,
        y: s * a.y + t * b.y,
        z: s * a.z + t * b.z,
    }
}

// v over its length, or zero where the length's square is at most a thousand times the least normal number.
pub fn normalize(v: Vec3) -> Vec3
    ensures { result ≡ normalize_of v }
{
    let l = length_squared(v);
    if l > 1000.0 * 1.1754944e-38 {
        let s = 1.0 / root::root(l);
        return mul_sv(s, v);
    }
    Vec3 {
        x: 0.0,
        y: 0.0,
        z: 0.0,
    }
}
