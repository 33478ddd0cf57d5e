// Rotations, as a quaternion and as three rows of three numbers, and transforms.
#![tactic(auto)]

ghost use Rattle.std.specs.Prelude.{◌≡◌};
ghost use Rattle.rotation.specs.Rotation.{matrix_of, transpose_of, mul_mv_of, rotate_of, inv_rotate_of, transform_point_of, inv_transform_point_of, invert_of};

use vector::arithmetic::{add, cross, mul_add, mul_sub, neg, sub};
use vector::{Quat, Transform, Vec3};

pub fn make_matrix_from_quat(q: Quat) -> [[f32; 3]; 3]
    ensures { result ≡ matrix_of q }
{
    let x = q.v.x;
    let y = q.v.y;
    let z = q.v.z;
    let w = q.s;
    let xx = x * x;
    let yy = y * y;
    let zz = z * z;
    let xy = x * y;
    let xz = x * z;
    let xw = x * w;
    let yz = y * z;
    let yw = y * w;
    let zw = z * w;
    let row0 = [1.0 - 2.0 * (yy + zz), 2.0 * (xy - zw), 2.0 * (xz + yw)];
    let row1 = [2.0 * (xy + zw), 1.0 - 2.0 * (xx + zz), 2.0 * (yz - xw)];
    let row2 = [2.0 * (xz - yw), 2.0 * (yz + xw), 1.0 - 2.0 * (xx + yy)];
    [row0, row1, row2]
}

pub fn transpose(m: [[f32; 3]; 3]) -> [[f32; 3]; 3]
    ensures { result ≡ transpose_of m }
{
    [
        [m[0][0], m[1][0], m[2][0]],
        [m[0][1], m[1][1], m[2][1]],
        [m[0][2], m[1][2], m[2][2]],
    ]
}

pub fn mul_mv(m: [[f32; 3]; 3], v: Vec3) -> Vec3
    ensures { result ≡ mul_mv_of m v }
{
    Vec3 {
        x: m[0][0] * v.x + m[0][1] * v.y + m[0][2] * v.z,
        y: m[1][0] * v.x + m[1][1] * v.y + m[1][2] * v.z,
        z: m[2][0] * v.x + m[2][1] * v.y + m[2][2] * v.z,
    }
}

pub fn rotate_vector(q: Quat, v: Vec3) -> Vec3
    ensures { result ≡ rotate_of q v }
{
    let t1 = cross(q.v, v);
    let t2 = mul_add(t1, q.s, v);
    let t3 = cross(q.v, t2);
    mul_add(v, 2.0, t3)
}

pub fn inv_rotate_vector(q: Quat, v: Vec3) -> Vec3
    ensures { result ≡ inv_rotate_of q v }
{
    let t1 = cross(q.v, v);
    let t2 = mul_sub(t1, q.s, v);
    let t3 = cross(q.v, t2);
    mul_add(v, 2.0, t3)
}

pub fn transform_point(t: Transform, v: Vec3) -> Vec3
    ensures { result ≡ transform_point_of t v }
{
    add(rotate_vector(t.q, v), t.p)
}

pub fn inv_transform_point(t: Transform, v: Vec3) -> Vec3
    ensures { result ≡ inv_transform_point_of t v }
{
    inv_rotate_vector(t.q, sub(v, t.p))
}

pub fn invert_transform(t: Transform) -> Transform
    ensures { result ≡ invert_of t }
{
    let p = inv_rotate_vector(t.q, neg(t.p));
    let v = neg(t.q.v);
    Transform {
        p,
        q: Quat { v, s: t.q.s },
    }
}
