// The tests of H8 against a limit, on one number, point or plane at a time: without a branch, so that passes over lists of numbers go four at a time.
// What each says is in specs/Measures.antt. Limits go by the unit, so whoever goes over a list works them out once.
#![tactic(auto)]

pub mod transform;

ghost use Rattle.std.specs.Prelude.{◌≡◌};
ghost use Rattle.hull_limits.specs.Measures.{inside, within_limit, near_one, apart, in_box, plane_right, ends_apart};

use vector::{Aabb, Plane, Vec3};

// Ends count as inside; a NaN is not.
pub fn is_inside(lo: f32, hi: f32, x: f32) -> bool
    ensures { result ≡ inside lo hi x }
{
    (lo <= x) & (x <= hi)
}

// Within the limit, either way.
pub fn is_within(limit: f32, x: f32) -> bool
    ensures { result ≡ within_limit limit x }
{
    is_inside(-limit, limit, x)
}

pub fn is_near_one(x: f32) -> bool
    ensures { result ≡ near_one x }
{
    is_inside(0.99, 1.01, x)
}

// The rounded difference is the limit or more, either way.
pub fn are_apart(limit: f32, a: f32, b: f32) -> bool
    ensures { result ≡ apart limit a b }
{
    let d = b - a;
    (limit <= d) | (d <= -limit)
}

pub fn in_box(b: Aabb, v: Vec3) -> bool
    ensures { result ≡ in_box b v }
{
    is_inside(b.lower.x, b.upper.x, v.x)
        & is_inside(b.lower.y, b.upper.y, v.y)
        & is_inside(b.lower.z, b.upper.z, v.z)
}

pub fn plane_right(limit: f32, p: Plane) -> bool
    ensures { result ≡ plane_right limit p }
{
    let n = p.normal;
    is_near_one(n.x * n.x + n.y * n.y + n.z * n.z) & is_within(limit, p.offset)
}

// The ends of an edge are apart along some axis. Which one it is cannot be foreseen, so none is asked before another.
pub fn ends_apart(limit: f32, a: Vec3, b: Vec3) -> bool
    ensures { result ≡ ends_apart limit a b }
{
    are_apart(limit, a.x, b.x) | are_apart(limit, a.y, b.y) | are_apart(limit, a.z, b.z)
}
