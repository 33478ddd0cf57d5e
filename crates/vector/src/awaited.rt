// Stand-ins for the three functions that the edge contact and the reduction wait for: their text has not come yet.
// Whoever calls them goes by their names alone, so that only this file and specs/Awaited.antt change when it does.
ghost use Rattle.std.specs.Prelude.{◌≡◌};
ghost use Rattle.vector.specs.Awaited.{arbitrary_perp_of, line_distance_of, is_fraction_of, is_within_segments_of};

use crate::Vec3;
use crate::arithmetic::{dot, mul_add, normalize, sub};

// The points of two lines that lie nearest to each other, and where on each line they are.
#[derive(Clone, Copy)]
pub struct LineDistance {
    pub point1: Vec3,
    pub point2: Vec3,
    pub s1: f32,
    pub s2: f32,
}

// Some unit vector across v.
pub fn arbitrary_perp(v: Vec3) -> Vec3
    ensures { result ≡ arbitrary_perp_of v }
{
    if v.x < -0.5 || 0.5 < v.x {
        return normalize(Vec3 {
            x: v.y,
            y: -v.x,
            z: 0.0,
        });
    }
    normalize(Vec3 {
        x: 0.0,
        y: v.z,
        z: -v.y,
    })
}

// The lines p1 + s1 * d1 and p2 + s2 * d2.
pub fn line_distance(p1: Vec3, d1: Vec3, p2: Vec3, d2: Vec3) -> LineDistance
    ensures { result ≡ line_distance_of p1 d1 p2 d2 }
{
    let a11 = dot(d1, d1);
    let a12 = -dot(d1, d2);
    let a21 = dot(d2, d1);
    let a22 = -dot(d2, d2);
    let w = sub(p1, p2);
    let b1 = -dot(d1, w);
    let b2 = -dot(d2, w);
    let det = a11 * a22 - a12 * a21;
    if det * det < 1000.0 * 1.1754944e-38 {
        let s1 = b1 / a11;
        return LineDistance {
            point1: mul_add(p1, s1, d1),
            point2: p2,
            s1,
            s2: 0.0,
        };
    }
    let s1 = (a22 * b1 - a12 * b2) / det;
    let s2 = (a11 * b2 - a21 * b1) / det;
    LineDistance {
        point1: mul_add(p1, s1, d1),
        point2: mul_add(p2, s2, d2),
        s1,
        s2,
    }
}

// From 0 to 1, the ends inside.
fn is_fraction(s: f32) -> bool
    ensures { result ≡ is_fraction_of s }
{
    0.0 <= s && s <= 1.0
}

// Both points lie between the ends of their segments.
pub fn is_within_segments(r: LineDistance) -> bool
    ensures { result ≡ is_within_segments_of r }
{
    is_fraction(r.s1) && is_fraction(r.s2)
}
