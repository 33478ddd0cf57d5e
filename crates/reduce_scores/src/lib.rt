// The candidates' images, from hulls.rs, and how good an image is as a point of the contact, from sat.rs: the four scores, and when one takes the
// place of the best before it.
#![tactic(auto)]

pub mod images;

ghost use Rattle.std.specs.Prelude.{◌≡◌};
ghost use Rattle.reduce_scores.specs.Scores.{better_pick_of, as_good_of, reach_of, spread_of, signed_area_of, side_of, outside_of, triangle_of};

use manifold::ClipVertex;
use vector::Vec3;
use vector::arithmetic::{cross, dot, length_squared, mul_sub, sub};
use vector::scalar::max_float;

// A score has to be better than the best by a twentieth.
const BIAS: f32 = 0.95;

// The best candidate so far: its index in the list as it stands, if there is one, and the score that the next has to reach.
#[derive(Clone, Copy)]
pub struct Best {
    pub index: Option<usize>,
    pub score: f32,
}

// The first three points, and which way round they go.
#[derive(Clone, Copy)]
pub struct Triangle {
    pub a: Vec3,
    pub b: Vec3,
    pub c: Vec3,
    pub sign: f32,
}

// Candidate i takes the place of the best where its score, less a twentieth, is above the best score.
pub fn better(best: Best, i: usize, score: f32) -> Best
    ensures { result ≡ better_pick_of best i score }
{
    if BIAS * score > best.score {
        return Best {
            index: Some(i),
            score,
        };
    }
    best
}

// The same, also where the two are equal. Two functions, since a test that is passed in would be longer than both.
pub fn as_good(best: Best, i: usize, score: f32) -> Best
    ensures { result ≡ as_good_of best i score }
{
    if BIAS * score >= best.score {
        return Best {
            index: Some(i),
            score,
        };
    }
    best
}

// First: deep, and far along a direction.
pub fn reach(v: ClipVertex, direction: Vec3) -> f32
    ensures { result ≡ reach_of direction v }
{
    -v.separation + dot(direction, v.position)
}

// Second: far from a across the normal, and deep.
pub fn spread(v: ClipVertex, a: Vec3, normal: Vec3) -> f32
    ensures { result ≡ spread_of normal a v }
{
    let d = sub(v.position, a);
    let across = mul_sub(d, dot(d, normal), normal);
    let deep = max_float(0.0, -v.separation);
    length_squared(across) + 4.0 * deep * deep
}

// Third: twice the area of the triangle that p makes with a and a + ba, below zero where it goes the other way round.
pub fn signed_area(p: Vec3, a: Vec3, ba: Vec3, normal: Vec3) -> f32
    ensures { result ≡ signed_area_of normal a ba p }
{
    dot(normal, cross(ba, sub(p, a)))
}

// How far p lies outside the side that goes from `from` along `along`.
fn side(p: Vec3, from: Vec3, along: Vec3, normal: Vec3) -> f32
    ensures { result ≡ side_of normal from along p }
{
    dot(normal, cross(sub(p, from), along))
}

// Fourth: the most that p lies outside a side of the triangle.
pub fn outside(p: Vec3, t: Triangle, normal: Vec3) -> f32
    ensures { result ≡ outside_of normal t p }
{
    let u1 = t.sign * side(p, t.a, sub(t.b, t.a), normal);
    let u2 = t.sign * side(p, t.b, sub(t.c, t.b), normal);
    let u3 = t.sign * side(p, t.c, sub(t.a, t.c), normal);
    max_float(u1, max_float(u2, u3))
}

pub fn first_three(a: Vec3, b: Vec3, c: Vec3, normal: Vec3) -> Triangle
    ensures { result ≡ triangle_of normal a b c }
{
    if signed_area(c, a, sub(b, a), normal) < 0.0 {
        return Triangle {
            a,
            b,
            c,
            sign: -1.0,
        };
    }
    Triangle { a, b, c, sign: 1.0 }
}
