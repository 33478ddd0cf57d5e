// H8. Passes over the numbers have no branch, so that they go four at a time. That all is finite needs no test of its own: what is inside finite limits is
// finite, and so is each part of a sum of squares that is.
ghost use Rattle.std.specs.Prelude.{true, ◌≡◌, ℕ, Bool, ◌+◌, ◌/◌, ◌<◌, ◌≤◌, length};
ghost use Rattle.units.specs.Limits.{edge_limit};
ghost use Rattle.hull_links.specs.Tests.{all};
ghost use Rattle.hull_links.specs.Links.{LinksFit, NumbersFit};
ghost use Rattle.hull_links.specs.Rules.{h2};
ghost use Rattle.hull.specs.Rule8.{vertex_in_box, plane_right_at, edge_long, h8};
ghost use Rattle.hull.specs.inner.Passes.{small_from, padding_small};

use crate::{box_of, plane_at, vertex_at};
use hull_limits::{ends_apart, in_box, is_within, plane_right};
use hull_links::{Hull, padded};

// Whether the test is true of each number below n. Every number is tested, without a branch; each caller's test is inlined.
fn every<F: Fn(usize) -> bool>(n: usize, test: F) -> bool
    requires callable { (k : ℕ) → k < n → F.pre test k }
    ensures { (p : ℕ → Bool) → ((k : ℕ) (b : Bool) → k < n → F.post test k b → b ≡ p k) → result ≡ all p n }
{
    let mut ok = true;
    for i in 0..n {
        ok &= test(i);
    }
    ok
}

// The n numbers from `from` on are within the limit. Tried with a slice of them: the validator took 1 to 2 % longer.
fn numbers_small(numbers: &[f32], limit: f32, from: usize, n: usize) -> bool
    requires { from + n ≤ length numbers.now }
    ensures { result ≡ all (small_from limit numbers.now from) n }
{
    every(n, |i| is_within(limit, numbers[from + i]))
}

// The padding of the three lists is within the limit of coordinates.
fn padding_small(hull: &Hull) -> bool
    requires { NumbersFit hull.now.size hull.now.numbers.now }
    ensures { result ≡ padding_small hull.now.size hull.now.numbers.now }
{
    let limit = units::coordinate_limit(hull.size.unit);
    let v = hull.size.vertices;
    let p = padded(hull.size);
    numbers_small(hull.numbers, limit, 6 + v, p - v)
        & numbers_small(hull.numbers, limit, 6 + p + v, p - v)
        & numbers_small(hull.numbers, limit, 6 + 2 * p + v, p - v)
}

// Every vertex is inside the box.
fn vertices_in_box(hull: &Hull) -> bool
    requires { NumbersFit hull.now.size hull.now.numbers.now }
    ensures { result ≡ all (vertex_in_box hull.now.size hull.now.numbers.now) hull.now.size.vertices }
{
    let b = box_of(hull);
    every(hull.size.vertices, |i| in_box(b, vertex_at(hull, i)))
}

// Every plane has a normal of length about 1 and an offset within its limit.
fn planes_right(hull: &Hull) -> bool
    requires { NumbersFit hull.now.size hull.now.numbers.now }
    ensures { result ≡ all (plane_right_at hull.now.size hull.now.numbers.now) hull.now.size.faces }
{
    let limit = units::offset_limit(hull.size.unit);
    every(hull.size.faces, |i| plane_right(limit, plane_at(hull, i)))
}

// Edge k is as long as the limit, which is that of the hull's unit.
fn edge_long(hull: &Hull, limit: f32, k: usize) -> bool
    requires { NumbersFit hull.now.size hull.now.numbers.now × LinksFit hull.now.size hull.now.links.now
        × (h2 hull.now.size hull.now.links.now ≡ true) × (k < hull.now.size.half_edges / 2) × (limit ≡ edge_limit hull.now.size.unit) }
    ensures { result ≡ edge_long hull.now.size hull.now.numbers.now hull.now.links.now k }
{
    let a = hull.origin_of(2 * k);
    let b = hull.origin_of(2 * k + 1);
    ends_apart(limit, vertex_at(hull, a), vertex_at(hull, b))
}

// Every edge is long enough.
fn edges_long(hull: &Hull) -> bool
    requires { NumbersFit hull.now.size hull.now.numbers.now × LinksFit hull.now.size hull.now.links.now × (h2 hull.now.size hull.now.links.now ≡ true) }
    ensures { result ≡ all (edge_long hull.now.size hull.now.numbers.now hull.now.links.now) (hull.now.size.half_edges / 2) }
{
    let limit = units::edge_limit(hull.size.unit);
    every(hull.size.half_edges / 2, |k| edge_long(hull, limit, k))
}

// H8. Of the coordinates only the box and the padding are held to the limit: what is inside a small box is small.
pub fn numbers_right(hull: &Hull) -> bool
    requires { NumbersFit hull.now.size hull.now.numbers.now × LinksFit hull.now.size hull.now.links.now × (h2 hull.now.size hull.now.links.now ≡ true) }
    ensures { result ≡ h8 hull.now.size hull.now.numbers.now hull.now.links.now }
{
    let limit = units::coordinate_limit(hull.size.unit);
    if !numbers_small(hull.numbers, limit, 0, 6) {
        return false;
    }
    if !padding_small(hull) {
        return false;
    }
    if !vertices_in_box(hull) {
        return false;
    }
    if !planes_right(hull) {
        return false;
    }
    edges_long(hull)
}
