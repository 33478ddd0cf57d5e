// Two edges with the faces on their sides, whether their arcs cross, and the axis across both.
ghost use Rattle.std.specs.Prelude.{◌≡◌, ◌+◌, ◌<◌};
ghost use Rattle.hull.specs.Accepted.{Accepted};
ghost use Rattle.collide_cached.specs.Ridges.{edge_at, ridge_of, carried_ridge, cross_over, wide_of, crosses_of, axis_between};

use hull_links::Hull;
use vector::arithmetic::{dot, length_squared, lerp, normalize, sub};
use vector::scalar::max_float;
use vector::{Transform, Vec3};

// Not axis_edges' `Edge`, which has no end to carry. An edge as the hull holds it: where half-edges e and e + 1 start, and the normals of their faces.
#[derive(Clone, Copy)]
struct Edge {
    from: Vec3,
    to: Vec3,
    normal0: Vec3,
    normal1: Vec3,
}

// An edge: its direction, where it ends, and the normals of the faces on its two sides.
#[derive(Clone, Copy)]
pub struct Ridge {
    pub direction: Vec3,
    pub end: Vec3,
    pub normal0: Vec3,
    pub normal1: Vec3,
}

fn edge_at(hull: &Hull, e: usize) -> Edge
    requires { Accepted hull.now.size hull.now.numbers.now hull.now.links.now × (e + 1 < hull.now.size.half_edges) }
    ensures { result ≡ edge_at hull.now.size hull.now.numbers.now hull.now.links.now e }
{
    let from = hull::vertex_at(hull, hull.origin_of(e));
    let to = hull::vertex_at(hull, hull.origin_of(e + 1));
    let plane0 = hull::plane_at(hull, hull.face_of(e));
    let plane1 = hull::plane_at(hull, hull.face_of(e + 1));
    Edge {
        from,
        to,
        normal0: plane0.normal,
        normal1: plane1.normal,
    }
}

// Half-edges e and e + 1 of a hull.
pub fn ridge_of(hull: &Hull, e: usize) -> Ridge
    requires { Accepted hull.now.size hull.now.numbers.now hull.now.links.now × (e + 1 < hull.now.size.half_edges) }
    ensures { result ≡ ridge_of hull.now.size hull.now.numbers.now hull.now.links.now e }
{
    let edge = edge_at(hull, e);
    Ridge {
        direction: sub(edge.to, edge.from),
        end: edge.to,
        normal0: edge.normal0,
        normal1: edge.normal1,
    }
}

// The same, carried into the frame that the transform leads to.
pub fn carried_ridge(transform: Transform, hull: &Hull, e: usize) -> Ridge
    requires { Accepted hull.now.size hull.now.numbers.now hull.now.links.now × (e + 1 < hull.now.size.half_edges) }
    ensures { result ≡ carried_ridge transform hull.now.size hull.now.numbers.now hull.now.links.now e }
{
    let edge = edge_at(hull, e);
    let end = rotation::transform_point(transform, edge.to);
    Ridge {
        direction: sub(end, rotation::transform_point(transform, edge.from)),
        end,
        normal0: rotation::rotate_vector(transform.q, edge.normal0),
        normal1: rotation::rotate_vector(transform.q, edge.normal1),
    }
}

// The three tests of signs.
fn cross_over(cba: f32, dba: f32, adc: f32, bdc: f32) -> bool
    ensures { result ≡ cross_over cba dba adc bdc }
{
    cba * dba < 0.0 && (adc * bdc < 0.0 && cba * bdc > 0.0)
}

// The parallel test: whether the edges are far enough from parallel.
fn wide(cba: f32, dba: f32, direction: Vec3) -> bool
    ensures { result ≡ wide_of cba dba direction }
{
    max_float(cba * cba, dba * dba) >= 0.005 * 0.005 * length_squared(direction)
}

pub fn crosses(a: Ridge, b: Ridge) -> bool
    ensures { result ≡ crosses_of a b }
{
    let cba = dot(b.normal0, a.direction);
    let dba = dot(b.normal1, a.direction);
    let adc = -dot(a.normal0, b.direction);
    let bdc = -dot(a.normal1, b.direction);
    cross_over(cba, dba, adc, bdc) && wide(cba, dba, a.direction)
}

// The axis across both edges.
pub fn axis_between(a: Ridge, b: Ridge) -> Vec3
    ensures { result ≡ axis_between a b }
{
    let cba = dot(b.normal0, a.direction);
    let dba = dot(b.normal1, a.direction);
    normalize(lerp(b.normal0, b.normal1, cba / (cba - dba)))
}
