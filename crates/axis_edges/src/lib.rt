// One pair of edges, from the edge phase of separating_axis.rs: the edges' data, the test for near parallel edges, the axis between two edges and its
// separation.
#![tactic(auto)]

ghost use Rattle.std.specs.Prelude.{◌≡◌, ◌+◌, ◌*◌, ◌<◌};
ghost use Rattle.hull_links.specs.Links.{NumbersFit};
ghost use Rattle.axis_edges.specs.Edges.{dot_right, edge_of_a, parallel_of, between_of, axis_across_of, edge_separation_of, tried_of};
ghost use Rattle.axis_edges.specs.inner.Ready.{EdgesIn};

use axis_best::Lead;
use hull_links::Hull;
use vector::Vec3;
use vector::arithmetic::{add, length_squared, mul_add, sub};
use vector::scalar::max_float;

// Edges this near to parallel have no axis between them.
const PARALLEL_EDGE_TOL: f32 = 0.005;

// An edge: its direction, the normals of its two faces and its first vertex. An edge of A stands as it is, an edge of B in A's frame and negated.
#[derive(Clone, Copy)]
pub struct Edge {
    pub direction: Vec3,
    pub normal0: Vec3,
    pub normal1: Vec3,
    pub vertex: Vec3,
}

// x + (y + z): the order of the edge phase.
pub fn dot_right(a: Vec3, b: Vec3) -> f32
    ensures { result ≡ dot_right a b }
{
    a.x * b.x + (a.y * b.y + a.z * b.z)
}

// Edge i of A.
pub fn edge_of_a(hull: &Hull, i: usize) -> Edge
    requires { NumbersFit hull.now.size hull.now.numbers.now × EdgesIn hull.now.size hull.now.links.now
        × (2 * i + 1 < hull.now.size.half_edges) }
    ensures { result ≡ edge_of_a hull.now.size hull.now.numbers.now hull.now.links.now i }
{
    let from = hull::vertex_at(hull, hull.origin_of(2 * i));
    let to = hull::vertex_at(hull, hull.origin_of(2 * i + 1));
    let plane0 = hull::plane_at(hull, hull.face_of(2 * i));
    let plane1 = hull::plane_at(hull, hull.face_of(2 * i + 1));
    Edge {
        direction: sub(to, from),
        normal0: plane0.normal,
        normal1: plane1.normal,
        vertex: from,
    }
}

fn parallel(cba: f32, dba: f32, direction: Vec3) -> bool
    ensures { result ≡ parallel_of cba dba direction }
{
    let tolerance = PARALLEL_EDGE_TOL * PARALLEL_EDGE_TOL * length_squared(direction);
    max_float(cba * cba, dba * dba) <= tolerance
}

// The vector t of the way from c to d.
fn between(t: f32, c: Vec3, d: Vec3) -> Vec3
    ensures { result ≡ between_of t c d }
{
    mul_add(c, t, sub(d, c))
}

// The unit vector between B's two normals that is square to both edges. Not by `mul_sv`, which has the factors the other way round.
fn axis(cba: f32, dba: f32, c: Vec3, d: Vec3) -> Vec3
    ensures { result ≡ axis_across_of cba dba c d }
{
    let n = between(-cba / (dba - cba), c, d);
    let inv = 1.0 / root::root(dot_right(n, n));
    Vec3 {
        x: n.x * inv,
        y: n.y * inv,
        z: n.z * inv,
    }
}

// How far apart the edges are along the axis; B's vertex is negated.
fn separation(axis: Vec3, a: Vec3, b: Vec3) -> f32
    ensures { result ≡ edge_separation_of axis a b }
{
    -dot_right(add(a, b), axis)
}

// Edge i of A and edge j of B, which have passed the three tests of signs: unless they are near parallel, their axis against the best before it.
pub fn tried(
    unit: usize,
    cba: f32,
    dba: f32,
    a: Edge,
    b: Edge,
    i: usize,
    j: usize,
    lead: Lead,
) -> Lead
    requires { (i < 128) × (j < 128) }
    ensures { result ≡ tried_of unit cba dba a b i j lead }
{
    if parallel(cba, dba, a.direction) {
        return lead;
    }
    let normal = axis(cba, dba, b.normal0, b.normal1);
    let apart = separation(normal, a.vertex, b.vertex);
    let index_a = (2 * i) as u8;
    let index_b = (2 * j) as u8;
    axis_best::better(unit, normal, apart, index_a, index_b, lead)
}
