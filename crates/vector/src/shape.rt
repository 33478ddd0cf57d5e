// Planes, boxes, and the point of a list that lies farthest along a direction.
ghost use Rattle.std.specs.Prelude.{◌≡◌};
ghost use Rattle.vector.specs.Shape.{plane_separation_of, plane_of, center_of, extents_of, point_support_of, farther_of, support_vertex_of, Lists};

use crate::arithmetic::{add, dot, mul_sv, sub};
use crate::{Aabb, Plane, Vec3};

// How far p lies above the plane.
pub fn plane_separation(plane: Plane, p: Vec3) -> f32
    ensures { result ≡ plane_separation_of plane p }
{
    dot(plane.normal, p) - plane.offset
}

// The plane through p.
pub fn make_plane_from_normal_and_point(normal: Vec3, p: Vec3) -> Plane
    ensures { result ≡ plane_of normal p }
{
    Plane {
        normal,
        offset: dot(normal, p),
    }
}

pub fn aabb_center(b: Aabb) -> Vec3
    ensures { result ≡ center_of b }
{
    mul_sv(0.5, add(b.lower, b.upper))
}

pub fn aabb_extents(b: Aabb) -> Vec3
    ensures { result ≡ extents_of b }
{
    mul_sv(0.5, sub(b.upper, b.lower))
}

// Which of two points, a capsule's centres, lies farther along d: the first at a tie.
pub fn get_point_support(points: [Vec3; 2], d: Vec3) -> usize
    ensures { result ≡ point_support_of points d }
{
    let first = dot(points[0], d);
    let second = dot(points[1], d);
    if second > first {
        return 1;
    }
    0
}

// A vertex, and how far along the direction it lies: a record of its own, since `farther_of` takes and gives it.
#[derive(Clone, Copy)]
pub struct Farthest {
    pub vertex: usize,
    pub value: f32,
}

// Vertex i takes the place of the best before it where it lies strictly farther.
fn farther(best: Farthest, i: usize, value: f32) -> Farthest
    ensures { result ≡ farther_of best i value }
{
    if value > best.value {
        return Farthest { vertex: i, value };
    }
    best
}

// The lowest-numbered of the first `count` vertices with the largest d . vertex; their coordinates stand in three lists, as a hull from C has them, which
// may go on behind the last vertex.
pub fn find_hull_support_vertex(xs: &[f32], ys: &[f32], zs: &[f32], count: usize, d: Vec3) -> usize
    requires { Lists xs.now ys.now zs.now count }
    ensures { result ≡ support_vertex_of xs.now ys.now zs.now count d }
{
    let first = Vec3 {
        x: xs[0],
        y: ys[0],
        z: zs[0],
    };
    let mut best = Farthest {
        vertex: 0,
        value: dot(d, first),
    };
    for i in 1..count {
        let vertex = Vec3 {
            x: xs[i],
            y: ys[i],
            z: zs[i],
        };
        best = farther(best, i, dot(d, vertex));
    }
    best.vertex
}
