// The contact of a pair of edges: one point, halfway between the nearest points of the two lines, where both lie within their edges.
ghost use Rattle.std.specs.Prelude.{◌≡◌, ◌<◌, Ok};
ghost use Rattle.hull.specs.Accepted.{Accepted};
ghost use Rattle.collide_outcome.specs.Told.{built_of};
ghost use Rattle.contacts.specs.EdgePairs.{along_of, edge_contact_of};

use collide_outcome::{Build, missed, touched};
use hull_links::Hull;
use manifold::ClipVertex;
use manifold::kinds::AxisKind;
use manifold::pairs::{FeatureOwner, make_feature_pair};
use vector::arithmetic::{add, dot, mul_sv, sub};
use vector::awaited::{LineDistance, is_within_segments, line_distance};
use vector::{Transform, Vec3};

// The contact of half-edges `edge_a` and `edge_b` along this normal, where the lines lie nearest at `nearest`.
fn along(nearest: LineDistance, normal: Vec3, edge_a: u8, edge_b: u8) -> Build
    ensures { built_of (Ok result) ≡ along_of nearest normal edge_a edge_b }
{
    if !is_within_segments(nearest) {
        return missed();
    }
    let separation = dot(normal, sub(nearest.point2, nearest.point1));
    let point = ClipVertex {
        position: mul_sv(0.5, add(nearest.point1, nearest.point2)),
        separation,
        pair: make_feature_pair(FeatureOwner::ShapeA, edge_a, FeatureOwner::ShapeB, edge_b),
    };
    touched(
        reduce_points::one_point(reduce_points::point_of(0, point), normal),
        separation,
        u8::from(AxisKind::Edges),
        edge_a,
        edge_b,
    )
}

pub fn build_edge_contact(
    a: &Hull,
    b: &Hull,
    transform: Transform,
    normal: Vec3,
    edge_a: u8,
    edge_b: u8,
) -> Build
    requires { Accepted a.now.size a.now.numbers.now a.now.links.now × Accepted b.now.size b.now.numbers.now b.now.links.now
        × (edge_a < a.now.size.half_edges) × (edge_b < b.now.size.half_edges) }
    ensures { built_of (Ok result) ≡ edge_contact_of a.now.size a.now.numbers.now a.now.links.now b.now.size b.now.numbers.now
        b.now.links.now transform normal edge_a edge_b }
{
    let ea = edge_a as usize;
    let eb = edge_b as usize;
    let twin_a = a.twin_of(ea);
    let p_a = hull::vertex_at(a, a.origin_of(ea));
    let q_a = hull::vertex_at(a, a.origin_of(twin_a));
    let twin_b = b.twin_of(eb);
    let p_b = rotation::transform_point(transform, hull::vertex_at(b, b.origin_of(eb)));
    let q_b = rotation::transform_point(transform, hull::vertex_at(b, b.origin_of(twin_b)));
    let nearest = line_distance(p_a, sub(q_a, p_a), p_b, sub(q_b, p_b));
    along(nearest, normal, edge_a, edge_b)
}
