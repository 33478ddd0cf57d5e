// The axis of the last call tried again, from hulls.rs: a hit, or the full search has to be made. What each type does is in specs/Again.antt.
#![tactic(auto)]

pub mod ridges;

ghost use Rattle.std.specs.Prelude.{◌≡◌, ◌+◌, ◌<◌};
ghost use Rattle.hull.specs.Accepted.{Accepted};
ghost use Rattle.collide_outcome.specs.Told.{cached_of};
ghost use Rattle.collide_cached.specs.Again.{cached_face_a_of, cached_face_b_of, cached_edge_of};

use crate::ridges::{axis_between, carried_ridge, crosses, ridge_of};
use clip_corners::Corners;
use collide_outcome::{Refusal, served};
use contacts::edge::build_edge_contact;
use contacts::face::{build_face_a_contact, build_face_b_contact};
use hull_links::Hull;
use manifold::records::empty_contact;
use manifold::{Contact, SatCache};
use units::speculative_distance;
use vector::Transform;
use vector::arithmetic::{dot, neg, sub};
use vector::shape::plane_separation;

// The contact where the axis serves again, nothing where it does not.
pub type Hit = Result<Option<Contact>, Refusal>;

// Type 2: the cached face of A.
pub fn cached_face_a(
    a: &Hull,
    b: &Hull,
    transform: Transform,
    cache: SatCache,
    corners: &mut Corners,
) -> Hit
    requires { Accepted a.now.size a.now.numbers.now a.now.links.now × Accepted b.now.size b.now.numbers.now b.now.links.now
        × (cache.index_a < a.now.size.faces) }
    ensures { cached_of result ≡ cached_face_a_of a.now.size a.now.numbers.now a.now.links.now b.now.size b.now.numbers.now
        b.now.links.now transform cache }
{
    let plane = hull::plane_at(a, cache.index_a as usize);
    let direction = neg(rotation::inv_rotate_vector(transform.q, plane.normal));
    let vertex = hull::support_vertex(b, direction);
    let support = rotation::transform_point(transform, hull::vertex_at(b, vertex));
    if plane_separation(plane, support) >= speculative_distance(a.size.unit) {
        return Ok(Some(empty_contact()));
    }
    let built = build_face_a_contact(a, b, transform, cache.index_a, vertex as u8, corners);
    served(a.size.unit, cache, built)
}

// Type 3: the cached face of B. Not one function with type 2: what turns the normal and what carries the corner differ, and the contact is built otherwise.
pub fn cached_face_b(
    a: &Hull,
    b: &Hull,
    transform: Transform,
    cache: SatCache,
    corners: &mut Corners,
) -> Hit
    requires { Accepted a.now.size a.now.numbers.now a.now.links.now × Accepted b.now.size b.now.numbers.now b.now.links.now
        × (cache.index_b < b.now.size.faces) }
    ensures { cached_of result ≡ cached_face_b_of a.now.size a.now.numbers.now a.now.links.now b.now.size b.now.numbers.now
        b.now.links.now transform cache }
{
    let plane = hull::plane_at(b, cache.index_b as usize);
    let direction = neg(rotation::rotate_vector(transform.q, plane.normal));
    let vertex = hull::support_vertex(a, direction);
    let corner = rotation::inv_transform_point(transform, hull::vertex_at(a, vertex));
    if plane_separation(plane, corner) >= speculative_distance(a.size.unit) {
        return Ok(Some(empty_contact()));
    }
    let built = build_face_b_contact(a, b, transform, cache.index_b, vertex as u8, corners);
    served(a.size.unit, cache, built)
}

// Type 4: the cached pair of edges, the first half-edge of each.
pub fn cached_edge(a: &Hull, b: &Hull, transform: Transform, cache: SatCache) -> Hit
    requires { Accepted a.now.size a.now.numbers.now a.now.links.now × Accepted b.now.size b.now.numbers.now b.now.links.now
        × (cache.index_a + 1 < a.now.size.half_edges) × (cache.index_b + 1 < b.now.size.half_edges) }
    ensures { cached_of result ≡ cached_edge_of a.now.size a.now.numbers.now a.now.links.now b.now.size b.now.numbers.now
        b.now.links.now transform cache }
{
    let ridge_a = ridge_of(a, cache.index_a as usize);
    let ridge_b = carried_ridge(transform, b, cache.index_b as usize);
    if !crosses(ridge_a, ridge_b) {
        return Ok(None);
    }
    let axis = axis_between(ridge_a, ridge_b);
    if dot(axis, sub(ridge_a.end, ridge_b.end)) > speculative_distance(a.size.unit) {
        return Ok(Some(empty_contact()));
    }
    let built = build_edge_contact(a, b, transform, neg(axis), cache.index_a, cache.index_b);
    served(a.size.unit, cache, Ok(built))
}
