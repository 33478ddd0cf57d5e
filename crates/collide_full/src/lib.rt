// The full search of hulls.rs: an axis search, and the contact that it picks. What it builds is in specs/Full.antt.
#![tactic(auto)]

ghost use Rattle.std.specs.Prelude.{◌≡◌, ◌<◌, Ok};
ghost use Rattle.hull_limits.specs.Transform.{Placed};
ghost use Rattle.hull.specs.Accepted.{Accepted};
ghost use Rattle.axis.specs.Ranges.{EdgeInRange};
ghost use Rattle.collide_outcome.specs.Told.{built_of};
ghost use Rattle.collide_full.specs.Full.{apart_built, tries_edge, pair_contact, contact_a, contact_b, winner_contact, instead_of, with_edge};
ghost use Rattle.collide_full.specs.Full.{found_contact, full_of};

use axis::{Axis, AxisApart, Found, Search, compute_separating_axis};
use clip_corners::Corners;
use collide_outcome::{Build, Refusal};
use contacts::edge::build_edge_contact;
use contacts::face::{build_face_a_contact, build_face_b_contact};
use hull_links::Hull;
use manifold::SatCache;
use manifold::bits::{bits_of, float_of};
use units::linear_slop;
use vector::Transform;

// The hulls are apart: no points, and the axis in the cache.
fn apart_built(apart: AxisApart) -> Build
    ensures { built_of (Ok result) ≡ apart_built apart }
{
    Build {
        contact: None,
        cache: SatCache {
            separation: bits_of(apart.separation),
            kind: u8::from(apart.kind),
            index_a: apart.index_a,
            index_b: apart.index_b,
            hit: 0,
        },
    }
}

// Whether the pair of edges is to be tried beside what the face made, in hulls of this unit.
fn tries_edge(unit: usize, build: Build, edge: Axis) -> bool
    ensures { result ≡ tries_edge unit (built_of (Ok build)) edge }
{
    let Some(contact) = build.contact else {
        return true;
    };
    contact.count == 0 || edge.separation > float_of(build.cache.separation) + linear_slop(unit)
}

// The contact of a pair of edges along its axis.
fn pair_contact(a: &Hull, b: &Hull, transform: Transform, edge: Axis) -> Build
    requires { Accepted a.now.size a.now.numbers.now a.now.links.now × Accepted b.now.size b.now.numbers.now b.now.links.now
        × (edge.index_a < a.now.size.half_edges) × (edge.index_b < b.now.size.half_edges) }
    ensures { built_of (Ok result) ≡ pair_contact a.now.size a.now.numbers.now a.now.links.now b.now.size b.now.numbers.now
        b.now.links.now transform edge }
{
    build_edge_contact(a, b, transform, edge.normal, edge.index_a, edge.index_b)
}

// The contact of an axis of face A.
fn contact_a(
    a: &Hull,
    b: &Hull,
    transform: Transform,
    axis: Axis,
    corners: &mut Corners,
) -> Result<Build, Refusal>
    requires { Accepted a.now.size a.now.numbers.now a.now.links.now × Accepted b.now.size b.now.numbers.now b.now.links.now
        × (axis.index_a < a.now.size.faces) }
    ensures { built_of result ≡ contact_a a.now.size a.now.numbers.now a.now.links.now b.now.size b.now.numbers.now
        b.now.links.now transform axis }
{
    build_face_a_contact(a, b, transform, axis.index_a, axis.index_b, corners)
}

// The contact of an axis of face B. Not one function with face A: the numbers of the axis change places.
fn contact_b(
    a: &Hull,
    b: &Hull,
    transform: Transform,
    axis: Axis,
    corners: &mut Corners,
) -> Result<Build, Refusal>
    requires { Accepted a.now.size a.now.numbers.now a.now.links.now × Accepted b.now.size b.now.numbers.now b.now.links.now
        × (axis.index_b < b.now.size.faces) }
    ensures { built_of result ≡ contact_b a.now.size a.now.numbers.now a.now.links.now b.now.size b.now.numbers.now
        b.now.links.now transform axis }
{
    build_face_b_contact(a, b, transform, axis.index_b, axis.index_a, corners)
}

// Face A wins only if strictly above face B.
fn winner_contact(
    a: &Hull,
    b: &Hull,
    transform: Transform,
    face_a: Axis,
    face_b: Axis,
    corners: &mut Corners,
) -> Result<Build, Refusal>
    requires { Accepted a.now.size a.now.numbers.now a.now.links.now × Accepted b.now.size b.now.numbers.now b.now.links.now
        × (face_a.index_a < a.now.size.faces) × (face_b.index_b < b.now.size.faces) }
    ensures { built_of result ≡ winner_contact a.now.size a.now.numbers.now a.now.links.now b.now.size b.now.numbers.now
        b.now.links.now transform face_a face_b }
{
    if face_a.separation > face_b.separation {
        contact_a(a, b, transform, face_a, corners)
    } else {
        contact_b(a, b, transform, face_b, corners)
    }
}

// The pair's contact in place of the face's, where it is to be tried and made its one point.
fn instead(a: &Hull, b: &Hull, transform: Transform, build: Build, edge: Axis) -> Build
    requires { Accepted a.now.size a.now.numbers.now a.now.links.now × Accepted b.now.size b.now.numbers.now b.now.links.now
        × (edge.index_a < a.now.size.half_edges) × (edge.index_b < b.now.size.half_edges) }
    ensures { built_of (Ok result) ≡ instead_of a.now.size a.now.numbers.now a.now.links.now b.now.size b.now.numbers.now
        b.now.links.now transform (built_of (Ok build)) edge }
{
    if !tries_edge(a.size.unit, build, edge) {
        return build;
    }
    let pair = pair_contact(a, b, transform, edge);
    if pair.contact.is_some() {
        return pair;
    }
    build
}

// What the pair of edges, if there is one, makes of the face contact.
fn with_edge(a: &Hull, b: &Hull, transform: Transform, build: Build, edge: Option<Axis>) -> Build
    requires { Accepted a.now.size a.now.numbers.now a.now.links.now × Accepted b.now.size b.now.numbers.now b.now.links.now
        × EdgeInRange a.now.size b.now.size edge }
    ensures { built_of (Ok result) ≡ with_edge a.now.size a.now.numbers.now a.now.links.now b.now.size b.now.numbers.now
        b.now.links.now transform (built_of (Ok build)) edge }
{
    match edge {
        Some(pair) => instead(a, b, transform, build, pair),
        None => build,
    }
}

// What was found becomes a contact; a refusal that the face contact met stays one.
fn found_contact(
    a: &Hull,
    b: &Hull,
    transform: Transform,
    found: Found,
    corners: &mut Corners,
) -> Result<Build, Refusal>
    requires { Accepted a.now.size a.now.numbers.now a.now.links.now × Accepted b.now.size b.now.numbers.now b.now.links.now
        × (found.face_a.index_a < a.now.size.faces) × (found.face_b.index_b < b.now.size.faces)
        × EdgeInRange a.now.size b.now.size found.edge }
    ensures { built_of result ≡ found_contact a.now.size a.now.numbers.now a.now.links.now b.now.size b.now.numbers.now
        b.now.links.now transform found.face_a found.face_b found.edge }
{
    let build = winner_contact(a, b, transform, found.face_a, found.face_b, corners)?;
    Ok(with_edge(a, b, transform, build, found.edge))
}

// The full search: it stops at the first new best that is strictly above the speculative distance.
pub fn full_search(
    a: &Hull,
    b: &Hull,
    transform: Transform,
    corners: &mut Corners,
) -> Result<Build, Refusal>
    requires { Accepted a.now.size a.now.numbers.now a.now.links.now × Accepted b.now.size b.now.numbers.now b.now.links.now × Placed transform }
    ensures { built_of result ≡ full_of a.now.size a.now.numbers.now a.now.links.now b.now.size b.now.numbers.now
        b.now.links.now transform }
{
    match compute_separating_axis(a, b, transform) {
        Search::Apart(apart) => Ok(apart_built(apart)),
        Search::Found(found) => found_contact(a, b, transform, found, corners),
    }
}
