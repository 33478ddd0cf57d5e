// The contact on a face: its candidates' images, reduced to four points. Face B is face A with the roles swapped, carried into A's frame.
ghost use Rattle.std.specs.Prelude.{◌≡◌, ◌≤◌, ◌<◌, Ok};
ghost use Rattle.hull.specs.Accepted.{Accepted};
ghost use Rattle.clip_corners.specs.Places.{corners_in};
ghost use Rattle.collide_outcome.specs.Told.{built_of};
ghost use Rattle.contacts.specs.Faces.{contact_on_a, on_face, face_a_of, face_b_of};

use crate::carried::carried;
use clip_corners::{Corners, Kept};
use collide_outcome::{Build, Refusal, missed, touched};
use hull_links::Hull;
use manifold::SatCache;
use manifold::kinds::AxisKind;
use reduce::reduce_manifold_points;
use reduce_scores::images::{least_separation, touching};
use units::speculative_distance;
use vector::{Transform, Vec3};

// The contact of the candidates of a face that are kept, in hulls of this unit.
fn on_face(corners: &Corners, kept: Kept, normal: Vec3, face: u8, vertex: u8, unit: usize) -> Build
    requires { (kept.from ≤ 64) × (kept.count ≤ 64) }
    ensures { let candidates = corners_in corners.now.numbers corners.now.tags kept.from kept.count in
        built_of (Ok result) ≡ on_face unit (contact_on_a unit normal candidates) 2 face vertex candidates }
{
    let least = least_separation(corners, kept.from, kept.count);
    if !touching(speculative_distance(unit), kept.count, least) {
        return missed();
    }
    let contact = reduce_manifold_points(corners, kept.from, kept.count, normal, unit);
    touched(contact, least, u8::from(AxisKind::FaceA), face, vertex)
}

// The contact on a face of A, where `vertex` is the vertex of B that is deepest below it. Refused are a vertex that B does not have and a 65th corner of
// a cut. The candidates are cut in the lent corners, and what these hold then is of no more use.
pub fn build_face_a_contact(
    a: &Hull,
    b: &Hull,
    transform: Transform,
    face: u8,
    vertex: u8,
    corners: &mut Corners,
) -> Result<Build, Refusal>
    requires { Accepted a.now.size a.now.numbers.now a.now.links.now × Accepted b.now.size b.now.numbers.now b.now.links.now
        × (face < a.now.size.faces) }
    ensures { built_of result ≡ face_a_of a.now.size a.now.numbers.now a.now.links.now b.now.size b.now.numbers.now
        b.now.links.now transform face vertex }
{
    let f = face as usize;
    let v = vertex as usize;
    if v >= b.size.vertices {
        return Err(Refusal::Vertex);
    }
    let kept = clip::candidates(a, b, transform, f, v, corners);
    if kept.count > 64 {
        return Err(Refusal::Corners);
    }
    let plane = hull::plane_at(a, f);
    Ok(on_face(corners, kept, plane.normal, face, vertex, a.size.unit))
}

// The contact on a face of B, where `vertex` is the vertex of A that is deepest below it.
pub fn build_face_b_contact(
    a: &Hull,
    b: &Hull,
    transform: Transform,
    face: u8,
    vertex: u8,
    corners: &mut Corners,
) -> Result<Build, Refusal>
    requires { Accepted a.now.size a.now.numbers.now a.now.links.now × Accepted b.now.size b.now.numbers.now b.now.links.now
        × (face < b.now.size.faces) }
    ensures { built_of result ≡ face_b_of a.now.size a.now.numbers.now a.now.links.now b.now.size b.now.numbers.now
        b.now.links.now transform face vertex }
{
    let inverse = rotation::invert_transform(transform);
    let built = build_face_a_contact(b, a, inverse, face, vertex, corners)?;
    match built.contact {
        None => Ok(built),
        Some(contact) => Ok(Build {
            contact: Some(carried(transform, contact)),
            cache: SatCache {
                kind: u8::from(AxisKind::FaceB),
                index_a: vertex,
                index_b: face,
                hit: 0,
                ..built.cache
            },
        }),
    }
}
