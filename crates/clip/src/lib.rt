// The candidates of a face contact, from clip.rs and hulls.rs: the face of hull B that lies flattest against a face of hull A, as a polygon in A's
// frame, cut by the sides of A's face one after the other. What the candidates are, as a list, is in specs/Candidates.antt.
#![tactic(auto)]

pub mod sides;

ghost use Rattle.std.specs.Prelude.{◌≡◌, ◌<◌};
ghost use Rattle.rotation.specs.Rotation.{Rows};
ghost use Rattle.hull_links.specs.Links.{face_ring};
ghost use Rattle.hull.specs.Numbers.{plane_at};
ghost use Rattle.hull.specs.Accepted.{Accepted};
ghost use Rattle.clip_corners.specs.Places.{Laid};
ghost use Rattle.clip_corners.specs.Standing.{Standing};
ghost use Rattle.clip.specs.Candidates.{corner_of, built_of, cut_round, candidates_of};

use crate::sides::{fill_sides, next_side};
use clip_corners::{Corners, Kept};
use clip_incident::find_incident_face;
use hull_links::Hull;
use manifold::ClipVertex;
use manifold::pairs::{FeatureOwner, make_feature_pair};
use vector::arithmetic::add;
use vector::shape::plane_separation;
use vector::{Plane, Transform, Vec3};

// The corner at the end of half-edge e, carried into the other frame; its tag is e and the half-edge after it.
fn corner(hull: &Hull, matrix: [[f32; 3]; 3], p: Vec3, e: usize, reference: Plane) -> ClipVertex
    requires { Accepted hull.now.size hull.now.numbers.now hull.now.links.now × (e < hull.now.size.half_edges) }
    ensures { result ≡ corner_of hull.now.size hull.now.numbers.now hull.now.links.now matrix p reference e }
{
    let ahead = hull.next_of(e);
    let end = hull.origin_of(ahead);
    let position = add(rotation::mul_mv(matrix, hull::vertex_at(hull, end)), p);
    ClipVertex {
        position,
        separation: plane_separation(reference, position),
        pair: make_feature_pair(
            FeatureOwner::ShapeB,
            e as u8,
            FeatureOwner::ShapeB,
            ahead as u8,
        ),
    }
}

// A face as a polygon in the other frame, from its stored edge, in `corners` from corner 0 on; the return says how many corners it has. A ring
// longer than 64 is read to 64.
pub fn build_polygon(
    hull: &Hull,
    transform: Transform,
    face: usize,
    reference: Plane,
    corners: &mut Corners,
) -> usize
    requires { Accepted hull.now.size hull.now.numbers.now hull.now.links.now × (face < hull.now.size.faces) }
    ensures { Laid corners.old.numbers corners.old.tags 0 0 (built_of hull.now.size hull.now.numbers.now hull.now.links.now transform
        reference face) corners.new.numbers corners.new.tags result }
{
    let matrix = rotation::make_matrix_from_quat(transform.q);
    let p = transform.p;
    let start = hull.face_edge(face);
    let mut e = start;
    let mut n = 0;
    // A walk along links: no index is counted, and `put` says how many corners stand.
    loop {
        let v = corner(hull, matrix, p, e, reference);
        n = corners.put(0, n, v);
        e = hull.next_of(e);
        if e == start {
            return n;
        }
        if n >= 64 {
            return n;
        }
    }
}

// A face of hull B as a polygon in A's frame, cut by the sides of a face of hull A in the order of its ring. A cut that leaves fewer than three
// corners, or more than 64, is the last. The sides are worked out before the polygon is laid, sixteen at a time. What stood in `corners` before
// does not matter.
pub fn clip_to_face(
    a: &Hull,
    face: usize,
    b: &Hull,
    transform: Transform,
    incident: usize,
    corners: &mut Corners,
) -> Kept
    requires { Accepted a.now.size a.now.numbers.now a.now.links.now × Accepted b.now.size b.now.numbers.now b.now.links.now
        × (face < a.now.size.faces) × (incident < b.now.size.faces) }
    ensures { Standing corners.new.numbers corners.new.tags (cut_round a.now.size a.now.numbers.now a.now.links.now face
        (face_ring a.now.size a.now.links.now face) (built_of b.now.size b.now.numbers.now b.now.links.now transform
        (plane_at a.now.size a.now.numbers.now face) incident)) result }
{
    let reference = hull::plane_at(a, face);
    let start = a.face_edge(face);
    let mut sides = [Plane {
        normal: Vec3 {
            x: 0.0,
            y: 0.0,
            z: 0.0,
        },
        offset: 0.0,
    }; 16];
    fill_sides(a, start, start, reference.normal, &mut sides);
    let mut n = build_polygon(b, transform, incident, reference, corners);
    let mut p = 0;
    let mut e = start;
    let mut k = 0;
    // A walk along links: no index is counted, and `next_side` says which plane is next.
    loop {
        let plane = sides[k];
        let kept = clip_cut::cut_side(corners, p, n, plane, e as u8, reference);
        if kept.count > 64 {
            return kept;
        }
        if kept.count < 3 {
            return kept;
        }
        e = a.next_of(e);
        if e == start {
            return kept;
        }
        p = kept.from;
        n = kept.count;
        k = next_side(a, start, e, reference.normal, &mut sides, k);
    }
}

// The candidates of the contact on a face of hull A, where `vertex` is the vertex of hull B that is deepest below it.
pub fn candidates(
    a: &Hull,
    b: &Hull,
    transform: Transform,
    face: usize,
    vertex: usize,
    corners: &mut Corners,
) -> Kept
    requires { Accepted a.now.size a.now.numbers.now a.now.links.now × Accepted b.now.size b.now.numbers.now b.now.links.now
        × (face < a.now.size.faces) × (vertex < b.now.size.vertices) }
    ensures { Standing corners.new.numbers corners.new.tags (candidates_of a.now.size a.now.numbers.now a.now.links.now
        b.now.size b.now.numbers.now b.now.links.now transform face vertex) result }
{
    let reference = hull::plane_at(a, face);
    let normal = rotation::inv_rotate_vector(transform.q, reference.normal);
    let incident = find_incident_face(b, normal, vertex);
    clip_to_face(a, face, b, transform, incident, corners)
}
