// The incident face: of the faces round a vertex, one beside the edge that lies flattest against a plane.
#![tactic(auto)]

ghost use Rattle.std.specs.Prelude.{◌≡◌, ◌<◌};
ghost use Rattle.hull.specs.Accepted.{Accepted};
ghost use Rattle.clip_incident.specs.Incident.{projection_of, flatter_of, flattest_of, lower_face_of, incident_face_of};

use hull::{plane_at, vertex_at};
use hull_links::Hull;
use vector::Vec3;
use vector::arithmetic::{dot, normalize, sub};
use vector::scalar::abs_float;

// A half-edge, and how far it lies along the normal. There is always one, the first of the fan at first: definition `flatter_of` holds it as a record of
// two numbers.
#[derive(Clone, Copy)]
pub struct Flattest {
    pub edge: usize,
    pub projection: f32,
}

// How far half-edge e, as a unit vector from `origin`, lies along the normal, either way.
fn projection(hull: &Hull, origin: Vec3, e: usize, normal: Vec3) -> f32
    requires { Accepted hull.now.size hull.now.numbers.now hull.now.links.now × (e < hull.now.size.half_edges) }
    ensures { result ≡ projection_of hull.now.size hull.now.numbers.now hull.now.links.now normal origin e }
{
    let twin = hull.twin_of(e);
    let end = vertex_at(hull, hull.origin_of(twin));
    abs_float(dot(normalize(sub(end, origin)), normal))
}

// Half-edge e takes the place of the flattest before it where it lies strictly less along the normal.
fn flatter(best: Flattest, e: usize, projection: f32) -> Flattest
    ensures { result ≡ flatter_of best e projection }
{
    if projection < best.projection {
        return Flattest {
            edge: e,
            projection,
        };
    }
    best
}

// The flattest half-edge of the fan of a vertex, the first of several.
fn flattest_edge(hull: &Hull, normal: Vec3, vertex: usize) -> usize
    requires { Accepted hull.now.size hull.now.numbers.now hull.now.links.now × (vertex < hull.now.size.vertices) }
    ensures { result ≡ flattest_of hull.now.size hull.now.numbers.now hull.now.links.now normal vertex }
{
    let start = hull.vertex_edge(vertex);
    let origin = vertex_at(hull, vertex);
    let mut best = Flattest {
        edge: start,
        projection: f32::MAX,
    };
    let mut e = start;
    // A walk along links: no index is counted.
    loop {
        best = flatter(best, e, projection(hull, origin, e, normal));
        let twin = hull.twin_of(e);
        e = hull.next_of(twin);
        if e == start {
            return best.edge;
        }
    }
}

// Of the two faces beside half-edge e, the one that looks more against the normal; the twin's at a tie.
fn lower_face(hull: &Hull, normal: Vec3, e: usize) -> usize
    requires { Accepted hull.now.size hull.now.numbers.now hull.now.links.now × (e < hull.now.size.half_edges) }
    ensures { result ≡ lower_face_of hull.now.size hull.now.numbers.now hull.now.links.now normal e }
{
    let face1 = hull.face_of(e);
    let face2 = hull.face_of(hull.twin_of(e));
    let plane1 = plane_at(hull, face1);
    let plane2 = plane_at(hull, face2);
    if dot(plane1.normal, normal) < dot(plane2.normal, normal) {
        return face1;
    }
    face2
}

// The incident face at a vertex for a reference face with this normal.
pub fn find_incident_face(hull: &Hull, normal: Vec3, vertex: usize) -> usize
    requires { Accepted hull.now.size hull.now.numbers.now hull.now.links.now × (vertex < hull.now.size.vertices) }
    ensures { result ≡ incident_face_of hull.now.size hull.now.numbers.now hull.now.links.now normal vertex }
{
    lower_face(hull, normal, flattest_edge(hull, normal, vertex))
}
