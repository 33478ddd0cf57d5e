// The axis search of separating_axis.rs and its answer: the faces of A, the faces of B, then the pairs of edges.
#![tactic(auto)]

ghost use Rattle.std.specs.Prelude.{◌≡◌, true};
ghost use Rattle.rotation.specs.Rotation.{matrix_of};
ghost use Rattle.hull_limits.specs.Transform.{Placed};
ghost use Rattle.hull.specs.Accepted.{Accepted};
ghost use Rattle.axis.specs.Search.{axis_of, apart_of, edge_of, found_of, side_of_a, side_of_b, pairs_of, search_of};

use axis_best::Lead;
use axis_faces::Side;
use hull_links::Hull;
use manifold::kinds::AxisKind;
use vector::{Transform, Vec3};

// An axis in A's frame, from A to B: how far apart the hulls are along it, and the numbers of what it joins.
#[repr(C)]
#[derive(Clone, Copy)]
pub struct Axis {
    pub normal: Vec3,
    pub separation: f32,
    pub index_a: u8,
    pub index_b: u8,
}

// The hulls are apart along an axis of this kind.
#[derive(Clone, Copy)]
pub struct AxisApart {
    pub kind: AxisKind,
    pub separation: f32,
    pub index_a: u8,
    pub index_b: u8,
}

// The best face of each hull, and the best pair of edges, where there is one.
#[derive(Clone, Copy)]
pub struct Found {
    pub face_a: Axis,
    pub face_b: Axis,
    pub edge: Option<Axis>,
}

// No Result: neither answer is a failure.
#[derive(Clone, Copy)]
pub enum Search {
    Apart(AxisApart),
    Found(Found),
}

// The axis that leads, where one does.
fn axis_of(lead: Lead) -> Axis
    requires { lead.found ≡ true }
    ensures { result ≡ axis_of lead }
{
    Axis {
        normal: lead.normal,
        separation: lead.separation,
        index_a: lead.index_a,
        index_b: lead.index_b,
    }
}

fn edge_axis(lead: Lead) -> Option<Axis>
    ensures { result ≡ edge_of lead }
{
    if lead.found {
        Some(axis_of(lead))
    } else {
        None
    }
}

fn apart_along(kind: AxisKind, lead: Lead) -> Search
    ensures { result ≡ apart_of kind lead }
{
    Search::Apart(AxisApart {
        kind,
        separation: lead.separation,
        index_a: lead.index_a,
        index_b: lead.index_b,
    })
}

// Nothing stopped the search. Each side has a face, since the first face of a side always takes the lead.
fn found_along(a: Lead, b: Lead, edge: Lead) -> Search
    requires { (a.found ≡ true) × (b.found ≡ true) }
    ensures { result ≡ found_of a b edge }
{
    Search::Found(Found {
        face_a: axis_of(a),
        face_b: axis_of(b),
        edge: edge_axis(edge),
    })
}

// A's faces against B's vertices.
fn side_a(a: &Hull, b: &Hull, transform: Transform, r: [[f32; 3]; 3]) -> Lead
    requires { Accepted a.now.size a.now.numbers.now a.now.links.now × Accepted b.now.size b.now.numbers.now b.now.links.now × Placed transform
        × (r ≡ matrix_of transform.q) }
    ensures { result ≡ side_of_a a.now.size a.now.numbers.now b.now.size b.now.numbers.now transform }
{
    axis_faces::search_faces(Side::A, rotation::transpose(r), transform.p, a, b)
}

// B's faces against A's vertices. Not one function with A's: A's normals go by the transpose, and the hulls change places.
fn side_b(a: &Hull, b: &Hull, transform: Transform, r: [[f32; 3]; 3]) -> Lead
    requires { Accepted a.now.size a.now.numbers.now a.now.links.now × Accepted b.now.size b.now.numbers.now b.now.links.now × Placed transform
        × (r ≡ matrix_of transform.q) }
    ensures { result ≡ side_of_b a.now.size a.now.numbers.now b.now.size b.now.numbers.now transform }
{
    axis_faces::search_faces(Side::B, r, transform.p, b, a)
}

// A's edges against B's.
fn edge_pairs(a: &Hull, b: &Hull, transform: Transform, r: [[f32; 3]; 3]) -> Lead
    requires { Accepted a.now.size a.now.numbers.now a.now.links.now × Accepted b.now.size b.now.numbers.now b.now.links.now
        × (r ≡ matrix_of transform.q) }
    ensures { result ≡ pairs_of a.now.size a.now.numbers.now a.now.links.now b.now.size b.now.numbers.now b.now.links.now transform }
{
    axis_pairs::search_edges(a, b, r, transform.p)
}

// The hulls are A and, placed in A's frame by the transform, B. The search stops at the first new best that is strictly above the speculative distance.
pub fn compute_separating_axis(a: &Hull, b: &Hull, transform: Transform) -> Search
    requires { Accepted a.now.size a.now.numbers.now a.now.links.now × Accepted b.now.size b.now.numbers.now b.now.links.now × Placed transform }
    ensures { result ≡ search_of a.now.size a.now.numbers.now a.now.links.now b.now.size b.now.numbers.now b.now.links.now transform }
{
    let r = rotation::make_matrix_from_quat(transform.q);
    let face_a = side_a(a, b, transform, r);
    if face_a.apart {
        return apart_along(AxisKind::FaceA, face_a);
    }
    let face_b = side_b(a, b, transform, r);
    if face_b.apart {
        return apart_along(AxisKind::FaceB, face_b);
    }
    let edge = edge_pairs(a, b, transform, r);
    if edge.apart {
        return apart_along(AxisKind::Edges, edge);
    }
    found_along(face_a, face_b, edge)
}
