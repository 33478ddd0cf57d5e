// The face phase of separating_axis.rs: each face of one hull against the vertices of the other. One loop serves A's faces and B's.
#![tactic(auto)]

pub mod support;

ghost use Rattle.std.specs.Prelude.{◌≡◌, ◌<◌};
ghost use Rattle.hull_links.specs.Links.{padded};
ghost use Rattle.hull.specs.Numbers.{plane_at};
ghost use Rattle.axis_faces.specs.Faces.{bias_of, direction_of, face_axis_of, face_separation_of, face_taken_of, face_of, face_search_of};
ghost use Rattle.axis_faces.specs.inner.Ready.{Facing, FacesReady};

use crate::support::get_support_wide;
use axis_best::Lead;
use hull_links::Hull;
use vector::Vec3;
use vector::arithmetic::{abs, dot, neg};
use vector::shape::{aabb_center, aabb_extents};

// Whose faces are tried. What goes by it picks a value, and no step.
#[derive(Clone, Copy)]
pub enum Side {
    A,
    B,
}

// The axis of one face: its direction in A's frame, how far the other hull is above the face along it, and the support vertex.
#[derive(Clone, Copy)]
pub struct Face {
    pub normal: Vec3,
    pub separation: f32,
    pub vertex: usize,
}

// What one search over faces keeps for all of them: whose they are, what turns their normals into the other hull's frame, B's position in A's frame, and
// the middle and the half-sizes of the other hull's box.
#[derive(Clone, Copy)]
struct View {
    side: Side,
    turn: [[f32; 3]; 3],
    position: Vec3,
    center: Vec3,
    extents: Vec3,
}

impl View {
    // Where the other hull is looked for: against the normal, in its own frame.
    fn direction(&self, normal: Vec3) -> Vec3
        ensures { result ≡ direction_of self.now.turn normal }
    {
        neg(rotation::mul_mv(self.turn, normal))
    }

    // What makes every value of the support search positive.
    fn bias(&self, d: Vec3) -> f32
        ensures { result ≡ bias_of d self.now.center self.now.extents }
    {
        dot(d, self.center) + 1.0625 * dot(abs(d), self.extents)
    }

    // From A to B, in A's frame: for A's faces the normal as it stands, for B's the direction.
    fn axis(&self, normal: Vec3, d: Vec3) -> Vec3
        ensures { result ≡ face_axis_of self.now.side normal d }
    {
        match self.side {
            Side::A => normal,
            Side::B => d,
        }
    }

    // How far the other hull is above the face along the axis, from how far its support vertex lies along the direction.
    fn separation(&self, axis: Vec3, offset: f32, support: f32) -> f32
        ensures { result ≡ face_separation_of axis self.now.position offset support }
    {
        dot(axis, self.position) - offset - support
    }

    // Face f of the hull against the vertices of the other.
    fn face_at(&self, hull: &Hull, other: &Hull, f: usize) -> Face
        requires { FacesReady self.now.turn self.now.position hull.now.size hull.now.numbers.now other.now.size other.now.numbers.now
            self.now.center self.now.extents × (f < hull.now.size.faces) }
        ensures { (result ≡ face_of self.now.side self.now.turn self.now.position other.now.size other.now.numbers.now
            (plane_at hull.now.size hull.now.numbers.now f)) × (result.vertex < padded other.now.size) }
    {
        let plane = hull::plane_at(hull, f);
        let d = self.direction(plane.normal);
        let vertex = get_support_wide(self.bias(d), d, other);
        let support = dot(d, hull::vertex_at(other, vertex));
        let normal = self.axis(plane.normal, d);
        Face {
            normal,
            separation: self.separation(normal, plane.offset, support),
            vertex,
        }
    }

    // Face f takes the lead where it is strictly better. For A's faces the face is A's number and the vertex B's; for B's faces the other way round.
    fn taken(&self, unit: usize, face: Face, f: usize, lead: Lead) -> Lead
        requires { (f < 128) × (face.vertex < 128) }
        ensures { result ≡ face_taken_of self.now.side unit face f lead }
    {
        let number = f as u8;
        let vertex = face.vertex as u8;
        let normal = face.normal;
        match self.side {
            Side::A => axis_best::better(unit, normal, face.separation, number, vertex, lead),
            Side::B => axis_best::better(unit, normal, face.separation, vertex, number, lead),
        }
    }

    fn search(&self, hull: &Hull, other: &Hull) -> Lead
        requires { FacesReady self.now.turn self.now.position hull.now.size hull.now.numbers.now other.now.size other.now.numbers.now
            self.now.center self.now.extents }
        ensures { result ≡ face_search_of self.now.side self.now.turn self.now.position hull.now.size hull.now.numbers.now
            other.now.size other.now.numbers.now }
    {
        let mut lead = axis_best::none();
        for f in 0..hull.size.faces {
            let face = self.face_at(hull, other, f);
            lead = self.taken(hull.size.unit, face, f, lead);
            if lead.apart {
                return lead;
            }
        }
        lead
    }
}

// The faces of the hull against the vertices of the other. `turn` carries a normal into the other hull's frame.
pub fn search_faces(
    side: Side,
    turn: [[f32; 3]; 3],
    position: Vec3,
    hull: &Hull,
    other: &Hull,
) -> Lead
    requires { Facing turn position hull.now.size hull.now.numbers.now other.now.size other.now.numbers.now }
    ensures { result ≡ face_search_of side turn position hull.now.size hull.now.numbers.now other.now.size other.now.numbers.now }
{
    let space = hull::box_of(other);
    let view = View {
        side,
        turn,
        position,
        center: aabb_center(space),
        extents: aabb_extents(space),
    };
    view.search(hull, other)
}
