// The sides of a face, worked out sixteen at a time before they cut, so that their roots do not wait for each other. What a batch holds is in
// specs/inner/Batches.antt.
ghost use Rattle.std.specs.Prelude.{◌≡◌, ◌<◌};
ghost use Rattle.hull.specs.Accepted.{Accepted};
ghost use Rattle.clip.specs.Candidates.{side_plane_of};
ghost use Rattle.clip.specs.inner.Batches.{planes_with, sides_from, Followed};

use hull_links::Hull;
use vector::arithmetic::{cross, normalize, sub};
use vector::shape::make_plane_from_normal_and_point;
use vector::{Plane, Vec3};

// The plane that stands on half-edge e of a face with this normal, and looks away from the face.
fn side_plane(hull: &Hull, e: usize, normal: Vec3) -> Plane
    requires { Accepted hull.now.size hull.now.numbers.now hull.now.links.now × (e < hull.now.size.half_edges) }
    ensures { result ≡ side_plane_of hull.now.size hull.now.numbers.now hull.now.links.now normal e }
{
    let ahead = hull.next_of(e);
    let vertex1 = hull::vertex_at(hull, hull.origin_of(e));
    let vertex2 = hull::vertex_at(hull, hull.origin_of(ahead));
    let tangent = normalize(sub(vertex2, vertex1));
    make_plane_from_normal_and_point(cross(tangent, normal), vertex1)
}

// The sides from half-edge `first` on, until `start` comes again, sixteen of them at most.
pub fn fill_sides(hull: &Hull, start: usize, first: usize, normal: Vec3, sides: &mut [Plane; 16])
    requires { Accepted hull.now.size hull.now.numbers.now hull.now.links.now × (first < hull.now.size.half_edges) }
    ensures { sides.new ≡ planes_with sides.old 0 (sides_from hull.now.size hull.now.numbers.now hull.now.links.now normal start
        first) }
{
    let mut e = first;
    for side in sides.iter_mut() {
        *side = side_plane(hull, e, normal);
        e = hull.next_of(e);
        if e == start {
            return;
        }
    }
}

// Behind plane k comes the next of the batch; behind the sixteenth the first of a new batch, the sides from half-edge e on.
pub fn next_side(
    hull: &Hull,
    start: usize,
    e: usize,
    normal: Vec3,
    sides: &mut [Plane; 16],
    k: usize,
) -> usize
    requires { Accepted hull.now.size hull.now.numbers.now hull.now.links.now × (e < hull.now.size.half_edges) × (k < 16) }
    ensures { Followed sides.old k (sides_from hull.now.size hull.now.numbers.now hull.now.links.now normal start e)
        sides.new result }
{
    if k < 15 {
        return k + 1;
    }
    fill_sides(hull, start, e, normal, sides);
    0
}
