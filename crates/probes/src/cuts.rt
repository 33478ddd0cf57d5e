// Doors to the cuts and the picks.
ghost use Rattle.std.specs.Prelude.{◌≡◌, ◌*◌, ◌≤◌, ◌<◌};
ghost use Rattle.vector.specs.Awaited.{arbitrary_perp_of};
ghost use Rattle.units.specs.Limits.{speculative};
ghost use Rattle.hull.specs.Accepted.{Accepted};
ghost use Rattle.clip_cut.specs.Cut.{cut_of};
ghost use Rattle.clip_corners.specs.Places.{SideBySide, corner_in, corners_in, Laid};
ghost use Rattle.clip_corners.specs.Standing.{Standing};
ghost use Rattle.reduce_scores.specs.Images.{image_of, images_in, least_separation_of, touching_of};
ghost use Rattle.reduce_points.specs.Points.{contact_of};
ghost use Rattle.reduce.specs.Reduce.{first_picks, points_of};
ghost use Rattle.clip_incident.specs.Incident.{incident_face_of};
ghost use Rattle.clip.specs.Candidates.{built_of, candidates_of};

use clip_corners::{Corners, Kept};
use hull_links::{Hull, HullSize};
use manifold::{ClipVertex, Contact};
use vector::{Plane, Transform, Vec3};

#[unsafe(no_mangle)]
pub extern "C" fn probe_clip_polygon(
    corners: &mut Corners,
    p: usize,
    n: usize,
    plane: Plane,
    edge: u8,
    reference: Plane,
    q: usize,
) -> usize
    requires { SideBySide p q × (0 < n) × (n ≤ 64) }
    ensures { Laid corners.old.numbers corners.old.tags q 0
        (cut_of plane edge reference (corners_in corners.old.numbers corners.old.tags p n)) corners.new.numbers corners.new.tags result }
{
    clip_cut::clip_polygon(corners, p, n, plane, edge, reference, q)
}

#[unsafe(no_mangle)]
pub extern "C" fn probe_image_at(corners: &Corners, p: usize, normal: Vec3) -> ClipVertex
    requires { p < 128 }
    ensures { result ≡ image_of normal (corner_in corners.now.numbers corners.now.tags p) }
{
    reduce_scores::images::image_at(corners, p, normal)
}

#[unsafe(no_mangle)]
pub extern "C" fn probe_least_separation(corners: &Corners, from: usize, n: usize) -> f32
    requires { (from ≤ 64) × (n ≤ 64) }
    ensures { result ≡ least_separation_of (corners_in corners.now.numbers corners.now.tags from n) }
{
    reduce_scores::images::least_separation(corners, from, n)
}

#[unsafe(no_mangle)]
pub extern "C" fn probe_touching(unit: usize, count: usize, least: f32) -> bool
    ensures { result ≡ touching_of (speculative unit) count least }
{
    reduce_scores::images::touching(units::speculative_distance(unit), count, least)
}

#[unsafe(no_mangle)]
pub extern "C" fn probe_reduce_manifold_points(
    unit: usize,
    corners: &Corners,
    from: usize,
    n: usize,
    normal: Vec3,
) -> Contact
    requires { (from ≤ 64) × (n ≤ 64) }
    ensures { let images = images_in normal corners.now.numbers corners.now.tags from n in
        result ≡ contact_of normal (points_of (first_picks (speculative unit) (arbitrary_perp_of normal) normal images) images) }
{
    reduce::reduce_manifold_points(corners, from, n, normal, unit)
}

// So many reductions of the same candidates, and how many points they leave together.
#[unsafe(no_mangle)]
pub extern "C" fn probe_reduce_rounds(
    unit: usize,
    corners: &Corners,
    from: usize,
    n: usize,
    normal: Vec3,
    rounds: usize,
) -> usize
    requires { (from ≤ 64) × (n ≤ 64) × (rounds ≤ 65536) }
    ensures { let images = images_in normal corners.now.numbers corners.now.tags from n in
        result ≡ rounds * (contact_of normal (points_of (first_picks (speculative unit) (arbitrary_perp_of normal) normal images) images)).count }
{
    let mut total = 0;
    for _ in 0..rounds {
        let contact = reduce::reduce_manifold_points(corners, from, n, normal, unit);
        total += usize::from(contact.count);
    }
    total
}

#[unsafe(no_mangle)]
pub extern "C" fn probe_find_incident_face(
    numbers: &[f32],
    links: &[u8],
    size: HullSize,
    normal: Vec3,
    vertex: usize,
) -> usize
    requires { Accepted size numbers.now links.now × (vertex < size.vertices) }
    ensures { result ≡ incident_face_of size numbers.now links.now normal vertex }
{
    let hull = Hull {
        numbers,
        links,
        size,
    };
    clip_incident::find_incident_face(&hull, normal, vertex)
}

#[unsafe(no_mangle)]
pub extern "C" fn probe_build_polygon(
    numbers: &[f32],
    links: &[u8],
    size: HullSize,
    transform: Transform,
    face: usize,
    reference: Plane,
    corners: &mut Corners,
) -> usize
    requires { Accepted size numbers.now links.now × (face < size.faces) }
    ensures { Laid corners.old.numbers corners.old.tags 0 0 (built_of size numbers.now links.now transform
        reference face) corners.new.numbers corners.new.tags result }
{
    let hull = Hull {
        numbers,
        links,
        size,
    };
    clip::build_polygon(&hull, transform, face, reference, corners)
}

#[unsafe(no_mangle)]
pub extern "C" fn probe_candidates(
    numbers_a: &[f32],
    links_a: &[u8],
    size_a: HullSize,
    numbers_b: &[f32],
    links_b: &[u8],
    size_b: HullSize,
    transform: Transform,
    face: usize,
    vertex: usize,
    corners: &mut Corners,
) -> Kept
    requires { Accepted size_a numbers_a.now links_a.now × Accepted size_b numbers_b.now links_b.now
        × (face < size_a.faces) × (vertex < size_b.vertices) }
    ensures { Standing corners.new.numbers corners.new.tags (candidates_of size_a numbers_a.now links_a.now
        size_b numbers_b.now links_b.now transform face vertex) result }
{
    let a = Hull {
        numbers: numbers_a,
        links: links_a,
        size: size_a,
    };
    let b = Hull {
        numbers: numbers_b,
        links: links_b,
        size: size_b,
    };
    clip::candidates(&a, &b, transform, face, vertex, corners)
}
