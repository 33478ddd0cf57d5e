// The reduction to four points, from sat.rs. Nothing is moved while points are picked: where a pick's place is filled by the last candidate, the later
// searches read the last candidate there. So a place that is read is the candidate's own, in the list as it stood before any pick, and the point says
// it. What each point is, and which candidate, is in specs/Reduce.antt.
#![tactic(auto)]

pub mod all;
pub mod held;
pub mod places;
pub mod positions;
mod searches;

ghost use Rattle.std.specs.Prelude.{true, ◌≡◌, ◌≤◌, ◌<◌};
ghost use Rattle.std.specs.Float.{binary32};
ghost use Rattle.std.specs.Float.Ieee.{lt, of_bits};
ghost use Rattle.vector.specs.Awaited.{arbitrary_perp_of};
ghost use Rattle.units.specs.Limits.{speculative};
ghost use Rattle.manifold.specs.Records.{past_point};
ghost use Rattle.reduce_scores.specs.Images.{images_in};
ghost use Rattle.reduce_points.specs.Points.{placed, contact_of};
ghost use Rattle.reduce.specs.inner.Held.{Holds, images_of};
ghost use Rattle.reduce.specs.Reduce.{taken, tolerance, first_picks, points_of};

use crate::all::all_points;
use crate::held::{Images, hold};
use crate::places::{standing1, standing2, standing3};
use crate::positions::Positions;
use crate::searches::{first_search, fourth_search, second_search, third_search};
use clip_corners::Corners;
use manifold::Contact;
use manifold::records::empty_contact;
use reduce_points::{four_points, one_point, point_of, three_points, two_points};
use reduce_scores::first_three;
use units::speculative_distance;
use vector::Vec3;
use vector::awaited::arbitrary_perp;

// Up to four picks of more than four images. A second pick must reach the square of the speculative distance, which is `far`.
fn picked(images: &Images, direction: Vec3, far: f32) -> Contact
    requires { Holds images.now × (4 < images.now.n) × (lt (of_bits binary32 0) (tolerance far) ≡ true) }
    ensures { let normal = images.now.normal in
        result ≡ contact_of normal (taken past_point (first_picks far direction normal (images_of images.now)) (placed (images_of images.now))) }
{
    let n = images.n;
    let normal = images.normal;
    let Some(j1) = first_search(images, direction, far).index else {
        return empty_contact();
    };
    let v1 = images.at(j1);
    let p1 = point_of(j1 as u8, v1);
    let second = second_search(images, j1, v1.position);
    let Some(j2) = second.index else {
        return one_point(p1, normal);
    };
    if second.score < far * far {
        return one_point(p1, normal);
    }
    let place2 = standing1(n, j1, j2);
    let v2 = images.at(place2);
    let p2 = point_of(place2 as u8, v2);
    let Some(j3) = third_search(images, j1, j2, v1.position, v2.position, far).index else {
        return two_points(p1, p2, normal);
    };
    let place3 = standing2(n, j1, j2, j3);
    let v3 = images.at(place3);
    let p3 = point_of(place3 as u8, v3);
    let t = first_three(v1.position, v2.position, v3.position, normal);
    let Some(j4) = fourth_search(images, j1, j2, j3, t, far).index else {
        return three_points(p1, p2, p3, normal);
    };
    let place4 = standing3(n, j1, j2, j3, j4);
    let v4 = images.at(place4);
    let p4 = point_of(place4 as u8, v4);
    four_points(p1, p2, p3, p4, normal)
}

// At most four points of the n candidates from corner `from` on, each with its place: all of them, in order, where there are four or fewer. The first
// pick is the one farthest along a direction across the normal. `from` and `n` one by one and no `Kept`, as definition `images_in` and a probe take them.
pub fn reduce_manifold_points(
    corners: &Corners,
    from: usize,
    n: usize,
    normal: Vec3,
    unit: usize,
) -> Contact
    requires { (from ≤ 64) × (n ≤ 64) }
    ensures { let images = images_in normal corners.now.numbers corners.now.tags from n in
        result ≡ contact_of normal (points_of (first_picks (speculative unit) (arbitrary_perp_of normal) normal images) images) }
{
    if n <= 4 {
        return all_points(corners, from, n, normal);
    }
    let mut positions = Positions {
        x: [0.0; 64],
        y: [0.0; 64],
        z: [0.0; 64],
    };
    hold(corners, from, n, normal, &mut positions);
    let images = Images {
        positions: &positions,
        corners,
        from,
        n,
        normal,
    };
    picked(&images, arbitrary_perp(normal), speculative_distance(unit))
}
