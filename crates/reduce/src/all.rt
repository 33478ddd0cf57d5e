// All of four or fewer candidates.
ghost use Rattle.std.specs.Prelude.{◌≡◌, ◌≤◌};
ghost use Rattle.reduce_scores.specs.Images.{images_in};
ghost use Rattle.reduce_points.specs.Points.{placed, contact_of};

use clip_corners::Corners;
use manifold::Contact;
use manifold::records::empty_contact;
use reduce_points::{four_points, one_point, point_of, three_points, two_points};
use reduce_scores::images::image_at;
use vector::Vec3;

// The contact of the images of the n candidates from corner `from` on, in order.
pub fn all_points(corners: &Corners, from: usize, n: usize, normal: Vec3) -> Contact
    requires { (from ≤ 64) × (n ≤ 4) }
    ensures { result ≡ contact_of normal (placed (images_in normal corners.now.numbers corners.now.tags from n)) }
{
    if n == 0 {
        return empty_contact();
    }
    let p1 = point_of(0, image_at(corners, from, normal));
    if n == 1 {
        return one_point(p1, normal);
    }
    let p2 = point_of(1, image_at(corners, from + 1, normal));
    if n == 2 {
        return two_points(p1, p2, normal);
    }
    let p3 = point_of(2, image_at(corners, from + 2, normal));
    if n == 3 {
        return three_points(p1, p2, p3, normal);
    }
    let p4 = point_of(3, image_at(corners, from + 3, normal));
    four_points(p1, p2, p3, p4, normal)
}
