// The contact of up to four points, unused ones above their number. What it holds is in specs/Points.antt.
#![tactic(auto)]

ghost use Rattle.std.specs.Prelude.{[], ◌∷◌, ◌≡◌};
ghost use Rattle.reduce_points.specs.Points.{point_of, contact_of};

use manifold::records::unused_point;
use manifold::{ClipVertex, Contact, Point};
use vector::Vec3;

// The point of the image whose candidate stands at this place.
pub fn point_of(place: u8, v: ClipVertex) -> Point
    ensures { result ≡ point_of place v }
{
    Point {
        position: v.position,
        separation: v.separation,
        pair: v.pair,
        place,
    }
}

// The contact of one point, and of two, three and four. Each is one literal; one function for all would copy a list of any length in a loop.
pub fn one_point(p1: Point, normal: Vec3) -> Contact
    ensures { result ≡ contact_of normal (p1 ∷ []) }
{
    let unused = unused_point();
    Contact {
        points: [p1, unused, unused, unused],
        normal,
        count: 1,
    }
}

pub fn two_points(p1: Point, p2: Point, normal: Vec3) -> Contact
    ensures { result ≡ contact_of normal (p1 ∷ p2 ∷ []) }
{
    let unused = unused_point();
    Contact {
        points: [p1, p2, unused, unused],
        normal,
        count: 2,
    }
}

pub fn three_points(p1: Point, p2: Point, p3: Point, normal: Vec3) -> Contact
    ensures { result ≡ contact_of normal (p1 ∷ p2 ∷ p3 ∷ []) }
{
    let unused = unused_point();
    Contact {
        points: [p1, p2, p3, unused],
        normal,
        count: 3,
    }
}

pub fn four_points(p1: Point, p2: Point, p3: Point, p4: Point, normal: Vec3) -> Contact
    ensures { result ≡ contact_of normal (p1 ∷ p2 ∷ p3 ∷ p4 ∷ []) }
{
    Contact {
        points: [p1, p2, p3, p4],
        normal,
        count: 4,
    }
}
