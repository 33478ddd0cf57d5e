// A contact carried from B's frame into A's. What it comes to is in specs/inner/Carried.antt.
ghost use Rattle.std.specs.Prelude.{◌≡◌};
ghost use Rattle.contacts.specs.inner.Carried.{carried_point, carried_if_used, carried_contact};

use manifold::pairs::flip_pair;
use manifold::records::unused_point;
use manifold::{Contact, Point};
use vector::arithmetic::{add, neg};
use vector::{Transform, Vec3};

// A point of B's frame in A's, its pair as A sees it; its candidate's place stays.
fn carried_point(matrix: [[f32; 3]; 3], p: Vec3, point: Point) -> Point
    ensures { result ≡ carried_point matrix p point }
{
    let none = unused_point().pair;
    let pair = flip_pair(point.pair).unwrap_or(none);
    Point {
        position: add(rotation::mul_mv(matrix, point.position), p),
        pair,
        ..point
    }
}

// Point i of a contact: carried below the count; at and above it unused, and left so.
fn carried_if_used(matrix: [[f32; 3]; 3], p: Vec3, count: u8, i: u8, point: Point) -> Point
    ensures { result ≡ carried_if_used matrix p count i point }
{
    if i < count {
        return carried_point(matrix, p, point);
    }
    point
}

// A contact of B's frame in A's, its normal turned so that it points from A to B.
pub fn carried(transform: Transform, contact: Contact) -> Contact
    ensures { result ≡ carried_contact transform contact }
{
    if contact.count == 0 {
        return contact;
    }
    let matrix = rotation::make_matrix_from_quat(transform.q);
    let p = transform.p;
    let n = contact.count;
    let normal = neg(rotation::mul_mv(matrix, contact.normal));
    let p0 = carried_if_used(matrix, p, n, 0, contact.points[0]);
    let p1 = carried_if_used(matrix, p, n, 1, contact.points[1]);
    let p2 = carried_if_used(matrix, p, n, 2, contact.points[2]);
    let p3 = carried_if_used(matrix, p, n, 3, contact.points[3]);
    Contact {
        points: [p0, p1, p2, p3],
        normal,
        count: n,
    }
}
