// One cut of a polygon by a plane, from clip.rs: what lies on or below the plane stays, and new corners stand where the outline meets it.
// What each edge of the polygon puts out, and the whole cut as a list, is in specs/Cut.antt.
#![tactic(auto)]

ghost use Rattle.std.specs.Prelude.{◌≡◌, List, ℕ, ◌≤◌, ◌<◌};
ghost use Rattle.clip_cut.specs.Cut.{meeting_of, leaving_of, entering_of, put_out_of, cut_of, all_kept};
ghost use Rattle.clip_corners.specs.Places.{SideBySide, Half, corners_in, Laid};
ghost use Rattle.clip_corners.specs.Standing.{Standing};

use clip_corners::{Corners, Kept};
use manifold::{ClipVertex, FeaturePair};
use vector::arithmetic::{mul_add, sub};
use vector::shape::plane_separation;
use vector::{Plane, Vec3};

// An edge of a polygon from v1 to v2, which lie at the distances d1 and d2 from a plane that cuts. The plane stands on half-edge `edge` of the face with
// plane `reference`.
#[derive(Clone, Copy)]
struct Crossing {
    v1: ClipVertex,
    d1: f32,
    v2: ClipVertex,
    d2: f32,
    edge: u8,
    reference: Plane,
}

impl Crossing {
    // Where the edge meets the plane.
    fn meeting(&self) -> Vec3
        ensures { result ≡ meeting_of self.now.v1 self.now.d1 self.now.v2 self.now.d2 }
    {
        let fraction = self.d1 / (self.d1 - self.d2);
        mul_add(
            self.v1.position,
            fraction,
            sub(self.v2.position, self.v1.position),
        )
    }

    // The new corner where the edge leaves what is kept: tagged with v2's first edge and the edge that cuts.
    fn leaving(&self) -> ClipVertex
        ensures { result ≡ leaving_of self.now.edge self.now.reference self.now.v1 self.now.d1 self.now.v2 self.now.d2 }
    {
        let position = self.meeting();
        ClipVertex {
            position,
            separation: plane_separation(self.reference, position),
            pair: FeaturePair {
                owner1: self.v2.pair.owner1,
                index1: self.v2.pair.index1,
                owner2: 0,
                index2: self.edge,
            },
        }
    }

    // The new corner where the edge enters: tagged with the edge that cuts and v1's second edge.
    fn entering(&self) -> ClipVertex
        ensures { result ≡ entering_of self.now.edge self.now.reference self.now.v1 self.now.d1 self.now.v2 self.now.d2 }
    {
        let position = self.meeting();
        ClipVertex {
            position,
            separation: plane_separation(self.reference, position),
            pair: FeaturePair {
                owner1: 0,
                index1: self.edge,
                owner2: self.v1.pair.owner2,
                index2: self.v1.pair.index2,
            },
        }
    }

    // What the edge puts out, behind the k corners that stand from corner p on.
    fn put_out(&self, corners: &mut Corners, p: usize, k: usize) -> usize
        requires { (p ≤ 64) × (k < 128) }
        ensures { Laid corners.old.numbers corners.old.tags p k (put_out_of self.now.edge self.now.reference self.now.v1 self.now.d1
            self.now.v2 self.now.d2) corners.new.numbers corners.new.tags result }
    {
        let Crossing { d1, v2, d2, .. } = *self;
        if d1 <= 0.0 {
            if d2 <= 0.0 {
                return corners.put(p, k, v2);
            }
            if d2 > 0.0 {
                let v = self.leaving();
                return corners.put(p, k, v);
            }
            return k;
        }
        if d1 > 0.0 {
            if d2 <= 0.0 {
                let v = self.entering();
                let m = corners.put(p, k, v);
                return corners.put(p, m, v2);
            }
        }
        k
    }
}

// The cut of the polygon of n corners from corner p on, by a plane that stands on half-edge `edge` of the reference face. What it leaves stands from
// corner q on; the return says how many corners that is, and those past the 64th are not kept.
pub fn clip_polygon(
    corners: &mut Corners,
    p: usize,
    n: usize,
    plane: Plane,
    edge: u8,
    reference: Plane,
    q: usize,
) -> usize
    requires { SideBySide p q × (0 < n) × (n ≤ 64) }
    ensures { Laid corners.old.numbers corners.old.tags q 0
        (cut_of plane edge reference (corners_in corners.old.numbers corners.old.tags p n)) corners.new.numbers corners.new.tags result }
{
    let mut v1 = corners.corner_at(p + (n - 1));
    let mut d1 = plane_separation(plane, v1.position);
    let mut k = 0;
    for i in 0..n {
        let v2 = corners.corner_at(p + i);
        let d2 = plane_separation(plane, v2.position);
        let crossing = Crossing {
            v1,
            d1,
            v2,
            d2,
            edge,
            reference,
        };
        k = crossing.put_out(corners, q, k);
        v1 = v2;
        d1 = d2;
    }
    k
}

// Whether a cut by this plane leaves the polygon of n corners from corner p on as it is: all its corners are kept. Whatever their tags, which are
// not read.
pub fn keeps_all(numbers: &[f32; 512], p: usize, n: usize, plane: Plane) -> bool
    requires { (p ≤ 64) × (n ≤ 64) }
    ensures { (t : List ℕ) → result ≡ all_kept plane (corners_in numbers.now t p n) }
{
    for i in 0..n {
        let a = 4 * (p + i);
        let position = Vec3 {
            x: numbers[a],
            y: numbers[a + 1],
            z: numbers[a + 2],
        };
        let d = plane_separation(plane, position);
        if !(d <= 0.0) {
            return false;
        }
    }
    true
}

// The cut of the polygon of n corners from corner p on, the first of one half of the lists. A cut that keeps every corner is left out; what any other
// leaves stands in the other half.
pub fn cut_side(
    corners: &mut Corners,
    p: usize,
    n: usize,
    plane: Plane,
    edge: u8,
    reference: Plane,
) -> Kept
    requires { Half p × (0 < n) × (n ≤ 64) }
    ensures { Standing corners.new.numbers corners.new.tags (cut_of plane edge reference (corners_in corners.old.numbers corners.old.tags p n)) result
        × Half result.from }
{
    if keeps_all(&corners.numbers, p, n, plane) {
        return Kept { from: p, count: n };
    }
    let q = 64 - p;
    let m = clip_polygon(corners, p, n, plane, edge, reference, q);
    Kept { from: q, count: m }
}
