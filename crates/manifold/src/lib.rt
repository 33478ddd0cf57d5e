// The records that contacts are made of, tags of points, and the way between floats and their bits. From manifold/types.rs; `flip_pair` from clip.rs.
// C reads and writes the records, so kinds, owners, refusals and marks are numbers in them, the place of an unused point is 255 and no `None`, and the
// points are an array with a count beside it.
#![tactic(auto)]

pub mod bits;
pub mod kinds;
pub mod pairs;
pub mod records;

use vector::Vec3;

// The most points of a contact.
pub const MAX_MANIFOLD_POINTS: usize = 4;

// The axis that the last call found: how far apart, its kind and what it joins, and whether it served again.
// The separation is a bit pattern, since a NaN's bits must be kept.
#[repr(C)]
#[derive(Clone, Copy)]
pub struct SatCache {
    pub separation: u32,
    pub kind: u8,
    pub index_a: u8,
    pub index_b: u8,
    pub hit: u8,
}

// The tag of a point: the two edges that meet in it, each with the shape that owns it (0 is A, 1 is B).
#[repr(C)]
#[derive(Clone, Copy)]
pub struct FeaturePair {
    pub owner1: u8,
    pub index1: u8,
    pub owner2: u8,
    pub index2: u8,
}

// A corner of the polygon that is being cut, and its distance from the reference face.
#[repr(C)]
#[derive(Clone, Copy)]
pub struct ClipVertex {
    pub position: Vec3,
    pub separation: f32,
    pub pair: FeaturePair,
}

// A point of a contact. `place` says which candidate it came from: the candidate's place in the list as it stood before any pick, 0 for the one
// candidate of a pair of edges, 255 where there is no point.
#[repr(C)]
#[derive(Clone, Copy)]
pub struct Point {
    pub position: Vec3,
    pub separation: f32,
    pub pair: FeaturePair,
    pub place: u8,
}

// At most four points; those at and above the count are unused, and the normal is zero where the count is 0.
#[repr(C)]
#[derive(Clone, Copy)]
pub struct Contact {
    pub points: [Point; MAX_MANIFOLD_POINTS],
    pub normal: Vec3,
    pub count: u8,
}

// The status is 0, or the number of the refusal. The mark `retired` is 1 where the call was accepted, its capacity was 4 or more and the cache that it read
// has a retired type (6, 7 or 8), else 0.
#[repr(C)]
#[derive(Clone, Copy)]
pub struct Outcome {
    pub status: u8,
    pub contact: Contact,
    pub retired: u8,
}

// What one call returns, and the next cache.
#[repr(C)]
#[derive(Clone, Copy)]
pub struct Answer {
    pub outcome: Outcome,
    pub cache: SatCache,
}
