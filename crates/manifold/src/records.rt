// The records with nothing in them.
ghost use Rattle.std.specs.Prelude.{◌≡◌};
ghost use Rattle.manifold.specs.Records.{unused_point, empty_contact, empty_cache, hit_set};

use crate::{Contact, FeaturePair, Point, SatCache};
use vector::Vec3;

// No point: all zero, and a place that no candidate has.
pub fn unused_point() -> Point
    ensures { result ≡ unused_point }
{
    Point {
        position: Vec3 {
            x: 0.0,
            y: 0.0,
            z: 0.0,
        },
        separation: 0.0,
        pair: FeaturePair {
            owner1: 0,
            index1: 0,
            owner2: 0,
            index2: 0,
        },
        place: 255,
    }
}

pub fn empty_contact() -> Contact
    ensures { result ≡ empty_contact }
{
    Contact {
        points: [unused_point(); 4],
        normal: Vec3 {
            x: 0.0,
            y: 0.0,
            z: 0.0,
        },
        count: 0,
    }
}

pub fn empty_cache() -> SatCache
    ensures { result ≡ empty_cache }
{
    SatCache {
        separation: 0,
        kind: 0,
        index_a: 0,
        index_b: 0,
        hit: 0,
    }
}

// The cache as it is but for its hit: a number, as C reads it, since a narrower type would ask more of a caller.
pub fn hit_set(hit: u8, cache: SatCache) -> SatCache
    ensures { result ≡ hit_set hit cache }
{
    SatCache { hit, ..cache }
}
