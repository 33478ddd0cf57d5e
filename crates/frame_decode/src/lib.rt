// Values read from the bytes of a frame, the high byte first, by the place where they begin. What stands where is in specs/Fields.antt and, of a
// hull, in specs/Hulls.antt. The frame, and the place in it, stay two parameters: one frame is read at many places.
#![tactic(auto)]

pub mod hulls;

ghost use Rattle.std.specs.Prelude.{◌≡◌, ◌+◌, ◌≤◌, ◌<◌, length};
ghost use Rattle.frame_decode.specs.Fields.{number16_at, number32_at, capacity_at, float_at, vec_at, transform_at, pair_at, cache_at, size_at};
ghost use Rattle.frame_decode.specs.Hulls.{Sent};

use hull_links::HullSize;
use manifold::bits::float_of;
use manifold::{FeaturePair, SatCache};
use vector::{Quat, Transform, Vec3};

pub fn number16_at(frame: &[u8], at: usize) -> usize
    requires { at + 2 ≤ length frame.now }
    ensures { (result ≡ number16_at frame.now at) × (result < 65536) }
{
    usize::from(u16::from_be_bytes([frame[at], frame[at + 1]]))
}

pub fn number32_at(frame: &[u8], at: usize) -> u32
    requires { at + 4 ≤ length frame.now }
    ensures { result ≡ number32_at frame.now at }
{
    u32::from_be_bytes([frame[at], frame[at + 1], frame[at + 2], frame[at + 3]])
}

pub fn capacity_at(frame: &[u8], at: usize) -> i32
    requires { at + 4 ≤ length frame.now }
    ensures { result ≡ capacity_at frame.now at }
{
    number32_at(frame, at).cast_signed()
}

pub fn float_at(frame: &[u8], at: usize) -> f32
    requires { at + 4 ≤ length frame.now }
    ensures { result ≡ float_at frame.now at }
{
    float_of(number32_at(frame, at))
}

pub fn vec_at(frame: &[u8], at: usize) -> Vec3
    requires { at + 12 ≤ length frame.now }
    ensures { result ≡ vec_at frame.now at }
{
    Vec3 {
        x: float_at(frame, at),
        y: float_at(frame, at + 4),
        z: float_at(frame, at + 8),
    }
}

pub fn transform_at(frame: &[u8], at: usize) -> Transform
    requires { at + 28 ≤ length frame.now }
    ensures { result ≡ transform_at frame.now at }
{
    Transform {
        p: vec_at(frame, at),
        q: Quat {
            v: vec_at(frame, at + 12),
            s: float_at(frame, at + 24),
        },
    }
}

pub fn pair_at(frame: &[u8], at: usize) -> FeaturePair
    requires { at + 4 ≤ length frame.now }
    ensures { result ≡ pair_at frame.now at }
{
    FeaturePair {
        owner1: frame[at],
        index1: frame[at + 1],
        owner2: frame[at + 2],
        index2: frame[at + 3],
    }
}

pub fn cache_at(frame: &[u8], at: usize) -> SatCache
    requires { at + 8 ≤ length frame.now }
    ensures { result ≡ cache_at frame.now at }
{
    SatCache {
        separation: number32_at(frame, at),
        kind: frame[at + 4],
        index_a: frame[at + 5],
        index_b: frame[at + 6],
        hit: frame[at + 7],
    }
}

pub fn size_at(frame: &[u8], at: usize) -> HullSize
    requires { at + 8 ≤ length frame.now }
    ensures { (result ≡ size_at frame.now at) × Sent result }
{
    HullSize {
        unit: number16_at(frame, at),
        vertices: number16_at(frame, at + 2),
        half_edges: number16_at(frame, at + 4),
        faces: number16_at(frame, at + 6),
    }
}
