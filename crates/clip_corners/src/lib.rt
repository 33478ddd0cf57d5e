// Corners with room for 128 of them: four numbers each (position and separation) and four bytes (the tag). A polygon has 64 places, so two stand
// there side by side, one that is cut and one that the cut leaves. What the two lists hold is in specs/Places.antt.
#![tactic(auto)]

ghost use Rattle.std.specs.Prelude.{◌≡◌, [], ◌∷◌, ◌≤◌, ◌<◌, replicate};
ghost use Rattle.vector.specs.Rounded.{float};
ghost use Rattle.clip_corners.specs.Places.{Roomy, corner_in, numbers_with, tags_with, Laid};

use manifold::{ClipVertex, FeaturePair};
use vector::Vec3;

// Where corners stand, and how many there are. Past 64 of them only the number is right: a number and no Option, since records Laid and Standing and a
// probe's C interface read it.
#[repr(C)]
#[derive(Clone, Copy)]
pub struct Kept {
    pub from: usize,
    pub count: usize,
}

// The place of 128 corners: of corner p the numbers x, y, z and the separation, and the bytes of the tag, both from place 4 p on. Two lists and not one
// of corners, since record `Laid` says what stands at every place of two lists. `room` says of them what their types say, so that proofs can name it.
// In C's layout, since the probes are lent one.
#[repr(C)]
#[derive(Clone, Copy)]
pub struct Corners {
    pub numbers: [f32; 512],
    pub tags: [u8; 512],
    pub ghost room: { Roomy numbers tags },
}

impl Corners {
    // All zero.
    pub fn new() -> Corners
        ensures { (result.numbers ≡ replicate 512 (float 0)) × (result.tags ≡ replicate 512 0) }
    {
        Corners {
            numbers: [0.0; 512],
            tags: [0; 512],
        }
    }

    // Corner p.
    pub fn corner_at(&self, p: usize) -> ClipVertex
        requires { p < 128 }
        ensures { result ≡ corner_in self.now.numbers self.now.tags p }
    {
        let a = 4 * p;
        ClipVertex {
            position: Vec3 {
                x: self.numbers[a],
                y: self.numbers[a + 1],
                z: self.numbers[a + 2],
            },
            separation: self.numbers[a + 3],
            pair: FeaturePair {
                owner1: self.tags[a],
                index1: self.tags[a + 1],
                owner2: self.tags[a + 2],
                index2: self.tags[a + 3],
            },
        }
    }

    // Corner p becomes v.
    fn set(&mut self, p: usize, v: ClipVertex)
        requires { p < 128 }
        ensures { (self.new.numbers ≡ numbers_with self.old.numbers p v) × (self.new.tags ≡ tags_with self.old.tags p v) }
    {
        let a = 4 * p;
        self.numbers[a] = v.position.x;
        self.numbers[a + 1] = v.position.y;
        self.numbers[a + 2] = v.position.z;
        self.numbers[a + 3] = v.separation;
        self.tags[a] = v.pair.owner1;
        self.tags[a + 1] = v.pair.index1;
        self.tags[a + 2] = v.pair.owner2;
        self.tags[a + 3] = v.pair.index2;
    }

    // A corner behind the k that stand from corner p on; the 65th is counted and not kept.
    pub fn put(&mut self, p: usize, k: usize, v: ClipVertex) -> usize
        requires { (p ≤ 64) × (k ≤ 128) }
        ensures { Laid self.old.numbers self.old.tags p k (v ∷ []) self.new.numbers self.new.tags result }
    {
        if k < 64 {
            self.set(p + k, v);
        }
        k + 1
    }
}
