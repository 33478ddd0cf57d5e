// The images of candidates, their positions held and the rest of each read from its candidate. What is held is in specs/inner/Held.antt.
ghost use Rattle.std.specs.Prelude.{◌≡◌, ◌+◌, ◌≤◌, ◌<◌, get_or};
ghost use Rattle.manifold.specs.Records.{past_vertex};
ghost use Rattle.clip_corners.specs.Places.{corner_in};
ghost use Rattle.reduce.specs.inner.Held.{position_in, moved, Held, Holds, images_of};

use crate::positions::Positions;
use clip_corners::Corners;
use manifold::ClipVertex;
use reduce_scores::images::image_at;
use vector::Vec3;

// The images of the n candidates from corner `from` on.
#[derive(Clone, Copy)]
pub struct Images<'a> {
    pub positions: &'a Positions,
    pub corners: &'a Corners,
    pub from: usize,
    pub n: usize,
    pub normal: Vec3,
}

impl Images<'_> {
    // Candidate i at the position that is held: its image, where the images are held.
    pub fn at(&self, i: usize) -> ClipVertex
        requires { (self.now.from ≤ 64) × (i < 64) }
        ensures read { result ≡ moved (position_in self.now.positions.now i)
            (corner_in self.now.corners.now.numbers self.now.corners.now.tags (self.now.from + i)) }
        ensures image { Holds self.now → i < self.now.n → result ≡ get_or (images_of self.now) i past_vertex }
    {
        ClipVertex {
            position: self.positions.at(i),
            ..self.corners.corner_at(self.from + i)
        }
    }
}

// The positions of the images of the n candidates from corner `from` on are held.
pub fn hold(corners: &Corners, from: usize, n: usize, normal: Vec3, positions: &mut Positions)
    requires { (from ≤ 64) × (n ≤ 64) }
    ensures { Held normal corners.now.numbers corners.now.tags from n positions.new }
{
    for i in 0..n {
        positions.put(i, image_at(corners, from + i, normal).position);
    }
}
