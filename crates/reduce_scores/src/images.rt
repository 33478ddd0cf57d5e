// What a candidate becomes as a point, and whether candidates touch. The candidates stand where crate clip_corners put them, and an image is made where
// it is read.
ghost use Rattle.std.specs.Prelude.{◌≡◌, ◌≤◌, ◌<◌};
ghost use Rattle.clip_corners.specs.Places.{corner_in, corners_in};
ghost use Rattle.reduce_scores.specs.Images.{image_of, least_separation_of, touching_of};

use clip_corners::Corners;
use manifold::ClipVertex;
use vector::Vec3;
use vector::arithmetic::mul_sub;
use vector::scalar::min_float;

// The image of the candidate that stands at corner p: moved half its separation against the reference normal.
pub fn image_at(corners: &Corners, p: usize, normal: Vec3) -> ClipVertex
    requires { p < 128 }
    ensures { result ≡ image_of normal (corner_in corners.now.numbers corners.now.tags p) }
{
    let v = corners.corner_at(p);
    ClipVertex {
        position: mul_sub(v.position, 0.5 * v.separation, normal),
        ..v
    }
}

// `from` and `n` and no `Kept`, here and in crate reduce: a probe of the C interface takes them one by one, and so do definitions `corners_in` and
// `images_in`.

// The least separation of the n candidates from corner `from` on; the largest float where there are none.
pub fn least_separation(corners: &Corners, from: usize, n: usize) -> f32
    requires { (from ≤ 64) × (n ≤ 64) }
    ensures { result ≡ least_separation_of (corners_in corners.now.numbers corners.now.tags from n) }
{
    let mut least = f32::MAX;
    for i in 0..n {
        least = min_float(least, corners.corner_at(from + i).separation);
    }
    least
}

// Whether candidates with this least separation touch: fewer than three do not, nor do any at or above the speculative distance, which is `far`.
pub fn touching(far: f32, count: usize, least: f32) -> bool
    ensures { result ≡ touching_of far count least }
{
    if count < 3 {
        return false;
    }
    if least >= far {
        return false;
    }
    true
}
