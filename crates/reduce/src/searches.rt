// The four searches, each over the images that are left once the picks before it were taken: j1, j2 and j3 are their indices, each in the list as it
// stood. Each search has its own score and its own way to a place, and no more than that: one function that is given both would take two closures and
// a law of each, and say less.
ghost use Rattle.std.specs.Prelude.{◌≡◌, ◌<◌};
ghost use Rattle.manifold.specs.Records.{past_vertex};
ghost use Rattle.reduce.specs.Reduce.{without, tolerance, first_best, second_best, third_best, fourth_best};
ghost use Rattle.reduce.specs.inner.Held.{Holds, images_of};

use crate::held::Images;
use crate::places::{first_turn, standing1, standing2, standing3};
use reduce_scores::{Best, Triangle, as_good, better, outside, signed_area, spread};
use vector::Vec3;
use vector::arithmetic::sub;
use vector::scalar::abs_float;

// The first: farthest along `direction`.
pub fn first_search(images: &Images, direction: Vec3, far: f32) -> Best
    requires { Holds images.now }
    ensures { result ≡ first_best far direction (images_of images.now) }
{
    let mut best = Best {
        index: None,
        score: -f32::MAX,
    };
    for i in 0..images.n {
        best = first_turn(far, best, i, images.at(i), direction);
    }
    best
}

// The second: farthest from the first, at a, across the normal.
pub fn second_search(images: &Images, j1: usize, a: Vec3) -> Best
    requires { Holds images.now × (0 < images.now.n) }
    ensures { result ≡ second_best images.now.normal a (without past_vertex (images_of images.now) j1) }
{
    let mut best = Best {
        index: None,
        score: 0.0,
    };
    for i in 0..images.n - 1 {
        let v = images.at(standing1(images.n, j1, i));
        best = better(best, i, spread(v, a, images.normal));
    }
    best
}

// The third: makes the largest triangle with both, at a and b.
pub fn third_search(images: &Images, j1: usize, j2: usize, a: Vec3, b: Vec3, far: f32) -> Best
    requires { Holds images.now × (1 < images.now.n) }
    ensures { result ≡ third_best images.now.normal (tolerance far) a b (without past_vertex (without past_vertex (images_of images.now) j1) j2) }
{
    let ba = sub(b, a);
    let mut best = Best {
        index: None,
        score: far * far,
    };
    for i in 0..images.n - 2 {
        let v = images.at(standing2(images.n, j1, j2, i));
        best = as_good(
            best,
            i,
            abs_float(signed_area(v.position, a, ba, images.normal)),
        );
    }
    best
}

// The fourth: adds the most area outside the triangle of the three.
pub fn fourth_search(
    images: &Images,
    j1: usize,
    j2: usize,
    j3: usize,
    t: Triangle,
    far: f32,
) -> Best
    requires { Holds images.now × (2 < images.now.n) }
    ensures { result ≡ fourth_best images.now.normal (tolerance far) t
        (without past_vertex (without past_vertex (without past_vertex (images_of images.now) j1) j2) j3) }
{
    let mut best = Best {
        index: None,
        score: far * far,
    };
    for i in 0..images.n - 3 {
        let v = images.at(standing3(images.n, j1, j2, j3, i));
        best = better(best, i, outside(v.position, t, images.normal));
    }
    best
}
