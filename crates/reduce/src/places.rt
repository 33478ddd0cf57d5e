// Where a candidate stands among those that are left, and one turn of the first search. j1, j2 and j3 are the indices of the picks so far, each in
// the list as it stood.
ghost use Rattle.std.specs.Prelude.{◌≡◌, ◌-◌, ◌<◌};
ghost use Rattle.reduce_scores.specs.Scores.{first_turn};
ghost use Rattle.reduce.specs.Reduce.{standing};

use manifold::ClipVertex;
use reduce_scores::{Best, better, reach};
use vector::Vec3;

// `standing1` to `standing3`: each is the one before it after one pick more, as definition `standing` nests; one function of a list of picks would have
// a loop where these have none.

// Which of n candidates stands at i once the one at j1 was taken: its place is filled by the last.
pub fn standing1(n: usize, j1: usize, i: usize) -> usize
    requires { 0 < n }
    ensures { result ≡ standing n j1 i }
{
    if i == j1 {
        return n - 1;
    }
    i
}

// Once that at j2 was taken after it, of n - 1.
pub fn standing2(n: usize, j1: usize, j2: usize, i: usize) -> usize
    requires { 1 < n }
    ensures { result ≡ standing n j1 (standing (n - 1) j2 i) }
{
    standing1(n, j1, standing1(n - 1, j2, i))
}

// Once that at j3 was taken after both, of n - 2.
pub fn standing3(n: usize, j1: usize, j2: usize, j3: usize, i: usize) -> usize
    requires { 2 < n }
    ensures { result ≡ standing n j1 (standing (n - 1) j2 (standing (n - 2) j3 i)) }
{
    standing2(n, j1, j2, standing1(n - 2, j3, i))
}

// One candidate, for the first point: those beyond `far`, the speculative distance, are passed over.
pub fn first_turn(far: f32, best: Best, i: usize, v: ClipVertex, direction: Vec3) -> Best
    ensures { result ≡ first_turn far direction best i v }
{
    if v.separation > far {
        return best;
    }
    better(best, i, reach(v, direction))
}
