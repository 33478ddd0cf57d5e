// Two tours of a hull's links, one along every ring and one along every fan, which together accept a hull. Each walk tests what it passes, and all
// walks share one count of the half-edges that are left: walks of different faces have no half-edge in common, so where they are as long together as
// there are half-edges, every half-edge was passed and tested, once.
#![tactic(auto)]

ghost use Rattle.std.specs.Prelude.{true, ◌≡◌, ◌+◌, ◌-◌, ◌*◌, ◌<◌, ◌≤◌, MatchOption};
ghost use Rattle.hull_links.specs.Links.{next, twin, origin, turn, LinksFit};
ghost use Rattle.hull_tours.specs.inner.Found.{Length, OnFace, OnVertex, Ringed, Fanned};

use hull_links::Hull;

// How many half-edges the ring of face f has from `start` on, if it is back within `fuel` steps, stays on the face and does not lead out of range.
fn ring_length(hull: &Hull, f: u8, start: usize, fuel: usize) -> Option<usize>
    requires { LinksFit hull.now.size hull.now.links.now × (start < hull.now.size.half_edges) × (fuel ≤ hull.now.size.half_edges) }
    ensures { let length = Length (next hull.now.size hull.now.links.now) (OnFace hull.now.size hull.now.links.now f) start fuel in
        MatchOption result (length 0) (λ n. length n × (0 < n)) }
{
    let h = hull.size.half_edges;
    let face = usize::from(f);
    let mut e = start;
    for n in 0..fuel {
        if hull.face_of(e) != face {
            return None;
        }
        let ahead = hull.next_of(e);
        if ahead >= h {
            return None;
        }
        if ahead == start {
            return Some(n + 1);
        }
        e = ahead;
    }
    None
}

// Whether the rings of all faces have 3 half-edges or more and are together as long as there are half-edges.
pub fn rings_toured(hull: &Hull) -> bool
    requires { LinksFit hull.now.size hull.now.links.now }
    ensures { (result ≡ true → Ringed hull.now.size hull.now.links.now) × (Ringed hull.now.size hull.now.links.now → result ≡ true) }
{
    let h = hull.size.half_edges;
    let mut ringed = 0;
    for f in 0..hull.size.faces {
        let start = hull.face_edge(f);
        if start >= h {
            return false;
        }
        let Some(n) = ring_length(hull, f as u8, start, h - ringed) else {
            return false;
        };
        if n < 3 {
            return false;
        }
        ringed += n;
    }
    ringed == h
}

// The twin and the origin of half-edge e as one number, the origin 256 times: they stand side by side, so that one test tells both.
fn twin_and_origin(hull: &Hull, e: usize) -> usize
    requires { LinksFit hull.now.size hull.now.links.now × (e < hull.now.size.half_edges) }
    ensures { (result ≡ twin hull.now.size hull.now.links.now e + 256 * origin hull.now.size hull.now.links.now e)
        × (twin hull.now.size hull.now.links.now e < 256) }
{
    let at = hull.size.vertices + 4 * e;
    usize::from(hull.links[at + 1]) + 256 * usize::from(hull.links[at + 2])
}

// `fanned` and how many half-edges the fan of vertex v has from `start` on, if it stays at the vertex and meets no wrong twin. Where the rings were
// toured, no two half-edges have the same next, so that every fan comes back and no count of steps is needed: a `for` would test one at every turn.
fn fan_counted(hull: &Hull, v: u8, start: usize, fanned: usize) -> Option<usize>
    requires { LinksFit hull.now.size hull.now.links.now × Ringed hull.now.size hull.now.links.now
        × (start < hull.now.size.half_edges) × (fanned ≤ 32768) }
    ensures { let length = Length (turn hull.now.size hull.now.links.now) (OnVertex hull.now.size hull.now.links.now v) start hull.now.size.half_edges in
        MatchOption result (length 0) (λ n. length (n - fanned) × (fanned < n)) }
{
    let from_v = 256 * usize::from(v);
    let mut n = fanned;
    let mut e = start;
    loop {
        let mate = e ^ 1;
        if twin_and_origin(hull, e) != mate + from_v {
            return None;
        }
        let turned = hull.next_of(mate);
        n += 1;
        if turned == start {
            return Some(n);
        }
        e = turned;
    }
}

// Whether the fans of all vertices are together as long as there are half-edges.
pub fn fans_toured(hull: &Hull) -> bool
    requires { LinksFit hull.now.size hull.now.links.now × Ringed hull.now.size hull.now.links.now }
    ensures { (result ≡ true → Fanned hull.now.size hull.now.links.now) × (Fanned hull.now.size hull.now.links.now → result ≡ true) }
{
    let h = hull.size.half_edges;
    let mut fanned = 0;
    for v in 0..hull.size.vertices {
        let start = hull.vertex_edge(v);
        if start >= h {
            return false;
        }
        let Some(counted) = fan_counted(hull, v as u8, start, fanned) else {
            return false;
        };
        fanned = counted;
    }
    fanned == h
}
