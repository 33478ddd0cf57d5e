// H9: whether a hull that breaks none of H2 to H6 is one closed shell. A flood over the faces: a face is entered by one of its half-edges, its ring is gone
// round, and the face across each half-edge is entered where it was not before. It ends when all faces are entered, or when no ring is left to go round.
#![tactic(auto)]

ghost use Rattle.std.specs.Prelude.{true, ◌≡◌, ◌<◌, length};
ghost use Rattle.hull_links.specs.Rules.{h6, Linked};
ghost use Rattle.hull_marks.specs.inner.Marks.{mark_of};
ghost use Rattle.hull_shell.specs.Shell.{Reached, h9};
ghost use Rattle.hull_shell.specs.inner.Flood.{Flooded, Spread};

use hull_links::Hull;
use hull_marks::{mark_anew, no_marks};

// The faces that are entered, each once: the queue has, for each of the first `count`, the half-edge by which it was entered, and each has its mark.
// An array with a count, since the routine has fixed memory.
#[derive(Clone, Copy)]
struct Entered {
    queue: [u8; 129],
    count: usize,
    seen: [u64; 4],
}

impl Entered {
    // Goes round the ring of `start` and enters each face across that was not entered. Without a branch: what stands in the queue behind the last that
    // counts is written over.
    fn spread(&mut self, hull: &Hull, start: usize)
        requires { Linked hull.now.size hull.now.links.now × (h6 hull.now.size hull.now.links.now ≡ true)
            × Flooded hull.now.size hull.now.links.now self.old.count self.old.queue (mark_of self.old.seen)
            × (start < hull.now.size.half_edges) × Reached hull.now.size hull.now.links.now start × (length self.old.seen ≡ 4) }
        ensures { Spread hull.now.size hull.now.links.now start self.old.count self.old.queue (mark_of self.old.seen)
            self.new.count self.new.queue (mark_of self.new.seen) × (length self.new.seen ≡ 4) }
    {
        let all = hull.size.faces;
        let mut e = start;
        // The walk follows links and counts no index, so this is no `for`.
        loop {
            let across = hull.twin_of(e);
            let f = hull.face_of(across);
            self.queue[self.count] = across as u8;
            self.count = self.count + 1 - mark_anew(&mut self.seen, f);
            if self.count == all {
                return;
            }
            let ahead = hull.next_of(e);
            if ahead == start {
                return;
            }
            e = ahead;
        }
    }
}

// H9.
pub fn one_shell(hull: &Hull) -> bool
    requires { Linked hull.now.size hull.now.links.now × (h6 hull.now.size hull.now.links.now ≡ true) }
    ensures { result ≡ h9 hull.now.size hull.now.links.now }
{
    let faces = hull.size.faces;
    let sides = hull.size.vertices + faces;
    let edges = hull.size.half_edges / 2;
    if sides != edges + 2 {
        return false;
    }
    let mut flood = Entered {
        queue: [0u8; 129],
        count: 0,
        seen: no_marks(),
    };
    flood.count = 1 - mark_anew(&mut flood.seen, hull.face_of(0));
    let mut done = 0;
    // The queue grows while it is gone through, so this is no `for`.
    while done < flood.count {
        let start = usize::from(flood.queue[done]);
        flood.spread(hull, start);
        if flood.count == faces {
            return true;
        }
        done += 1;
    }
    false
}
