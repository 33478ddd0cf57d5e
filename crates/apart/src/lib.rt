// Whether two hulls are apart, and no more: no cache, no points. The search is that of a call, and it stops at the first axis strictly above the
// speculative distance; that a search through every axis says the same is in specs/Question.antt and proved here.
#![tactic(auto)]

ghost use Rattle.std.specs.Prelude.{◌≡◌};
ghost use Rattle.collide_outcome.specs.Told.{number_of};
ghost use Rattle.apart.specs.Question.{refused_question, answered_question, question_of};
ghost use Rattle.apart.specs.inner.Ends.{ends_apart};

use axis::{Search, compute_separating_axis};
use collide_outcome::Refusal;
use collide_refusals::placed_refusal;
use hull::first_broken_rule;
use hull_links::Hull;
use vector::Transform;

// As C is handed it: a status of 0 and whether the hulls are apart, 1 or 0; or the number of a refusal, and 0.
#[repr(C)]
#[derive(Clone, Copy)]
pub struct Apart {
    pub status: u8,
    pub apart: u8,
}

fn refused(refusal: Refusal) -> Apart
    ensures { result ≡ refused_question (number_of refusal) }
{
    Apart {
        status: u8::from(refusal),
        apart: 0,
    }
}

// What the search says.
fn told(found: Search) -> Apart
    ensures { result ≡ answered_question (ends_apart found) }
{
    match found {
        Search::Apart(_) => Apart {
            status: 0,
            apart: 1,
        },
        Search::Found(_) => Apart {
            status: 0,
            apart: 0,
        },
    }
}

// The hulls are A and, placed in A's frame by the transform, B. Refused by 1, 2, 17 or 3, in this order; a padding lane that wins is no refusal here.
pub fn are_apart(a: &Hull, b: &Hull, transform: Transform) -> Apart
    ensures { result ≡ question_of a.now.size a.now.numbers.now a.now.links.now b.now.size b.now.numbers.now
        b.now.links.now transform }
{
    if first_broken_rule(a).is_some() {
        return refused(Refusal::HullA);
    }
    if first_broken_rule(b).is_some() {
        return refused(Refusal::HullB);
    }
    match placed_refusal(a.size, b.size, transform) {
        Err(refusal) => refused(refusal),
        Ok(()) => told(compute_separating_axis(a, b, transform)),
    }
}
