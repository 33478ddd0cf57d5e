// The collision call of hulls.rs, by value: two hulls, a transform and the last cache go in; the outcome and the next cache come out. It requires
// nothing: whatever breaks a rule is refused by its number. What it answers is in specs/Call.antt, step by step as document 01 has it.
#![tactic(auto)]

ghost use Rattle.std.specs.Prelude.{true, ◌≡◌, pos, Ok, Err, MatchResult};
ghost use Rattle.hull_limits.specs.Transform.{Placed};
ghost use Rattle.hull.specs.Rule8.{broken_rule};
ghost use Rattle.hull.specs.Accepted.{Accepted};
ghost use Rattle.collide_outcome.specs.Told.{number_of, cached_of};
ghost use Rattle.collide_refusals.specs.Refusals.{cache_right};
ghost use Rattle.collide.specs.Call.{after_cached, worked_of, collide_of};
ghost use Rattle.collide.specs.inner.Retried.{retried_of};

use clip_corners::Corners;
use collide_cached::{Hit, cached_edge, cached_face_a, cached_face_b};
use collide_full::full_search;
use collide_outcome::{Build, Refusal, accepted_with, answer_of, refused};
use collide_refusals::later_refusal;
use hull::first_broken_rule;
use hull_links::Hull;
use manifold::records::{empty_contact, hit_set};
use manifold::{Answer, SatCache};
use vector::Transform;

// What was built, its refusal by its number. By `map_err(u8::from)` nothing would be known of the number: a function that is handed on takes its clauses
// from the trait.
fn numbered(built: Result<Build, Refusal>) -> Result<Build, u8>
    ensures { MatchResult built (λ build. result ≡ Ok build) (λ refusal. result ≡ Err (number_of refusal)) }
{
    match built {
        Ok(build) => Ok(build),
        Err(refusal) => Err(u8::from(refusal)),
    }
}

// A cached axis that serves again: hit 1, and the other fields of the cache kept. Else the full search. Only types 2, 3 and 4 make a hit, and none of them is
// retired.
fn after_cached(
    a: &Hull,
    b: &Hull,
    transform: Transform,
    cache: SatCache,
    cached: Hit,
    corners: &mut Corners,
) -> Answer
    requires { Accepted a.now.size a.now.numbers.now a.now.links.now × Accepted b.now.size b.now.numbers.now b.now.links.now × Placed transform }
    ensures { result ≡ after_cached a.now.size a.now.numbers.now a.now.links.now b.now.size b.now.numbers.now
        b.now.links.now transform cache (cached_of cached) }
{
    match cached {
        Err(refusal) => refused(u8::from(refusal), cache),
        Ok(Some(contact)) => accepted_with(0, contact, hit_set(1, cache)),
        Ok(None) => {
            let built = full_search(a, b, transform, corners);
            answer_of(cache, numbered(built))
        }
    }
}

// The axis of the last call tried again, where the cache's type names one; every other type acts as type 0 and makes no hit. By ranges over the byte, which
// leave no type out, and no `AxisKind`: so document 01 wants it (docs/DECISIONS.md, "The forms that document 01 binds").
fn retried(a: &Hull, b: &Hull, transform: Transform, cache: SatCache, corners: &mut Corners) -> Hit
    requires { Accepted a.now.size a.now.numbers.now a.now.links.now × Accepted b.now.size b.now.numbers.now b.now.links.now
        × (cache_right a.now.size b.now.size cache ≡ true) }
    ensures { cached_of result ≡ retried_of a.now.size a.now.numbers.now a.now.links.now b.now.size b.now.numbers.now
        b.now.links.now transform cache }
{
    match cache.kind {
        0 | 1 | 5..=255 => Ok(None),
        2 => cached_face_a(a, b, transform, cache, corners),
        3 => cached_face_b(a, b, transform, cache, corners),
        4 => cached_edge(a, b, transform, cache),
    }
}

// The work that the cache's type asks for. What comes after the axis is called at one place, so that the contact is copied once.
fn worked(
    a: &Hull,
    b: &Hull,
    transform: Transform,
    cache: SatCache,
    corners: &mut Corners,
) -> Answer
    requires { Accepted a.now.size a.now.numbers.now a.now.links.now × Accepted b.now.size b.now.numbers.now b.now.links.now × Placed transform
        × (cache_right a.now.size b.now.size cache ≡ true) }
    ensures { result ≡ worked_of a.now.size a.now.numbers.now a.now.links.now b.now.size b.now.numbers.now
        b.now.links.now transform cache }
{
    let cached = retried(a, b, transform, cache, corners);
    after_cached(a, b, transform, cache, cached, corners)
}

// A call on two hulls that were judged right, with room for four points: what is left to be refused is, and else the work is done.
pub fn collide_judged(
    a: &Hull,
    b: &Hull,
    transform: Transform,
    cache: SatCache,
    corners: &mut Corners,
) -> Answer
    requires { (broken_rule a.now.size a.now.numbers.now a.now.links.now ≡ 0)
        × (broken_rule b.now.size b.now.numbers.now b.now.links.now ≡ 0) }
    ensures { result ≡ collide_of a.now.size a.now.numbers.now a.now.links.now b.now.size b.now.numbers.now
        b.now.links.now transform (pos 4) cache }
{
    match later_refusal(a.size, b.size, transform, cache) {
        Ok(()) => worked(a, b, transform, cache, corners),
        Err(refusal) => refused(u8::from(refusal), cache),
    }
}

// One call. A capacity below 4 comes first and is accepted with no points, the cache untouched and nothing else looked at.
pub fn collide_core(
    capacity: i32,
    a: &Hull,
    b: &Hull,
    transform: Transform,
    cache: SatCache,
) -> Answer
    ensures { result ≡ collide_of a.now.size a.now.numbers.now a.now.links.now b.now.size b.now.numbers.now
        b.now.links.now transform capacity cache }
{
    if capacity < 4 {
        return accepted_with(0, empty_contact(), cache);
    }
    if first_broken_rule(a).is_some() {
        return refused(u8::from(Refusal::HullA), cache);
    }
    if first_broken_rule(b).is_some() {
        return refused(u8::from(Refusal::HullB), cache);
    }
    let mut corners = Corners::new();
    collide_judged(a, b, transform, cache, &mut corners)
}
