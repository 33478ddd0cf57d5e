// A step: every hull of the pools is judged once, then every pair is answered with the cache that stands for it. What comes of it is in specs/Step.antt.
#![tactic(auto)]

ghost use Rattle.std.specs.Prelude.{◌≡◌, ◌+◌, ◌/◌, ◌<◌, ◌≤◌, length};
ghost use Rattle.lists.specs.Written.{Wrote};
ghost use Rattle.pools_pairs.specs.inner.Judged.{Judged};
ghost use Rattle.step.specs.Step.{pairs_in, answer_in, record_bytes, room_of, PairsDone, Stepped};
ghost use Rattle.step.specs.inner.Room.{Room};

use clip_corners::Corners;
use lists::write;
use manifold::{Answer, Outcome, SatCache};
use pools::{Pools, from_word};
use pools_pairs::{pair_answer, rule_of};
use pools_rows::{cache_at, put_answer, put_names, put_status, transform_at};

// A status of 0, or 21 where what is lent has no room; and how many points all pairs have together. A number and no Result: C is handed this record.
#[repr(C)]
#[derive(Clone, Copy)]
pub struct Step {
    pub status: u8,
    pub points: usize,
}

// The answer to pair k, from what stands for it alone.
fn answer_at(
    pools: &Pools,
    pairs: &[u32],
    transforms: &[f32],
    judged: &[u8],
    cache: SatCache,
    k: usize,
    corners: &mut Corners,
) -> Answer
    requires { Judged pools.now.numbers.now pools.now.links.now pools.now.hulls.now judged.now × (k < pairs_in pairs.now)
        × (k < length transforms.now / 7) }
    ensures { result ≡ answer_in pools.now.numbers.now pools.now.links.now pools.now.hulls.now pairs.now transforms.now k cache }
{
    let a = from_word(pairs[2 * k]);
    let b = from_word(pairs[2 * k + 1]);
    let n = pools.hulls.len() / 6;
    let rule_a = rule_of(judged, n, a);
    let rule_b = rule_of(judged, n, b);
    let transform = transform_at(transforms, k);
    pair_answer(pools, rule_a, rule_b, a, b, transform, cache, corners)
}

// The 24 bytes of a pair: status, count, mark, 0, four tags, four places.
fn put_record(bytes: &mut [u8], at: usize, o: Outcome)
    requires { at + 24 ≤ length bytes.old }
    ensures { Wrote bytes.old at (record_bytes o) bytes.new }
{
    put_status(bytes, at, o);
    write(bytes, at + 3, 0);
    put_names(bytes, at + 4, o.contact);
}

// Every pair, one after the other. The corners for the work are made once.
fn answer_pairs(
    pools: &Pools,
    pairs: &[u32],
    transforms: &[f32],
    judged: &[u8],
    caches: &mut [u32],
    floats: &mut [f32],
    bytes: &mut [u8],
) -> usize
    requires { Judged pools.now.numbers.now pools.now.links.now pools.now.hulls.now judged.now
        × Room (length pools.now.hulls.now) (length pairs.now) (length transforms.now) (length judged.now) (length caches.old) (length floats.old)
        (length bytes.old) }
    ensures { PairsDone (answer_in pools.now.numbers.now pools.now.links.now pools.now.hulls.now pairs.now transforms.now)
        (pairs_in pairs.now) caches.old floats.old bytes.old result caches.new floats.new
        bytes.new }
{
    let mut corners = Corners::new();
    let mut points = 0;
    for k in 0..pairs.len() / 2 {
        let cache = cache_at(caches, k);
        let answer = answer_at(pools, pairs, transforms, judged, cache, k, &mut corners);
        put_record(bytes, 24 * k, answer.outcome);
        points += put_answer(caches, floats, k, answer);
    }
    points
}

// Whether what is lent is long enough. By division: 7 * n could pass 2^64.
fn room(
    hulls: usize,
    pairs: usize,
    transforms: usize,
    judged: usize,
    caches: usize,
    floats: usize,
    bytes: usize,
) -> bool
    ensures { result ≡ room_of hulls pairs transforms judged caches floats bytes }
{
    let n = pairs / 2;
    if judged < hulls / 6 {
        return false;
    }
    if transforms / 7 < n {
        return false;
    }
    if caches / 2 < n {
        return false;
    }
    if floats / 19 < n {
        return false;
    }
    n <= bytes / 24
}

// One step. It requires nothing: hulls that break a rule are noted and their pairs refused, and too little room is 21 and nothing written. The lists of
// the pairs stay parameters: a struct of lists that are written would need a copy of what record Stepped says of each.
pub fn step_over(
    pools: &Pools,
    pairs: &[u32],
    transforms: &[f32],
    judged: &mut [u8],
    caches: &mut [u32],
    floats: &mut [f32],
    bytes: &mut [u8],
) -> Step
    ensures { Stepped pools.now.numbers.now pools.now.links.now pools.now.hulls.now pairs.now transforms.now
        judged.old caches.old floats.old bytes.old result judged.new caches.new
        floats.new bytes.new }
{
    if !room(
        pools.hulls.len(),
        pairs.len(),
        transforms.len(),
        judged.len(),
        caches.len(),
        floats.len(),
        bytes.len(),
    ) {
        return Step {
            status: 21,
            points: 0,
        };
    }
    pools.judge_all(judged);
    let points = answer_pairs(pools, pairs, transforms, judged, caches, floats, bytes);
    Step { status: 0, points }
}
