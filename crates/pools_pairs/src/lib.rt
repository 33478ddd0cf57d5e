// The answer to two hulls of the pools, from the rules that are known of them: no hull is judged here. What it is, is in specs/Pairs.antt.
#![tactic(auto)]

ghost use Rattle.std.specs.Prelude.{◌≡◌, ◌≤◌, length};
ghost use Rattle.pools_pairs.specs.Pairs.{number_rule, pair_answer};
ghost use Rattle.pools_pairs.specs.inner.Judged.{hull_rule};

use clip_corners::Corners;
use collide::collide_judged;
use collide_outcome::{Refusal, refused};
use manifold::{Answer, SatCache};
use pools::Pools;
use vector::Transform;

// What was noted of hull h; a number that is no hull's counts as broken. A number and no Option of a rule: the list that hosts lend holds numbers.
pub fn rule_of(judged: &[u8], n: usize, h: usize) -> u8
    requires { n ≤ length judged.now }
    ensures { result ≡ hull_rule judged.now n h }
{
    if h < n { judged[h] } else { 1 }
}

// The answer to hulls a and b, whose rules are known. The corners are lent for the work, and what they hold does not matter. The rules are numbers, as they
// stand in the list that hosts lend.
pub fn pair_answer(
    pools: &Pools,
    rule_a: u8,
    rule_b: u8,
    a: usize,
    b: usize,
    transform: Transform,
    cache: SatCache,
    corners: &mut Corners,
) -> Answer
    requires { (rule_a ≡ number_rule pools.now.numbers.now pools.now.links.now pools.now.hulls.now a)
        × (rule_b ≡ number_rule pools.now.numbers.now pools.now.links.now pools.now.hulls.now b) }
    ensures { result ≡ pair_answer pools.now.numbers.now pools.now.links.now pools.now.hulls.now a b transform cache }
{
    if rule_a != 0 {
        return refused(u8::from(Refusal::HullA), cache);
    }
    if rule_b != 0 {
        return refused(u8::from(Refusal::HullB), cache);
    }
    let hull_a = pools.hull_at(pools.place_of(a));
    let hull_b = pools.hull_at(pools.place_of(b));
    collide_judged(&hull_a, &hull_b, transform, cache, corners)
}
