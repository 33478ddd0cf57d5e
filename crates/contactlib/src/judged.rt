// Which rule a hull breaks, for hosts whose call was refused by 1 or 2, and for those that judge a hull when they make it.
ghost use Rattle.std.specs.Prelude.{◌≡◌};
ghost use Rattle.hull.specs.Rule8.{broken_rule};

use hull::first_broken_rule;
use hull_links::{Hull, HullSize, rule_number};

// The first broken rule, 0 if none, whatever is lent. By it the call refuses: 1 where it is not 0 of hull A, 2 where it is 0 of A and not 0 of B.
// A number and no Option of a rule: C is handed it.
pub fn contact_first_broken_rule(numbers: &[f32], links: &[u8], size: HullSize) -> u8
    ensures { result ≡ broken_rule size numbers.now links.now }
{
    let hull = Hull {
        numbers,
        links,
        size,
    };
    rule_number(first_broken_rule(&hull))
}
