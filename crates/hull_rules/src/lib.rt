// Whether a hull keeps H1, and which of H2 to H7 it breaks first. Two tours accept a hull: once along every ring and once along every fan. Only where one of
// them fails are H2 to H5 gone through to name the rule; if none of these is broken, it is the rule of that tour.
#![tactic(auto)]

pub mod tests;

ghost use Rattle.std.specs.Prelude.{◌≡◌};
ghost use Rattle.hull_links.specs.Links.{LinksFit};
ghost use Rattle.hull_links.specs.Rules.{h1, broken_links};
ghost use Rattle.hull_links.specs.Numbers.{rule_number};

use crate::tests::broken_before_walks;
use hull_links::{Hull, Rule, planes_from};
use hull_tours::{fans_toured, rings_toured};

// H1: the unit is known, the sizes are within their limits, and the lists fit them.
pub fn sizes_right(hull: &Hull) -> bool
    ensures { result ≡ h1 hull.now.size hull.now.numbers.now hull.now.links.now }
{
    let size = hull.size;
    if !units::is_known(size.unit) {
        return false;
    }
    if size.vertices < 4 {
        return false;
    }
    if 128 < size.vertices {
        return false;
    }
    if size.half_edges % 2 != 0 {
        return false;
    }
    if size.half_edges < 12 {
        return false;
    }
    if 256 < size.half_edges {
        return false;
    }
    if size.faces < 4 {
        return false;
    }
    if 128 < size.faces {
        return false;
    }
    if hull.links.len() != size.vertices + 4 * size.half_edges + size.faces {
        return false;
    }
    hull.numbers.len() == planes_from(size) + 4 * size.faces
}

// The first broken rule of H2 to H7.
pub fn broken_link_rule(hull: &Hull) -> Option<Rule>
    requires { LinksFit hull.now.size hull.now.links.now }
    ensures { rule_number result ≡ broken_links hull.now.size hull.now.links.now }
{
    if !rings_toured(hull) {
        return Some(broken_before_walks(hull).unwrap_or(Rule::H6));
    }
    if fans_toured(hull) {
        return None;
    }
    Some(broken_before_walks(hull).unwrap_or(Rule::H7))
}
