// The best axis that a search has met so far, and when the search stops. The faces of A, the faces of B and the pairs of edges are three searches of
// this one sort.
#![tactic(auto)]

ghost use Rattle.std.specs.Prelude.{◌≡◌};
ghost use Rattle.axis_best.specs.Leads.{none_of, better_of};

use units::speculative_distance;
use vector::Vec3;

// `apart` says that the search has stopped at this axis. Where nothing was found, the separation is minus infinity and the rest is zero. No Option:
// minus infinity is below the first axis as each axis is below a better one, so `better` has one test for both. Fields and no `Axis`: `none_of`, `better_of`
// and what is proved of them read each by itself.
#[derive(Clone, Copy)]
pub struct Lead {
    pub found: bool,
    pub apart: bool,
    pub normal: Vec3,
    pub separation: f32,
    pub index_a: u8,
    pub index_b: u8,
}

pub fn none() -> Lead
    ensures { result ≡ none_of }
{
    Lead {
        found: false,
        apart: false,
        normal: Vec3 {
            x: 0.0,
            y: 0.0,
            z: 0.0,
        },
        separation: -1.0 / 0.0,
        index_a: 0,
        index_b: 0,
    }
}

// The axis takes the lead where its separation is strictly above the best before it, and stops the search where it is strictly above the speculative
// distance of the unit too. Its parts come one by one: a record of them would be made for each axis and kept for few.
pub fn better(
    unit: usize,
    normal: Vec3,
    separation: f32,
    index_a: u8,
    index_b: u8,
    lead: Lead,
) -> Lead
    ensures { result ≡ better_of unit normal separation index_a index_b lead }
{
    if separation > lead.separation {
        let apart = separation > speculative_distance(unit);
        return Lead {
            found: true,
            apart,
            normal,
            separation,
            index_a,
            index_b,
        };
    }
    lead
}
