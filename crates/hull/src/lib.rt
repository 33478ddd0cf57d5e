// The numbers of a hull: its box, vertices and planes by value, and the validator, which tells the first broken rule of H1 to H9.
// What the rules say is in specs/Rule8.antt and in the specs of `hull_links` and `hull_shell`; what acceptance gives to others is in specs/Accepted.antt.
#![tactic(auto)]

pub mod rule8;

ghost use Rattle.std.specs.Prelude.{◌≡◌, ◌<◌};
ghost use Rattle.hull_links.specs.Links.{padded, NumbersFit};
ghost use Rattle.hull_links.specs.Numbers.{rule_number};
ghost use Rattle.hull.specs.Numbers.{box_of, vertex_at, plane_at, support_at};
ghost use Rattle.hull.specs.Rule8.{broken_rule};

use crate::rule8::numbers_right;
use hull_links::{Hull, Rule, padded, planes_from};
use hull_shell::one_shell;
use vector::shape::find_hull_support_vertex;
use vector::{Aabb, Plane, Vec3};

pub fn box_of(hull: &Hull) -> Aabb
    requires { NumbersFit hull.now.size hull.now.numbers.now }
    ensures { result ≡ box_of hull.now.numbers.now }
{
    let numbers = hull.numbers;
    Aabb {
        lower: Vec3 {
            x: numbers[0],
            y: numbers[1],
            z: numbers[2],
        },
        upper: Vec3 {
            x: numbers[3],
            y: numbers[4],
            z: numbers[5],
        },
    }
}

// Vertex v; from V on, padding.
pub fn vertex_at(hull: &Hull, v: usize) -> Vec3
    requires { NumbersFit hull.now.size hull.now.numbers.now × (v < padded hull.now.size) }
    ensures { result ≡ vertex_at hull.now.size hull.now.numbers.now v }
{
    let numbers = hull.numbers;
    let p = padded(hull.size);
    Vec3 {
        x: numbers[6 + v],
        y: numbers[6 + p + v],
        z: numbers[6 + 2 * p + v],
    }
}

// The plane of face f.
pub fn plane_at(hull: &Hull, f: usize) -> Plane
    requires { NumbersFit hull.now.size hull.now.numbers.now × (f < hull.now.size.faces) }
    ensures { result ≡ plane_at hull.now.size hull.now.numbers.now f }
{
    let numbers = hull.numbers;
    let at = planes_from(hull.size) + 4 * f;
    Plane {
        normal: Vec3 {
            x: numbers[at],
            y: numbers[at + 1],
            z: numbers[at + 2],
        },
        offset: numbers[at + 3],
    }
}

// The lowest-numbered vertex that lies farthest along d; padding is not looked at.
pub fn support_vertex(hull: &Hull, d: Vec3) -> usize
    requires { NumbersFit hull.now.size hull.now.numbers.now }
    ensures { result ≡ support_at hull.now.size hull.now.numbers.now d }
{
    let numbers = hull.numbers;
    let p = padded(hull.size);
    let y = 6 + p;
    let z = y + p;
    find_hull_support_vertex(
        &numbers[6..y],
        &numbers[y..z],
        &numbers[z..z + p],
        hull.size.vertices,
        d,
    )
}

// The first broken rule, if one is, whatever is lent: nothing is taken on the caller's word.
pub fn first_broken_rule(hull: &Hull) -> Option<Rule>
    ensures { rule_number result ≡ broken_rule hull.now.size hull.now.numbers.now hull.now.links.now }
{
    if !hull_rules::sizes_right(hull) {
        return Some(Rule::H1);
    }
    let rule = hull_rules::broken_link_rule(hull);
    if rule.is_some() {
        return rule;
    }
    if !numbers_right(hull) {
        return Some(Rule::H8);
    }
    if !one_shell(hull) {
        return Some(Rule::H9);
    }
    None
}
