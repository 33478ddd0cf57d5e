// H2 to H5 one by one, to name the rule of a hull that a tour did not accept.
ghost use Rattle.std.specs.Prelude.{true, ◌≡◌, ◌+◌, ◌/◌, ◌<◌, ◌≤◌, length};
ghost use Rattle.hull_links.specs.Tests.{all};
ghost use Rattle.hull_links.specs.Links.{LinksFit};
ghost use Rattle.hull_links.specs.Rules.{edge_in_range, twins_at, linked_at, h2, h3, h4, h5};
ghost use Rattle.hull_links.specs.Numbers.{rule_number};
ghost use Rattle.hull_rules.specs.inner.Named.{stored_in_range, broken_before_walks};

use hull_links::{Hull, Rule};

// The stored edges are below h.
fn stored_in_range(edges: &[u8], h: usize) -> bool
    ensures { result ≡ all (stored_in_range edges.now 0 h) (length edges.now) }
{
    edges.iter().all(|e| usize::from(*e) < h)
}

// H2 of one half-edge.
fn edge_in_range(hull: &Hull, e: usize) -> bool
    requires { LinksFit hull.now.size hull.now.links.now × (e < hull.now.size.half_edges) }
    ensures { result ≡ edge_in_range hull.now.size hull.now.links.now e }
{
    if hull.next_of(e) >= hull.size.half_edges {
        return false;
    }
    if hull.twin_of(e) >= hull.size.half_edges {
        return false;
    }
    if hull.origin_of(e) >= hull.size.vertices {
        return false;
    }
    if hull.face_of(e) >= hull.size.faces {
        return false;
    }
    true
}

fn edges_in_range(hull: &Hull) -> bool
    requires { LinksFit hull.now.size hull.now.links.now }
    ensures { result ≡ all (edge_in_range hull.now.size hull.now.links.now) hull.now.size.half_edges }
{
    (0..hull.size.half_edges).all(|e| edge_in_range(hull, e))
}

// H2.
fn ranges_right(hull: &Hull) -> bool
    requires { LinksFit hull.now.size hull.now.links.now }
    ensures { result ≡ h2 hull.now.size hull.now.links.now }
{
    let h = hull.size.half_edges;
    if !stored_in_range(&hull.links[..hull.size.vertices], h) {
        return false;
    }
    if !edges_in_range(hull) {
        return false;
    }
    stored_in_range(&hull.links[hull.size.vertices + 4 * h..], h)
}

// H3 of one pair: half-edges 2k and 2k + 1 are each other's twin.
fn twins_at(hull: &Hull, k: usize) -> bool
    requires { LinksFit hull.now.size hull.now.links.now × (k < hull.now.size.half_edges / 2) }
    ensures { result ≡ twins_at hull.now.size hull.now.links.now k }
{
    let e = 2 * k;
    if hull.twin_of(e) != e + 1 {
        return false;
    }
    hull.twin_of(e + 1) == e
}

// H3.
fn twins_right(hull: &Hull) -> bool
    requires { LinksFit hull.now.size hull.now.links.now }
    ensures { result ≡ h3 hull.now.size hull.now.links.now }
{
    (0..hull.size.half_edges / 2).all(|k| twins_at(hull, k))
}

// H4 of one half-edge.
fn linked_at(hull: &Hull, e: usize) -> bool
    requires { LinksFit hull.now.size hull.now.links.now × (h2 hull.now.size hull.now.links.now ≡ true) × (e < hull.now.size.half_edges) }
    ensures { result ≡ linked_at hull.now.size hull.now.links.now e }
{
    let n = hull.next_of(e);
    if hull.face_of(n) != hull.face_of(e) {
        return false;
    }
    let t = hull.twin_of(e);
    hull.origin_of(n) == hull.origin_of(t)
}

// H4.
fn links_right(hull: &Hull) -> bool
    requires { LinksFit hull.now.size hull.now.links.now × (h2 hull.now.size hull.now.links.now ≡ true) }
    ensures { result ≡ h4 hull.now.size hull.now.links.now }
{
    (0..hull.size.half_edges).all(|e| linked_at(hull, e))
}

// H5.
fn nexts_right(hull: &Hull) -> bool
    requires { LinksFit hull.now.size hull.now.links.now × (h2 hull.now.size hull.now.links.now ≡ true) }
    ensures { result ≡ h5 hull.now.size hull.now.links.now }
{
    let mut marks = hull_marks::no_marks();
    for i in 0..hull.size.half_edges {
        let t = hull.next_of(i);
        if hull_marks::is_marked(&marks, t) {
            return false;
        }
        hull_marks::set_mark(&mut marks, t);
    }
    true
}

// The first broken rule of H2 to H5.
pub fn broken_before_walks(hull: &Hull) -> Option<Rule>
    requires { LinksFit hull.now.size hull.now.links.now }
    ensures { rule_number result ≡ broken_before_walks hull.now.size hull.now.links.now }
{
    if !ranges_right(hull) {
        return Some(Rule::H2);
    }
    if !twins_right(hull) {
        return Some(Rule::H3);
    }
    if !links_right(hull) {
        return Some(Rule::H4);
    }
    if !nexts_right(hull) {
        return Some(Rule::H5);
    }
    None
}
