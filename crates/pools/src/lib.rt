// Hulls in pools: one list has the numbers of all hulls, one their links, and six words a hull say where its own stand and how large it is. Where they
// stand, whether they lie inside, and which rule each hull breaks first; what each says is in specs/Pools.antt.
#![tactic(auto)]

ghost use Rattle.std.specs.Prelude.{true, ◌≡◌, ◌/◌, ◌<◌, ◌≤◌, length};
ghost use Rattle.lists.specs.Written.{Wrote, table};
ghost use Rattle.hull_links.specs.Numbers.{rule_number};
ghost use Rattle.pools.specs.Pools.{numbers_end, links_end, inside_of, numbers_at, links_at, rule_at, rule_of, hulls_in};
ghost use Rattle.pools.specs.inner.Reads.{Words, PlaceRead};

use hull_links::{Hull, HullSize, Rule, rule_number};

// The pools as they are lent. Nothing is known of them.
#[derive(Clone, Copy)]
pub struct Pools<'a> {
    pub numbers: &'a [f32],
    pub links: &'a [u8],
    pub hulls: &'a [u32],
}

// Where a hull's numbers and links begin, and its size.
#[derive(Clone, Copy)]
pub struct Place {
    pub numbers: usize,
    pub links: usize,
    pub size: HullSize,
}

// A word as a number. More than an `as`: its bound is what record Words says of a place.
pub fn from_word(x: u32) -> usize
    ensures { (result ≡ x) × (result < 4294967296) }
{
    x as usize
}

impl Place {
    // Where the numbers of a hull end, and its links: words are below 2^32, so no sum of these passes 2^64. Two lists, and two counts of what is in them.
    pub fn numbers_end(self) -> usize
        requires { Words self }
        ensures { result ≡ numbers_end self }
    {
        self.numbers + (6 + 3 * ((self.size.vertices + 3) / 4 * 4) + 4 * self.size.faces)
    }

    pub fn links_end(self) -> usize
        requires { Words self }
        ensures { result ≡ links_end self }
    {
        self.links + (self.size.vertices + 4 * self.size.half_edges + self.size.faces)
    }

    // Whether both lists lie inside pools of n numbers and l links.
    pub fn inside(self, n: usize, l: usize) -> bool
        requires { Words self }
        ensures { result ≡ inside_of self n l }
    {
        self.numbers_end() <= n && self.links_end() <= l
    }
}

impl<'a> Pools<'a> {
    // Six words a hull: where its numbers begin, where its links begin, unit, V, H, F.
    pub fn place_of(&self, h: usize) -> Place
        requires { h < hulls_in self.now.hulls.now }
        ensures { PlaceRead self.now.hulls.now h result }
    {
        let at = 6 * h;
        Place {
            numbers: from_word(self.hulls[at]),
            links: from_word(self.hulls[at + 1]),
            size: HullSize {
                unit: from_word(self.hulls[at + 2]),
                vertices: from_word(self.hulls[at + 3]),
                half_edges: from_word(self.hulls[at + 4]),
                faces: from_word(self.hulls[at + 5]),
            },
        }
    }

    // The hull at a place whose lists lie inside, lent its own lists.
    pub fn hull_at(&self, p: Place) -> Hull<'a>
        requires { Words p × (inside_of p (length self.now.numbers.now) (length self.now.links.now) ≡ true) }
        ensures { (result.size ≡ p.size) × (result.numbers.now ≡ numbers_at self.now.numbers.now p)
            × (result.links.now ≡ links_at self.now.links.now p) }
    {
        Hull {
            numbers: &self.numbers[p.numbers..p.numbers_end()],
            links: &self.links[p.links..p.links_end()],
            size: p.size,
        }
    }

    // The first rule that the hull at a place breaks, if it breaks one; H1 where its lists do not lie inside.
    pub fn rule_at(&self, p: Place) -> Option<Rule>
        requires { Words p }
        ensures { rule_number result ≡ rule_at self.now.numbers.now self.now.links.now p }
    {
        if !p.inside(self.numbers.len(), self.links.len()) {
            return Some(Rule::H1);
        }
        hull::first_broken_rule(&self.hull_at(p))
    }

    // Every hull judged once, and its rule noted. What stood in `judged` is never read.
    pub fn judge_all(&self, judged: &mut [u8])
        requires { hulls_in self.now.hulls.now ≤ length judged.old }
        ensures { Wrote judged.old 0 (table (rule_of self.now.numbers.now self.now.links.now self.now.hulls.now)
            (hulls_in self.now.hulls.now)) judged.new }
    {
        for h in 0..self.hulls.len() / 6 {
            judged[h] = rule_number(self.rule_at(self.place_of(h)));
        }
    }
}
