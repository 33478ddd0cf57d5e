// A hull as it is lent: its sizes, its numbers and its links, with a method for each of the numbers that half-edges, vertices and faces store. What the
// rules H1 to H7 say of the links is in specs/Rules.antt; that each round of an accepted hull lists every half-edge once is shown in proofs/Rounds.antt.
#![tactic(auto)]

ghost use Rattle.std.specs.Prelude.{◌≡◌, ◌+◌, ◌*◌, ◌<◌, length, get_or};
ghost use Rattle.hull_links.specs.Links.{padded, planes_from, next, twin, origin, face, vertex_edge, face_edge, LinksFit};
ghost use Rattle.hull_links.specs.Numbers.{number_of, rule_number};

// The length unit of a hull, so many a metre, and how many vertices, half-edges and faces it has.
#[repr(C)]
#[derive(Clone, Copy)]
pub struct HullSize {
    pub unit: usize,
    pub vertices: usize,
    pub half_edges: usize,
    pub faces: usize,
}

// A hull as it is lent: its box, vertices and planes in one list of numbers, its links in one list of bytes. Nothing is known of it until it is judged.
// What is known of it then stays in clauses (`LinksFit`, `NumbersFit`, `Accepted`) and no type carries it: docs/FREEDOMS.md lists nearly every function with
// what it requires, and a type with an invariant would ask that of a caller that only lends a hull. Two hulls and a transform go on as three parameters,
// since a contact on a face of B exchanges the hulls and inverts the transform, and most steps read one hull.
#[derive(Clone, Copy)]
pub struct Hull<'a> {
    pub numbers: &'a [f32],
    pub links: &'a [u8],
    pub size: HullSize,
}

// The rules that an accepted hull keeps, as document 01 numbers them.
#[derive(Clone, Copy, PartialEq, Eq)]
pub enum Rule {
    H1,
    H2,
    H3,
    H4,
    H5,
    H6,
    H7,
    H8,
    H9,
}

impl From<Rule> for u8 {
    // A rule by its number, 1 to 9.
    fn from(rule: Rule) -> u8
        ensures { result ≡ number_of rule }
    {
        match rule {
            Rule::H1 => 1,
            Rule::H2 => 2,
            Rule::H3 => 3,
            Rule::H4 => 4,
            Rule::H5 => 5,
            Rule::H6 => 6,
            Rule::H7 => 7,
            Rule::H8 => 8,
            Rule::H9 => 9,
        }
    }
}

// The number of the rule that is broken, 0 where none is.
pub fn rule_number(broken: Option<Rule>) -> u8
    ensures { result ≡ rule_number broken }
{
    match broken {
        Some(rule) => u8::from(rule),
        None => 0,
    }
}

// How long one list of coordinates is: the vertices, padded to a multiple of four.
pub fn padded(size: HullSize) -> usize
    requires { size.vertices < 65536 }
    ensures { result ≡ padded size }
{
    (size.vertices + 3) / 4 * 4
}

// Where the x list begins, behind the box; where the y list and the z list begin, each behind the one before it. A function for each, by the name of the
// place: one function with the list's number is no plainer.
pub const X_FROM: usize = 6;

pub fn y_from(size: HullSize) -> usize
    requires { size.vertices < 65536 }
    ensures { result ≡ 6 + padded size }
{
    X_FROM + padded(size)
}

pub fn z_from(size: HullSize) -> usize
    requires { size.vertices < 65536 }
    ensures { result ≡ 6 + 2 * padded size }
{
    X_FROM + 2 * padded(size)
}

// Where the planes begin, behind the box and the three lists of coordinates.
pub fn planes_from(size: HullSize) -> usize
    requires { size.vertices < 65536 }
    ensures { result ≡ planes_from size }
{
    X_FROM + 3 * padded(size)
}

// The byte at i, as a number.
pub fn byte_at(links: &[u8], i: usize) -> usize
    requires { i < length links.now }
    ensures { result ≡ get_or links.now i 0 }
{
    usize::from(links[i])
}

// A method for each thing that is stored, by its name: one method with the number of the field is no plainer.
impl Hull<'_> {
    // Half-edge e: the one after it on its ring, its twin, the vertex that it starts from and the face that it goes round.
    pub fn next_of(&self, e: usize) -> usize
        requires { LinksFit self.now.size self.now.links.now × (e < self.now.size.half_edges) }
        ensures { result ≡ next self.now.size self.now.links.now e }
    {
        byte_at(self.links, self.size.vertices + 4 * e)
    }

    pub fn twin_of(&self, e: usize) -> usize
        requires { LinksFit self.now.size self.now.links.now × (e < self.now.size.half_edges) }
        ensures { result ≡ twin self.now.size self.now.links.now e }
    {
        byte_at(self.links, self.size.vertices + 4 * e + 1)
    }

    pub fn origin_of(&self, e: usize) -> usize
        requires { LinksFit self.now.size self.now.links.now × (e < self.now.size.half_edges) }
        ensures { result ≡ origin self.now.size self.now.links.now e }
    {
        byte_at(self.links, self.size.vertices + 4 * e + 2)
    }

    pub fn face_of(&self, e: usize) -> usize
        requires { LinksFit self.now.size self.now.links.now × (e < self.now.size.half_edges) }
        ensures { result ≡ face self.now.size self.now.links.now e }
    {
        byte_at(self.links, self.size.vertices + 4 * e + 3)
    }

    // The stored edge of vertex v.
    pub fn vertex_edge(&self, v: usize) -> usize
        requires { LinksFit self.now.size self.now.links.now × (v < self.now.size.vertices) }
        ensures { result ≡ vertex_edge self.now.size self.now.links.now v }
    {
        byte_at(self.links, v)
    }

    // The stored edge of face f.
    pub fn face_edge(&self, f: usize) -> usize
        requires { LinksFit self.now.size self.now.links.now × (f < self.now.size.faces) }
        ensures { result ≡ face_edge self.now.size self.now.links.now f }
    {
        byte_at(
            self.links,
            self.size.vertices + 4 * self.size.half_edges + f,
        )
    }
}
