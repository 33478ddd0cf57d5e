// One edge of B against the edges of A. The edges of A that pass the first test of signs are found without a branch, by the dots of B's
// two normals along A's edges; of these, the ones that pass the other two, by the dots of A's normals along B's edge. A number is put where
// the next one kept will stand, and kept by moving on only where it passes. The axis is worked out for the pairs that pass all tests alone.
#![tactic(auto)]

ghost use Rattle.std.specs.Prelude.{false, cond, ◌≡◌, ℕ, ◌+◌, ◌*◌, ◌<◌, ◌≤◌, length, take, get_or};
ghost use Rattle.hull_links.specs.Links.{NumbersFit};
ghost use Rattle.axis_best.specs.Leads.{lead_after};
ghost use Rattle.axis_edges.specs.Edges.{edge_of_a, row_pairs};
ghost use Rattle.axis_edges.specs.inner.Ready.{EdgesIn};
ghost use Rattle.axis_row.specs.inner.Marks.{at_least_eps, fails_first, passing, up_to, Wide, Marked, unmarked};
ghost use Rattle.axis_row.specs.inner.Sift.{fails_later};
ghost use Rattle.axis_row.specs.inner.Rows.{tried_at, RowReady};

use axis_best::Lead;
use axis_edges::Edge;
use hull_links::Hull;

// A product at or above this fails.
const EPS: f32 = -0.0001;

// Two rows of dots in one table: from p on those of the first normal of an edge of B along A's edges, from q on those of the second. A has n edges, and
// a row is `width` places wide, so that no edge is done alone; what the places above A's edges hold is not looked at. Places in one table and no slices,
// since the definitions (`fails_first`, `tried_at`, `Row`) read a table at a place.
#[derive(Clone, Copy)]
pub struct TwoRows<'a> {
    pub table: &'a [f32],
    pub p: usize,
    pub q: usize,
    pub width: usize,
    pub n: usize,
}

// The lists in which a row is worked out, lent from one row to the next: the dots of A's normals along an edge of B, the edges of A that pass the first
// test, and the edges that pass all three.
#[derive(Clone, Copy)]
pub struct Work {
    pub along: [f32; 128],
    pub list: [u8; 128],
    pub out: [u8; 128],
}

pub fn fails(product: f32) -> bool
    ensures { result ≡ at_least_eps product }
{
    product >= EPS
}

// How many are kept, with one more where it does not fail.
pub fn advanced(m: usize, failed: bool) -> usize
    requires { m < 128 }
    ensures { result ≡ cond failed m (m + 1) }
{
    if failed { m } else { m + 1 }
}

// 1 where the product passes, else 0: a number, since the ones are summed without a branch.
fn passes(product: f32) -> u8
    ensures { (result ≡ cond (at_least_eps product) 0 1) × (result ≤ 1) }
{
    if fails(product) { 0 } else { 1 }
}

// For each of the places 0 to width - 1 of the rows, 1 where it passes the first test and 0 where it fails; the return says how many pass.
fn mark(rows: &TwoRows, marks: &mut [u8]) -> u8
    requires { Wide rows.now.width rows.now.n rows.now.p rows.now.q rows.now.table.now × (length marks.old ≡ 128) }
    ensures { Marked (fails_first rows.now.table.now rows.now.p rows.now.q) rows.now.width result marks.new }
{
    let table = rows.table;
    let p = rows.p;
    let q = rows.q;
    let mut count = 0u8;
    for i in 0..rows.width {
        let one = passes(table[p + i] * table[q + i]);
        marks[i] = one;
        count += one;
    }
    count
}

// The numbers below n that are marked, in their order; the return says how many.
fn gather(marks: &[u8], n: usize, list: &mut [u8]) -> usize
    requires { (n ≤ 128) × (length marks.now ≡ 128) × (length list.old ≡ 128) × ((k : ℕ) → k < n → get_or marks.now k 0 ≤ 1) }
    ensures { (result ≤ n) × (length list.new ≡ 128) × (take result list.new ≡ passing (unmarked marks.now) (up_to n)) }
{
    let mut m = 0;
    for i in 0..n {
        list[m] = i as u8;
        m += usize::from(marks[i]);
    }
    m
}

// Of the edges 0 to n - 1 of A, those that pass the first test, in their order; the return says how many. Marks come first, since they go four at a
// time and tell whether there is anything to gather: for every other edge of B of two logs that lie flat there is not. They go over the whole width
// of a row, so that no edge is done alone; what the places above A's edges hold may keep a row from being left early and does nothing else.
pub fn sift(rows: &TwoRows, list: &mut [u8], marks: &mut [u8]) -> usize
    requires { Wide rows.now.width rows.now.n rows.now.p rows.now.q rows.now.table.now × (length list.old ≡ 128)
        × (length marks.old ≡ 128) }
    ensures { (result ≤ rows.now.n) × (length list.new ≡ 128) × (length marks.new ≡ 128)
        × (take result list.new ≡ passing (fails_first rows.now.table.now rows.now.p rows.now.q) (up_to rows.now.n)) }
{
    if mark(rows, marks) == 0 {
        return 0;
    }
    gather(marks, rows.n, list)
}

// Of the edges of the list, those that pass the other two tests, in their order. A's normals along B's edge stand in `along`, by A's faces.
fn sift_again(rows: &TwoRows, hull: &Hull, along: &[f32], list: &[u8], out: &mut [u8]) -> usize
    requires fits { EdgesIn hull.now.size hull.now.links.now × (2 * rows.now.n ≤ hull.now.size.half_edges)
        × (rows.now.p + rows.now.n ≤ length rows.now.table.now) × (length along.now ≡ 128) × (length list.now ≤ 128)
        × (length out.old ≡ 128) }
    requires listed { (k : ℕ) → k < length list.now → get_or list.now k 0 < rows.now.n }
    ensures { (result ≤ length list.now) × (length out.new ≡ 128)
        × (take result out.new ≡ passing (fails_later rows.now.table.now rows.now.p along.now hull.now.size hull.now.links.now) list.now) }
{
    let table = rows.table;
    let p = rows.p;
    let mut left = 0;
    for edge in list {
        let i = usize::from(*edge);
        let adc = along[hull.face_of(2 * i)];
        let bdc = along[hull.face_of(2 * i + 1)];
        out[left] = *edge;
        left = advanced(left, fails(adc * bdc) | fails(table[p + i] * bdc));
    }
    left
}

// The edges of the list, which have passed all tests of signs, against edge j of B.
fn scan_list(rows: &TwoRows, hull: &Hull, b: Edge, j: usize, list: &[u8], start: Lead) -> Lead
    requires fits { NumbersFit hull.now.size hull.now.numbers.now × EdgesIn hull.now.size hull.now.links.now
        × (2 * rows.now.n ≤ hull.now.size.half_edges) × (rows.now.p + rows.now.n ≤ length rows.now.table.now)
        × (rows.now.q + rows.now.n ≤ length rows.now.table.now) × (j < 128) }
    requires listed { (k : ℕ) → k < length list.now → get_or list.now k 0 < rows.now.n }
    requires going { start.apart ≡ false }
    ensures { result ≡ lead_after (λ k. tried_at hull.now.size.unit rows.now.table.now rows.now.p rows.now.q
        (edge_of_a hull.now.size hull.now.numbers.now hull.now.links.now) b j (get_or list.now k 0)) start (length list.now) }
{
    let table = rows.table;
    let p = rows.p;
    let q = rows.q;
    let mut lead = start;
    for edge in list {
        let i = usize::from(*edge);
        let a = axis_edges::edge_of_a(hull, i);
        lead = axis_edges::tried(hull.size.unit, table[p + i], table[q + i], a, b, i, j, lead);
        if lead.apart {
            return lead;
        }
    }
    lead
}

// Edge j of B against the edges of A, by the rows of its two normals.
pub fn scan_row(
    rows: &TwoRows,
    hull: &Hull,
    normals: &[f32],
    b: Edge,
    j: usize,
    start: Lead,
    work: &mut Work,
) -> Lead
    requires { RowReady hull.now.size hull.now.numbers.now hull.now.links.now rows.now.n normals.now b j start rows.now.table.now
        rows.now.p rows.now.q × Wide rows.now.width rows.now.n rows.now.p rows.now.q rows.now.table.now }
    ensures { result ≡ row_pairs hull.now.size.unit (edge_of_a hull.now.size hull.now.numbers.now hull.now.links.now) rows.now.n b j start }
{
    let m = sift(rows, &mut work.list, &mut work.out);
    if m == 0 {
        return start;
    }
    // In eights, so that no face is done alone. What the places above A's faces then hold is not looked at.
    let width = hull.size.faces.next_multiple_of(8);
    axis_lists::fill_row(b.direction, normals, width, &mut work.along, 0);
    let left = sift_again(rows, hull, &work.along, &work.list[..m], &mut work.out);
    scan_list(rows, hull, b, j, &work.out[..left], start)
}
