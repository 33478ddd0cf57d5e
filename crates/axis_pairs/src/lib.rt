// The edge phase of separating_axis.rs: every edge of B against every edge of A. The dot of a normal of B along an edge of A is worked out
// once for the face and the edge, in a table, and not once for each pair; so is that of a normal of A along an edge of B. The axis is worked
// out for the pairs that pass all tests alone.
#![tactic(auto)]

ghost use Rattle.std.specs.Prelude.{true, ◌≡◌, ◌+◌, ◌*◌, ◌/◌, ◌<◌, ◌≤◌, leb, length};
ghost use Rattle.hull_links.specs.Links.{NumbersFit};
ghost use Rattle.axis_edges.specs.Edges.{edge_of_a, edge_of_b};
ghost use Rattle.axis_edges.specs.inner.Ready.{EdgesIn};
ghost use Rattle.axis_lists.specs.inner.Lists.{vector_in, Three};
ghost use Rattle.axis_pairs.specs.All.{all_pairs};
ghost use Rattle.axis_pairs.specs.inner.Pairs.{edge_in, Table, BothRows, ScanReady};

use axis_best::Lead;
use axis_edges::Edge;
use axis_row::{TwoRows, Work};
use hull_links::Hull;
use vector::Vec3;
use vector::arithmetic::sub;

// The vectors that the edge phase reads, each kind as three lists of coordinates: the directions of A's edges, the normals of A's faces, and the
// normals of B's faces and B's vertices in A's frame, negated.
#[derive(Clone, Copy)]
struct Lists {
    directions: [f32; 384],
    normals: [f32; 384],
    turned: [f32; 384],
    points: [f32; 384],
}

// Edge j of B, from the lists of B's normals and vertices in A's frame.
fn edge_of_b(lists: &Lists, b: &Hull, j: usize) -> Edge
    requires { EdgesIn b.now.size b.now.links.now × (2 * j + 1 < b.now.size.half_edges) }
    ensures { result ≡ edge_in lists.now.turned lists.now.points b.now.size b.now.links.now j }
{
    let from = axis_lists::vector_in(&lists.points, b.origin_of(2 * j));
    let to = axis_lists::vector_in(&lists.points, b.origin_of(2 * j + 1));
    Edge {
        direction: sub(to, from),
        normal0: axis_lists::vector_in(&lists.turned, b.face_of(2 * j)),
        normal1: axis_lists::vector_in(&lists.turned, b.face_of(2 * j + 1)),
        vertex: from,
    }
}

// Every normal of B along every edge of A, `width` places to a face.
fn fill_table(lists: &Lists, faces: usize, width: usize, table: &mut [f32])
    requires { (faces ≤ 128) × (width ≤ 128) × (faces * width ≤ length table.old) }
    ensures { (length table.new ≡ length table.old)
        × Table lists.now.turned faces (vector_in lists.now.directions) width table.new }
{
    for f in 0..faces {
        let normal = axis_lists::vector_in(&lists.turned, f);
        axis_lists::fill_row(normal, &lists.directions, width, table, f * width);
    }
}

// Whether there is room for every row, as for two logs; the table holds them then. A bool and no Option of a table: either way the caller's table is lent.
fn fill_whole(lists: &Lists, faces: usize, width: usize, table: &mut [f32]) -> bool
    requires { (faces ≤ 128) × (width ≤ 128) × (length table.old ≡ 1024) }
    ensures { (result ≡ leb (faces * width) 1024) × (length table.new ≡ 1024)
        × (result ≡ true → Table lists.now.turned faces (vector_in lists.now.directions) width table.new) }
{
    if 1024 < faces * width {
        return false;
    }
    fill_table(lists, faces, width, table);
    true
}

// Where the rows of the two faces of an edge of B begin.
#[derive(Clone, Copy)]
struct Places {
    first: usize,
    second: usize,
}

// The rows of the faces `first` and `second`, between which edge b of B lies: where the table holds every row they stand there, else they are filled
// in, each with room for the most edges that a hull has.
fn rows_of(
    whole: bool,
    first: usize,
    second: usize,
    b: Edge,
    lists: &Lists,
    width: usize,
    table: &mut [f32],
) -> Places
    requires { (width ≤ 128) × (length table.old ≡ 1024)
        × (whole ≡ true → BothRows b (vector_in lists.now.directions) width (first * width) (second * width) table.old) }
    ensures { (length table.new ≡ 1024) × (whole ≡ true → table.new ≡ table.old)
        × BothRows b (vector_in lists.now.directions) width result.first result.second table.new }
{
    let directions = &lists.directions;
    if whole {
        return Places {
            first: first * width,
            second: second * width,
        };
    }
    axis_lists::fill_two_rows(b.normal0, b.normal1, directions, width, table, 0, 128);
    Places {
        first: 0,
        second: 128,
    }
}

// The first m edges of B against the first n of A. The table holds every row, or has room for the two of one edge.
fn scan_rows(
    whole: bool,
    width: usize,
    lists: &Lists,
    a: &Hull,
    n: usize,
    b: &Hull,
    m: usize,
    table: &mut [f32],
) -> Lead
    requires ready { ScanReady a.now.size a.now.numbers.now a.now.links.now n lists.now.normals lists.now.turned lists.now.points
        b.now.size b.now.links.now m }
    requires stand { Three (λ k. (edge_of_a a.now.size a.now.numbers.now a.now.links.now k).direction) n lists.now.directions
        × (n ≤ width) × (width ≤ 128) × (length table.old ≡ 1024)
        × (whole ≡ true → Table lists.now.turned b.now.size.faces (vector_in lists.now.directions) width table.old) }
    ensures { result ≡ all_pairs a.now.size.unit (edge_of_a a.now.size a.now.numbers.now a.now.links.now) n
        (edge_in lists.now.turned lists.now.points b.now.size b.now.links.now) m }
{
    let mut work = Work {
        along: [0.0f32; 128],
        list: [0u8; 128],
        out: [0u8; 128],
    };
    let mut lead = axis_best::none();
    for j in 0..m {
        let edge = edge_of_b(lists, b, j);
        let first = b.face_of(2 * j);
        let second = b.face_of(2 * j + 1);
        let places = rows_of(whole, first, second, edge, lists, width, table);
        let rows = TwoRows {
            table: &*table,
            p: places.first,
            q: places.second,
            width,
            n,
        };
        lead = axis_row::scan_row(&rows, a, &lists.normals, edge, j, lead, &mut work);
        if lead.apart {
            return lead;
        }
    }
    lead
}

// The rows are scanned, in a table that holds all of them for a small pair and two at a time for a large one. It has 1,024 places whatever the hulls
// are: room for every row of the largest would be 64 KB of the caller's stack.
fn scan(lists: &Lists, a: &Hull, n: usize, b: &Hull, m: usize) -> Lead
    requires ready { ScanReady a.now.size a.now.numbers.now a.now.links.now n lists.now.normals lists.now.turned lists.now.points
        b.now.size b.now.links.now m }
    requires stand { Three (λ k. (edge_of_a a.now.size a.now.numbers.now a.now.links.now k).direction) n lists.now.directions }
    ensures { result ≡ all_pairs a.now.size.unit (edge_of_a a.now.size a.now.numbers.now a.now.links.now) n
        (edge_in lists.now.turned lists.now.points b.now.size b.now.links.now) m }
{
    // In eights, so that no edge is done alone. What stands above the edges is not looked at.
    let width = n.next_multiple_of(8);
    let mut table = [0.0f32; 1024];
    let whole = fill_whole(lists, b.size.faces, width, &mut table);
    scan_rows(whole, width, lists, a, n, b, m, &mut table)
}

// All pairs of an edge of A and an edge of B, with B turned by r and moved to `position`.
pub fn search_edges(a: &Hull, b: &Hull, r: [[f32; 3]; 3], position: Vec3) -> Lead
    requires { NumbersFit a.now.size a.now.numbers.now × EdgesIn a.now.size a.now.links.now × NumbersFit b.now.size b.now.numbers.now
        × EdgesIn b.now.size b.now.links.now }
    ensures { result ≡ all_pairs a.now.size.unit (edge_of_a a.now.size a.now.numbers.now a.now.links.now) (a.now.size.half_edges / 2)
        (edge_of_b r position b.now.size b.now.numbers.now b.now.links.now) (b.now.size.half_edges / 2) }
{
    let n = a.size.half_edges / 2;
    let m = b.size.half_edges / 2;
    let mut lists = Lists {
        directions: [0.0f32; 384],
        normals: [0.0f32; 384],
        turned: [0.0f32; 384],
        points: [0.0f32; 384],
    };
    axis_lists::directions(a, n, &mut lists.directions);
    axis_lists::normals(a, &mut lists.normals);
    axis_lists::turned_normals(r, b, &mut lists.turned);
    axis_lists::turned_points(r, position, b, &mut lists.points);
    scan(&lists, a, n, b, m)
}
