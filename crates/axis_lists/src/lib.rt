// The lists that the edge phase reads: vectors as three lists of 128 in one slice, filled by loops with one store and no branch, which go
// four numbers at a time.
#![tactic(auto)]

ghost use Rattle.std.specs.Prelude.{◌≡◌, ℕ, ◌+◌, ◌*◌, ◌<◌, ◌≤◌, length};
ghost use Rattle.hull_links.specs.Links.{NumbersFit};
ghost use Rattle.rotation.specs.Bounded.{row_of};
ghost use Rattle.hull.specs.Numbers.{vertex_at, plane_at};
ghost use Rattle.axis_edges.specs.Edges.{edge_of_a, turned_normal, turned_point};
ghost use Rattle.axis_edges.specs.inner.Ready.{EdgesIn};
ghost use Rattle.axis_lists.specs.inner.Lists.{vector_in, Three, Row};
ghost use Rattle.axis_lists.specs.inner.Fills.{Given, Filled, difference_at, turned_normal_at, turned_point_at, normal_at, dot_at};

use axis_edges::dot_right;
use hull_links::Hull;
use vector::Vec3;

// Vector k of three lists.
pub fn vector_in(lists: &[f32], k: usize) -> Vec3
    requires { (k < 128) × (length lists.now ≡ 384) }
    ensures { result ≡ vector_in lists.now k }
{
    Vec3 {
        x: lists[k],
        y: lists[128 + k],
        z: lists[256 + k],
    }
}

// A stretch of a list: at the place at + k what `f` gives for k. Each caller's function is inlined, so the loop has one store and no branch.
fn fill<F: Fn(usize) -> f32>(f: F, n: usize, out: &mut [f32], at: usize)
    requires room { at + n ≤ length out.old }
    requires callable { (k : ℕ) → k < n → F.pre f k }
    ensures { Given (F.post f) at n out.old out.new }
{
    for k in 0..n {
        out[at + k] = f(k);
    }
}

// One coordinate of the first n edges' directions; the coordinate's list starts at `from`.
fn fill_differences(hull: &Hull, from: usize, n: usize, out: &mut [f32], at: usize)
    requires { EdgesIn hull.now.size hull.now.links.now × (2 * n ≤ hull.now.size.half_edges)
        × (from + hull.now.size.vertices ≤ length hull.now.numbers.now) × (at + n ≤ length out.old) }
    ensures { Filled (difference_at hull.now.numbers.now hull.now.links.now hull.now.size from) at n out.old out.new }
{
    let numbers = hull.numbers;
    let difference = |i: usize| {
        let start = hull.origin_of(2 * i);
        let end = hull.origin_of(2 * i + 1);
        numbers[from + end] - numbers[from + start]
    };
    fill(difference, n, out, at);
}

// One coordinate of the normals of B's faces, turned by one row and negated.
fn fill_turned_normals(row: Vec3, hull: &Hull, out: &mut [f32], at: usize)
    requires { NumbersFit hull.now.size hull.now.numbers.now × (at + hull.now.size.faces ≤ length out.old) }
    ensures { Filled (turned_normal_at row hull.now.size hull.now.numbers.now) at hull.now.size.faces out.old out.new }
{
    let turned = |f: usize| -dot_right(row, hull::plane_at(hull, f).normal);
    fill(turned, hull.size.faces, out, at);
}

// One coordinate of the vertices of B, turned by one row, moved and negated.
fn fill_turned_points(row: Vec3, shift: f32, hull: &Hull, out: &mut [f32], at: usize)
    requires { NumbersFit hull.now.size hull.now.numbers.now × (at + hull.now.size.vertices ≤ length out.old) }
    ensures { Filled (turned_point_at row shift hull.now.size hull.now.numbers.now) at hull.now.size.vertices out.old out.new }
{
    let turned = |v: usize| -(dot_right(row, hull::vertex_at(hull, v)) + shift);
    fill(turned, hull.size.vertices, out, at);
}

// One coordinate of the first n normals as they stand; the first one is at `from`.
fn fill_normals(numbers: &[f32], from: usize, n: usize, out: &mut [f32], at: usize)
    requires { (from + 4 * n ≤ length numbers.now + 3) × (at + n ≤ length out.old) }
    ensures { Filled (normal_at numbers.now from) at n out.old out.new }
{
    fill(|i| numbers[from + 4 * i], n, out, at);
}

// One vector along the first n vectors of three lists.
pub fn fill_row(v: Vec3, lists: &[f32], n: usize, out: &mut [f32], at: usize)
    requires { (n ≤ 128) × (length lists.now ≡ 384) × (at + n ≤ length out.old) }
    ensures { Filled (dot_at v lists.now) at n out.old out.new }
{
    fill(|i| dot_right(v, vector_in(lists, i)), n, out, at);
}

// Two vectors along the first n vectors of three lists, so that the lists are read once for both rows.
pub fn fill_two_rows(
    v: Vec3,
    w: Vec3,
    lists: &[f32],
    n: usize,
    out: &mut [f32],
    at: usize,
    behind: usize,
)
    requires { (n ≤ 128) × (length lists.now ≡ 384) × (at + n ≤ behind) × (behind + n ≤ length out.old) }
    ensures { (length out.new ≡ length out.old) × Row v (vector_in lists.now) n at out.new
        × Row w (vector_in lists.now) n behind out.new }
{
    for i in 0..n {
        let u = vector_in(lists, i);
        out[at + i] = dot_right(v, u);
        out[behind + i] = dot_right(w, u);
    }
}

// The directions of the first n edges of A.
pub fn directions(hull: &Hull, n: usize, out: &mut [f32])
    requires { NumbersFit hull.now.size hull.now.numbers.now × EdgesIn hull.now.size hull.now.links.now
        × (2 * n ≤ hull.now.size.half_edges) × (length out.old ≡ 384) }
    ensures { Three (λ k. (edge_of_a hull.now.size hull.now.numbers.now hull.now.links.now k).direction) n out.new }
{
    fill_differences(hull, hull_links::X_FROM, n, out, 0);
    fill_differences(hull, hull_links::y_from(hull.size), n, out, 128);
    fill_differences(hull, hull_links::z_from(hull.size), n, out, 256);
}

// The normals of A's faces.
pub fn normals(hull: &Hull, out: &mut [f32])
    requires { NumbersFit hull.now.size hull.now.numbers.now × (length out.old ≡ 384) }
    ensures { Three (λ f. (plane_at hull.now.size hull.now.numbers.now f).normal) hull.now.size.faces out.new }
{
    let numbers = hull.numbers;
    let n = hull.size.faces;
    let from = hull_links::planes_from(hull.size);
    fill_normals(numbers, from, n, out, 0);
    fill_normals(numbers, from + 1, n, out, 128);
    fill_normals(numbers, from + 2, n, out, 256);
}

// Row i of a rotation.
fn row(r: [[f32; 3]; 3], i: usize) -> Vec3
    requires { i < 3 }
    ensures { result ≡ row_of r i }
{
    Vec3 {
        x: r[i][0],
        y: r[i][1],
        z: r[i][2],
    }
}

// The normals of B's faces in A's frame, negated.
pub fn turned_normals(r: [[f32; 3]; 3], hull: &Hull, out: &mut [f32])
    requires { NumbersFit hull.now.size hull.now.numbers.now × (length out.old ≡ 384) }
    ensures { Three (λ f. turned_normal r (plane_at hull.now.size hull.now.numbers.now f).normal) hull.now.size.faces out.new }
{
    fill_turned_normals(row(r, 0), hull, out, 0);
    fill_turned_normals(row(r, 1), hull, out, 128);
    fill_turned_normals(row(r, 2), hull, out, 256);
}

// The vertices of B in A's frame, negated.
pub fn turned_points(r: [[f32; 3]; 3], position: Vec3, hull: &Hull, out: &mut [f32])
    requires { NumbersFit hull.now.size hull.now.numbers.now × (length out.old ≡ 384) }
    ensures { Three (λ v. turned_point r position (vertex_at hull.now.size hull.now.numbers.now v)) hull.now.size.vertices out.new }
{
    fill_turned_points(row(r, 0), position.x, hull, out, 0);
    fill_turned_points(row(r, 1), position.y, hull, out, 128);
    fill_turned_points(row(r, 2), position.z, hull, out, 256);
}
