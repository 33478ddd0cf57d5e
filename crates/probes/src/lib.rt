// What the runs and the benchmarks of host/ link: a door to each layer, thin. What hosts of the routine link is another library. A probe of several
// helpers answers them all in one record, so that one call tries a whole layer. The doors to the axis search are in axes.rt, to the cuts and picks in
// cuts.rt. The lists of a hull stand one by one, as C lends them; corners are lent as the record that they are.
#![tactic(auto)]

pub mod axes;
pub mod cuts;

ghost use Rattle.std.specs.Prelude.{◌≡◌, ◌+◌, ◌<◌};
ghost use Rattle.std.specs.Float.{binary32};
ghost use Rattle.std.specs.Float.Ieee.{of_bits, to_bits};
ghost use Rattle.root.specs.Root.{root_of};
ghost use Rattle.vector.specs.Shape.{support_vertex_of, Lists};
ghost use Rattle.lanes.specs.Lanes.{FiniteW, embed_w_of, least_w_of, min_index_of};
ghost use Rattle.vector.specs.Scalar.{min_int_of};
ghost use Rattle.manifold.specs.declared.pairs.FeatureOwner.{FeatureOwner};
ghost use Rattle.manifold.specs.Pairs.{pair_of, flip_of};
ghost use Rattle.hull_limits.specs.Transform.{transform_right};
ghost use Rattle.probes.specs.Probes.{vectors_of, rotations_of, shapes_of, lines_of, limits_of};

use lanes::FloatW;
use manifold::FeaturePair;
use manifold::pairs::{FeatureOwner, flip_pair};
use vector::{Aabb, Plane, Transform, Vec3};

#[repr(C)]
#[derive(Clone, Copy)]
pub struct Vectors {
    pub sum: Vec3,
    pub difference: Vec3,
    pub opposite: Vec3,
    pub size: Vec3,
    pub across: Vec3,
    pub scaled: Vec3,
    pub onward: Vec3,
    pub back: Vec3,
    pub between: Vec3,
    pub unit: Vec3,
    pub along: f32,
    pub square: f32,
    pub least: f32,
    pub greatest: f32,
}

#[repr(C)]
#[derive(Clone, Copy)]
pub struct Rotations {
    pub by_rows: Vec3,
    pub by_columns: Vec3,
    pub turned: Vec3,
    pub turned_back: Vec3,
    pub carried: Vec3,
    pub carried_back: Vec3,
    pub inverse: Transform,
}

#[repr(C)]
#[derive(Clone, Copy)]
pub struct Shapes {
    pub separation: f32,
    pub through: Plane,
    pub center: Vec3,
    pub extents: Vec3,
    pub farther: usize,
}

#[repr(C)]
#[derive(Clone, Copy)]
pub struct Lines {
    pub perp: Vec3,
    pub point1: Vec3,
    pub point2: Vec3,
    pub s1: f32,
    pub s2: f32,
    pub within: bool,
}

#[repr(C)]
#[derive(Clone, Copy)]
pub struct Limits {
    pub slop: f32,
    pub speculative: f32,
    pub huge: f32,
    pub units: f32,
    pub coordinate: f32,
    pub offset: f32,
    pub edge: f32,
}

// A pair turned round; or the refusal's number and four zeros. A number and no Result: C is handed this record.
#[repr(C)]
#[derive(Clone, Copy)]
pub struct Flipped {
    pub status: u8,
    pub pair: FeaturePair,
}

// The root of the float with these bits, as bits.
#[unsafe(no_mangle)]
pub extern "C" fn probe_root_bits(bits: u32) -> u32
    ensures { result ≡ to_bits binary32 (root_of (of_bits binary32 bits)) }
{
    manifold::bits::bits_of(root::root(manifold::bits::float_of(bits)))
}

#[unsafe(no_mangle)]
pub extern "C" fn probe_root(x: f32) -> f32
    ensures { result ≡ root_of x }
{
    root::root(x)
}

// The helpers on two vectors and a number.
#[unsafe(no_mangle)]
pub extern "C" fn probe_vectors(a: Vec3, b: Vec3, s: f32) -> Vectors
    ensures { result ≡ vectors_of a b s }
{
    Vectors {
        sum: vector::arithmetic::add(a, b),
        difference: vector::arithmetic::sub(a, b),
        opposite: vector::arithmetic::neg(a),
        size: vector::arithmetic::abs(a),
        across: vector::arithmetic::cross(a, b),
        scaled: vector::arithmetic::mul_sv(s, a),
        onward: vector::arithmetic::mul_add(a, s, b),
        back: vector::arithmetic::mul_sub(a, s, b),
        between: vector::arithmetic::lerp(a, b, s),
        unit: vector::arithmetic::normalize(a),
        along: vector::arithmetic::dot(a, b),
        square: vector::arithmetic::length_squared(a),
        least: vector::scalar::min_float(a.x, s),
        greatest: vector::scalar::max_float(a.x, s),
    }
}

// A vector turned and carried every way.
#[unsafe(no_mangle)]
pub extern "C" fn probe_rotations(t: Transform, v: Vec3) -> Rotations
    ensures { result ≡ rotations_of t v }
{
    let rows = rotation::make_matrix_from_quat(t.q);
    let columns = rotation::transpose(rows);
    Rotations {
        by_rows: rotation::mul_mv(rows, v),
        by_columns: rotation::mul_mv(columns, v),
        turned: rotation::rotate_vector(t.q, v),
        turned_back: rotation::inv_rotate_vector(t.q, v),
        carried: rotation::transform_point(t, v),
        carried_back: rotation::inv_transform_point(t, v),
        inverse: rotation::invert_transform(t),
    }
}

// A plane and a point, a box, and which of its corners lies farther along the point.
#[unsafe(no_mangle)]
pub extern "C" fn probe_shapes(plane: Plane, p: Vec3, b: Aabb) -> Shapes
    ensures { result ≡ shapes_of plane p b }
{
    Shapes {
        separation: vector::shape::plane_separation(plane, p),
        through: vector::shape::make_plane_from_normal_and_point(plane.normal, p),
        center: vector::shape::aabb_center(b),
        extents: vector::shape::aabb_extents(b),
        farther: vector::shape::get_point_support([b.lower, b.upper], p),
    }
}

#[unsafe(no_mangle)]
pub extern "C" fn probe_support_vertex(
    xs: &[f32],
    ys: &[f32],
    zs: &[f32],
    count: usize,
    d: Vec3,
) -> usize
    requires { Lists xs.now ys.now zs.now count }
    ensures { result ≡ support_vertex_of xs.now ys.now zs.now count d }
{
    vector::shape::find_hull_support_vertex(xs, ys, zs, count, d)
}

// The three awaited helpers.
#[unsafe(no_mangle)]
pub extern "C" fn probe_lines(p1: Vec3, d1: Vec3, p2: Vec3, d2: Vec3) -> Lines
    ensures { result ≡ lines_of p1 d1 p2 d2 }
{
    let line = vector::awaited::line_distance(p1, d1, p2, d2);
    Lines {
        perp: vector::awaited::arbitrary_perp(p1),
        point1: line.point1,
        point2: line.point2,
        s1: line.s1,
        s2: line.s2,
        within: vector::awaited::is_within_segments(line),
    }
}

#[unsafe(no_mangle)]
pub extern "C" fn probe_embed_index_w(value: FloatW, base: u32) -> FloatW
    requires { FiniteW value × (base + 3 < 128) }
    ensures { result ≡ embed_w_of value base }
{
    lanes::embed_index_w(value, base)
}

#[unsafe(no_mangle)]
pub extern "C" fn probe_min_w(a: FloatW, b: FloatW) -> FloatW
    requires { FiniteW a × FiniteW b }
    ensures { result ≡ least_w_of a b }
{
    lanes::min_w(a, b)
}

#[unsafe(no_mangle)]
pub extern "C" fn probe_min_index_w(a: FloatW) -> u32
    requires { FiniteW a }
    ensures { result ≡ min_index_of a }
{
    lanes::min_index_w(a)
}

#[unsafe(no_mangle)]
pub extern "C" fn probe_min_int(a: usize, b: usize) -> usize
    ensures { result ≡ min_int_of a b }
{
    vector::scalar::min_int(a, b)
}

// The tag of a point where an edge of A crosses one of B.
#[unsafe(no_mangle)]
pub extern "C" fn probe_edge_pair(index_a: u8, index_b: u8) -> FeaturePair
    ensures { result ≡ pair_of FeatureOwner.ShapeA index_a FeatureOwner.ShapeB index_b }
{
    manifold::pairs::make_feature_pair(FeatureOwner::ShapeA, index_a, FeatureOwner::ShapeB, index_b)
}

#[unsafe(no_mangle)]
pub extern "C" fn probe_flip_pair(pair: FeaturePair) -> Flipped
    ensures { let flipped = flip_of pair in (result.status ≡ flipped.status) × (result.pair ≡ flipped.pair) }
{
    match flip_pair(pair) {
        Some(turned) => Flipped {
            status: 0,
            pair: turned,
        },
        None => Flipped {
            status: 8,
            pair: FeaturePair {
                owner1: 0,
                index1: 0,
                owner2: 0,
                index2: 0,
            },
        },
    }
}

// Every limit that goes by the unit.
#[unsafe(no_mangle)]
pub extern "C" fn probe_limits(unit: usize) -> Limits
    ensures { result ≡ limits_of unit }
{
    Limits {
        slop: units::linear_slop(unit),
        speculative: units::speculative_distance(unit),
        huge: units::huge(unit),
        units: units::get_length_units_per_meter(unit),
        coordinate: units::coordinate_limit(unit),
        offset: units::offset_limit(unit),
        edge: units::edge_limit(unit),
    }
}

#[unsafe(no_mangle)]
pub extern "C" fn probe_transform_accepted(unit: usize, t: Transform) -> bool
    ensures { result ≡ transform_right unit t }
{
    hull_limits::transform::transform_accepted(unit, t)
}
