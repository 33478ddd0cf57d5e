// The length unit that a hull carries, and every limit that goes by it, formed as constants.rs does: a length of document 01 times the units per metre.
// A unit is a number and no enum, since a hull comes from C with any number there. Each limit is its constant's name in the Rust and one product, so that
// a function of the constant would say no more than the product.
#![tactic(auto)]

ghost use Rattle.std.specs.Prelude.{◌≡◌};
ghost use Rattle.units.specs.Units.{known_unit, units_per_meter};
ghost use Rattle.units.specs.Limits.{slop, speculative, huge, coordinate_limit, offset_limit, edge_limit};

// Whether this is a unit: 1, 10, 100 or 1000 a metre.
pub fn is_known(unit: usize) -> bool
    ensures { result ≡ known_unit unit }
{
    matches!(unit, 1 | 10 | 100 | 1000)
}

// The unit as a float. What is no unit counts as 1; no limit is asked for there.
pub fn get_length_units_per_meter(unit: usize) -> f32
    ensures { result ≡ units_per_meter unit }
{
    match unit {
        10 => 10.0,
        100 => 100.0,
        1000 => 1000.0,
        _ => 1.0,
    }
}

// The tolerance of a contact: 5 mm.
pub fn linear_slop(unit: usize) -> f32
    ensures { result ≡ slop unit }
{
    0.005 * get_length_units_per_meter(unit)
}

// How far apart two hulls may be and still have points: 20 mm.
pub fn speculative_distance(unit: usize) -> f32
    ensures { result ≡ speculative unit }
{
    4.0 * linear_slop(unit)
}

// Where the least support value starts: 100 km.
pub fn huge(unit: usize) -> f32
    ensures { result ≡ huge unit }
{
    100000.0 * get_length_units_per_meter(unit)
}

// How far coordinates, boxes, padding and positions may lie from 0 on each axis: 4096 m.
pub fn coordinate_limit(unit: usize) -> f32
    ensures { result ≡ coordinate_limit unit }
{
    4096.0 * get_length_units_per_meter(unit)
}

// How large the offset of a plane may be: 8192 m.
pub fn offset_limit(unit: usize) -> f32
    ensures { result ≡ offset_limit unit }
{
    8192.0 * get_length_units_per_meter(unit)
}

// How long an edge must be along some axis: 1/1024 m.
pub fn edge_limit(unit: usize) -> f32
    ensures { result ≡ edge_limit unit }
{
    0.0009765625 * get_length_units_per_meter(unit)
}
