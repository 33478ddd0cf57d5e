// The support vertex by lanes of four: separating_axis.rs, `get_support_wide`.
ghost use Rattle.std.specs.Prelude.{◌≡◌, ◌+◌, ◌<◌};
ghost use Rattle.hull_links.specs.Links.{padded};
ghost use Rattle.axis_faces.specs.Support.{support_value_of, group_of, splat_of, support_of};
ghost use Rattle.axis_faces.specs.inner.Ready.{SupportReady};

use hull_links::Hull;
use lanes::FloatW;
use vector::Vec3;

// bias - dot, the dot from z to x.
fn value(bias: f32, d: Vec3, v: Vec3) -> f32
    ensures { result ≡ support_value_of bias d v }
{
    bias - (d.z * v.z + (d.y * v.y + d.x * v.x))
}

// Four vertices from `base` on, padding among them, each value with its vertex's number in the low seven bits.
fn group(bias: f32, d: Vec3, hull: &Hull, base: usize) -> FloatW
    requires { SupportReady bias d hull.now.size hull.now.numbers.now × (base + 3 < padded hull.now.size) }
    ensures { result ≡ group_of bias d hull.now.size hull.now.numbers.now base }
{
    let lanes = FloatW {
        x: value(bias, d, hull::vertex_at(hull, base)),
        y: value(bias, d, hull::vertex_at(hull, base + 1)),
        z: value(bias, d, hull::vertex_at(hull, base + 2)),
        w: value(bias, d, hull::vertex_at(hull, base + 3)),
    };
    lanes::embed_index_w(lanes, base as u32)
}

fn splat(x: f32) -> FloatW
    ensures { result ≡ splat_of x }
{
    FloatW {
        x,
        y: x,
        z: x,
        w: x,
    }
}

// The number of the vertex with the least value: least of each lane, then across lanes. It may be that of a padding lane.
pub fn get_support_wide(bias: f32, d: Vec3, hull: &Hull) -> usize
    requires { SupportReady bias d hull.now.size hull.now.numbers.now }
    ensures { (result ≡ support_of bias d hull.now.size hull.now.numbers.now) × (result < padded hull.now.size) }
{
    let groups = (hull.size.vertices + 3) / 4;
    let mut least = splat(units::huge(hull.size.unit));
    for g in 0..groups {
        least = lanes::min_w(least, group(bias, d, hull, 4 * g));
    }
    lanes::min_index_w(least) as usize
}
