// The rule of a transform, by the unit of the hulls. That all of it is finite needs no test of its own, as in H8.
ghost use Rattle.std.specs.Prelude.{◌≡◌};
ghost use Rattle.hull_limits.specs.Transform.{transform_right};

use crate::{is_near_one, is_within};
use vector::Transform;

// Whether a transform breaks no rule.
pub fn transform_accepted(unit: usize, t: Transform) -> bool
    ensures { result ≡ transform_right unit t }
{
    let limit = units::coordinate_limit(unit);
    let p = t.p;
    let q = t.q;
    is_within(limit, p.x)
        & is_within(limit, p.y)
        & is_within(limit, p.z)
        & is_near_one(q.v.x * q.v.x + q.v.y * q.v.y + q.v.z * q.v.z + q.s * q.s)
}
