// The refusals that are given before any work, in their order: 1 and 2 of the hulls, which the caller judges, 17 of their units, 3 of the transform,
// and, where there is a cache, 4 of what it names. What each says is in specs/Refusals.antt.
#![tactic(auto)]

ghost use Rattle.std.specs.Prelude.{◌≡◌};
ghost use Rattle.collide_outcome.specs.Told.{refusal_number};
ghost use Rattle.collide_refusals.specs.Refusals.{first_half, cache_right, placed_refusal_of, later_refusal_of};

use collide_outcome::Refusal;
use hull_limits::transform::transform_accepted;
use hull_links::HullSize;
use manifold::SatCache;
use manifold::kinds::{AxisKind, axis_kind};
use vector::Transform;

// Whether a number is that of the first of two half-edges: even, and below H.
fn first_half(size: HullSize, e: u8) -> bool
    ensures { result ≡ first_half size e }
{
    e % 2 == 0 && usize::from(e) < size.half_edges
}

// Whether what the cache names is there: refusal 4 where it is not.
fn cache_right(size_a: HullSize, size_b: HullSize, cache: SatCache) -> bool
    ensures { result ≡ cache_right size_a size_b cache }
{
    match axis_kind(cache.kind) {
        Some(AxisKind::FaceA) => usize::from(cache.index_a) < size_a.faces,
        Some(AxisKind::FaceB) => usize::from(cache.index_b) < size_b.faces,
        Some(AxisKind::Edges) => {
            first_half(size_a, cache.index_a) && first_half(size_b, cache.index_b)
        }
        None => true,
    }
}

// What is refused of where one hull stands to the other: units that differ, then the transform by their unit.
pub fn placed_refusal(
    size_a: HullSize,
    size_b: HullSize,
    transform: Transform,
) -> Result<(), Refusal>
    ensures { refusal_number result ≡ placed_refusal_of size_a size_b transform 0 }
{
    if size_a.unit != size_b.unit {
        return Err(Refusal::Units);
    }
    if !transform_accepted(size_a.unit, transform) {
        return Err(Refusal::Transform);
    }
    Ok(())
}

// The first refusal that is given before any work to two hulls that break no rule: their units, the transform, the cache.
pub fn later_refusal(
    size_a: HullSize,
    size_b: HullSize,
    transform: Transform,
    cache: SatCache,
) -> Result<(), Refusal>
    ensures { refusal_number result ≡ later_refusal_of size_a size_b transform cache }
{
    placed_refusal(size_a, size_b, transform)?;
    if !cache_right(size_a, size_b, cache) {
        return Err(Refusal::Cache);
    }
    Ok(())
}
