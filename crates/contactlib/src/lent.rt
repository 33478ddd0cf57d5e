// The call as hosts know it: the cache is lent, and updated where it stands.
ghost use Rattle.collide.specs.Call.{collide_of};
ghost use Rattle.contactlib.specs.Lent.{Called};

use collide::collide_core;
use hull_links::{Hull, HullSize};
use manifold::{Outcome, SatCache};
use vector::Transform;

// One call. The cache at exit is the next cache; a refusal leaves every bit of it.
pub fn contact_collide(
    capacity: i32,
    numbers_a: &[f32],
    links_a: &[u8],
    size_a: HullSize,
    numbers_b: &[f32],
    links_b: &[u8],
    size_b: HullSize,
    transform: Transform,
    cache: &mut SatCache,
) -> Outcome
    ensures { Called (collide_of size_a numbers_a.now links_a.now size_b numbers_b.now
        links_b.now transform capacity cache.old) cache.old result cache.new }
{
    let a = Hull {
        numbers: numbers_a,
        links: links_a,
        size: size_a,
    };
    let b = Hull {
        numbers: numbers_b,
        links: links_b,
        size: size_b,
    };
    let answer = collide_core(capacity, &a, &b, transform, *cache);
    *cache = answer.cache;
    answer.outcome
}
