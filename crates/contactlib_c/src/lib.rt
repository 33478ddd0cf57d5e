// What hosts link: the functions of contactlib, exported by the C calling convention under their own names, each with its contract. A slice is a pointer
// and a length. The archive that comes of this crate goes to hosts as libcontactlib.a (tools/build.sh).
#![tactic(auto)]

ghost use Rattle.std.specs.Prelude.{◌≡◌};
ghost use Rattle.hull.specs.Rule8.{broken_rule};
ghost use Rattle.collide.specs.Call.{collide_of};
ghost use Rattle.apart.specs.Question.{question_of};
ghost use Rattle.step.specs.Step.{Stepped};
ghost use Rattle.contactlib.specs.Abi.{abi_number};
ghost use Rattle.contactlib.specs.Framed.{Framed};
ghost use Rattle.contactlib.specs.Lent.{Called};

use apart::Apart;
use hull_links::HullSize;
use manifold::{Outcome, SatCache};
use step::Step;
use vector::Transform;

// Which records and functions this library has, as a number: a host compares it with the one that its header or wrapper was written for.
#[unsafe(no_mangle)]
pub extern "C" fn contact_abi() -> u32
    ensures { result ≡ abi_number }
{
    contactlib::abi::contact_abi()
}

// Whether two hulls are apart, for hosts that want a yes or a no and no points.
#[unsafe(no_mangle)]
pub extern "C" fn contact_apart(
    numbers_a: &[f32],
    links_a: &[u8],
    size_a: HullSize,
    numbers_b: &[f32],
    links_b: &[u8],
    size_b: HullSize,
    transform: Transform,
) -> Apart
    ensures { result ≡ question_of size_a numbers_a.now links_a.now size_b numbers_b.now
        links_b.now transform }
{
    contactlib::asked::contact_apart(
        numbers_a, links_a, size_a, numbers_b, links_b, size_b, transform,
    )
}

// The answer to one frame of bytes, for hosts that have frames.
#[unsafe(no_mangle)]
pub extern "C" fn contact_answer(frame: &[u8], answer: &mut [u8]) -> usize
    ensures { Framed frame.now answer.old result answer.new }
{
    contactlib::framed::contact_answer(frame, answer)
}

// Which rule a hull breaks, for hosts whose call was refused by 1 or 2, and for those that judge a hull when they make it.
#[unsafe(no_mangle)]
pub extern "C" fn contact_first_broken_rule(numbers: &[f32], links: &[u8], size: HullSize) -> u8
    ensures { result ≡ broken_rule size numbers.now links.now }
{
    contactlib::judged::contact_first_broken_rule(numbers, links, size)
}

// The call as hosts know it: the cache is lent, and updated where it stands.
#[unsafe(no_mangle)]
pub extern "C" fn contact_collide(
    capacity: i32,
    numbers_a: &[f32],
    links_a: &[u8],
    size_a: HullSize,
    numbers_b: &[f32],
    links_b: &[u8],
    size_b: HullSize,
    transform: Transform,
    cache: &mut SatCache,
) -> Outcome
    ensures { Called (collide_of size_a numbers_a.now links_a.now size_b numbers_b.now
        links_b.now transform capacity cache.old) cache.old result cache.new }
{
    contactlib::lent::contact_collide(
        capacity, numbers_a, links_a, size_a, numbers_b, links_b, size_b, transform, cache,
    )
}

// A step in one call, for hosts that ask about many pairs of the same hulls.
#[unsafe(no_mangle)]
pub extern "C" fn contact_step(
    numbers: &[f32],
    links: &[u8],
    hulls: &[u32],
    pairs: &[u32],
    transforms: &[f32],
    judged: &mut [u8],
    caches: &mut [u32],
    floats: &mut [f32],
    bytes: &mut [u8],
) -> Step
    ensures { Stepped numbers.now links.now hulls.now pairs.now transforms.now
        judged.old caches.old floats.old bytes.old result judged.new caches.new
        floats.new bytes.new }
{
    contactlib::stepped::contact_step(
        numbers, links, hulls, pairs, transforms, judged, caches, floats, bytes,
    )
}
