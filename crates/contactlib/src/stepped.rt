// A step in one call, for hosts that ask about many pairs of the same hulls.
ghost use Rattle.step.specs.Step.{Stepped};

use pools::Pools;
use step::{Step, step_over};

// Every hull is judged once, and its first broken rule noted in `judged`; every pair is answered as `contact_collide` answers it with a capacity of 4.
// Where a list has no room for that: 21, and nothing is written.
pub fn contact_step(
    numbers: &[f32],
    links: &[u8],
    hulls: &[u32],
    pairs: &[u32],
    transforms: &[f32],
    judged: &mut [u8],
    caches: &mut [u32],
    floats: &mut [f32],
    bytes: &mut [u8],
) -> Step
    ensures { Stepped numbers.now links.now hulls.now pairs.now transforms.now
        judged.old caches.old floats.old bytes.old result judged.new caches.new
        floats.new bytes.new }
{
    let pools = Pools {
        numbers,
        links,
        hulls,
    };
    step_over(&pools, pairs, transforms, judged, caches, floats, bytes)
}
