// The call that a frame of kind 12 asks for, made. What stands where in the frame is in specs/Requests.antt.
#![tactic(auto)]

ghost use Rattle.std.specs.Prelude.{◌≡◌, ◌≤◌, leb, length};
ghost use Rattle.hull_links.specs.Links.{number_count};
ghost use Rattle.frame_decode.specs.Hulls.{Sent, numbers_taken};
ghost use Rattle.frame_call.specs.Requests.{Sized, call_of};

use collide::collide_core;
use frame_decode::hulls::{links_from, planes_at, take_numbers};
use frame_decode::{cache_at, capacity_at, transform_at};
use hull_links::{Hull, HullSize, planes_from};
use manifold::Answer;

// How many numbers the largest hull has that H1 allows, and a small one at the most: a cube has 54 and a log 134. Room for them is cleared before it is
// filled, so a small one is faster.
const LARGE: usize = 902;

const SMALL: usize = 256;

// Whether the numbers of a hull fit into the small room.
fn fits_small(s: HullSize) -> bool
    requires { Sent s }
    ensures { result ≡ leb (number_count s) 256 }
{
    planes_from(s) + 4 * s.faces <= SMALL
}

// The call that a frame of the right length asks for, in two rooms that are lent: each holds what is taken of its hull's numbers. The links are lent where
// they stand in the frame.
fn call_in(
    frame: &[u8],
    size_a: HullSize,
    at: usize,
    size_b: HullSize,
    numbers_a: &mut [f32],
    numbers_b: &mut [f32],
) -> Answer
    requires { Sized frame.now size_a at size_b × (length (numbers_taken frame.now 41 size_a) ≤ length numbers_a.old)
        × (length (numbers_taken frame.now at size_b) ≤ length numbers_b.old) }
    ensures { result ≡ call_of frame.now }
{
    let count_a = take_numbers(frame, 41, size_a, numbers_a);
    let count_b = take_numbers(frame, at, size_b, numbers_b);
    let a = Hull {
        numbers: &numbers_a[..count_a],
        links: &frame[links_from(size_a, 41)..planes_at(size_a, 41)],
        size: size_a,
    };
    let b = Hull {
        numbers: &numbers_b[..count_b],
        links: &frame[links_from(size_b, at)..planes_at(size_b, at)],
        size: size_b,
    };
    collide_core(
        capacity_at(frame, 1),
        &a,
        &b,
        transform_at(frame, 13),
        cache_at(frame, 5),
    )
}

// The call that a frame of the right length asks for; hull B begins at `at`. No room is cleared for the largest hull where both are small.
pub fn call_of(frame: &[u8], size_a: HullSize, at: usize, size_b: HullSize) -> Answer
    requires { Sized frame.now size_a at size_b }
    ensures { result ≡ call_of frame.now }
{
    if fits_small(size_a) && fits_small(size_b) {
        return call_in(
            frame,
            size_a,
            at,
            size_b,
            &mut [0.0; SMALL],
            &mut [0.0; SMALL],
        );
    }
    call_in(
        frame,
        size_a,
        at,
        size_b,
        &mut [0.0; LARGE],
        &mut [0.0; LARGE],
    )
}
