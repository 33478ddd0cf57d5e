// A hull in a frame: how long it is, where its links stand, and its numbers, taken into a list that is lent.
ghost use Rattle.std.specs.Prelude.{◌≡◌, ◌+◌, ◌*◌, ◌≤◌, length};
ghost use Rattle.hull_links.specs.Links.{link_count};
ghost use Rattle.lists.specs.Written.{Wrote};
ghost use Rattle.frame_decode.specs.Fields.{floats_at};
ghost use Rattle.frame_decode.specs.Hulls.{Sent, links_from, planes_at, hull_length, numbers_taken, Taken};

use crate::float_at;
use hull_links::{HullSize, planes_from};

fn link_count(s: HullSize) -> usize
    requires { Sent s }
    ensures { result ≡ link_count s }
{
    s.vertices + 4 * s.half_edges + s.faces
}

pub fn hull_length(s: HullSize) -> usize
    requires { Sent s }
    ensures { result ≡ hull_length s }
{
    8 + 4 * planes_from(s) + link_count(s) + 16 * s.faces
}

// Where the links of the hull that begins at `at` begin, and where they end and its planes begin.
pub fn links_from(s: HullSize, at: usize) -> usize
    requires { Sent s × (at + hull_length s ≤ 0x7fff_ffff_ffff_ffff) }
    ensures { result ≡ links_from s at }
{
    at + 8 + 4 * planes_from(s)
}

pub fn planes_at(s: HullSize, at: usize) -> usize
    requires { Sent s × (at + hull_length s ≤ 0x7fff_ffff_ffff_ffff) }
    ensures { result ≡ planes_at s at }
{
    links_from(s, at) + link_count(s)
}

// n floats of the frame, from `at` on, become the numbers from place `from` on.
fn take_floats(frame: &[u8], at: usize, n: usize, numbers: &mut [f32], from: usize)
    requires { (from + n ≤ length numbers.old) × (at + 4 * n ≤ length frame.now) }
    ensures { Wrote numbers.old from (floats_at frame.now at n) numbers.new }
{
    for i in 0..n {
        numbers[from + i] = float_at(frame, at + 4 * i);
    }
}

// The numbers of the hull that begins at `at`, from the first place on, and how many were taken: none where they are more than any accepted hull has. The
// list that is lent has room for those that are taken, and need have no more. 0 is no flag: it is how many were taken.
pub fn take_numbers(frame: &[u8], at: usize, s: HullSize, numbers: &mut [f32]) -> usize
    requires { Sent s × (at + hull_length s ≤ length frame.now) × (length (numbers_taken frame.now at s) ≤ length numbers.old) }
    ensures { Taken frame.now at s numbers.old result numbers.new }
{
    let before = planes_from(s);
    let planes = 4 * s.faces;
    if 902 < before + planes {
        return 0;
    }
    take_floats(frame, at + 8, before, numbers, 0);
    take_floats(frame, planes_at(s, at), planes, numbers, before);
    before + planes
}
