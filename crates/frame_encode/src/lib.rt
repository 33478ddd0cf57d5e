// Values written as bytes into a slice that is lent, the high byte first, as document 01's section "The hex program" has them. What each one's bytes
// are is in specs/Bytes.antt. The slice, and the place in it, stay two parameters: record Wrote speaks of both.
#![tactic(auto)]

ghost use Rattle.std.specs.Prelude.{◌+◌, ◌≤◌, length};
ghost use Rattle.lists.specs.Written.{Wrote};
ghost use Rattle.frame_encode.specs.Bytes.{bytes32, float_bytes, vec_bytes, pair_bytes, point_bytes, points_bytes, cache_bytes, head_bytes, longest_answer};
ghost use Rattle.frame_encode.specs.Bytes.{places_bytes, answer_bytes};

use lists::write;
use manifold::bits::bits_of;
use manifold::{Answer, Contact, FeaturePair, Point, SatCache};
use vector::Vec3;

// How many bytes the longest answer has: that to a call.
pub const LONGEST_ANSWER: usize = 108;

pub fn put_number(out: &mut [u8], at: usize, x: u32)
    requires { at + 4 ≤ length out.old }
    ensures { Wrote out.old at (bytes32 x) out.new }
{
    let [first, second, third, fourth] = x.to_be_bytes();
    write(out, at, first);
    write(out, at + 1, second);
    write(out, at + 2, third);
    write(out, at + 3, fourth);
}

// A NaN is 7fc00000.
pub fn put_float(out: &mut [u8], at: usize, x: f32)
    requires { at + 4 ≤ length out.old }
    ensures { Wrote out.old at (float_bytes x) out.new }
{
    put_number(out, at, bits_of(x));
}

pub fn put_vec(out: &mut [u8], at: usize, v: Vec3)
    requires { at + 12 ≤ length out.old }
    ensures { Wrote out.old at (vec_bytes v) out.new }
{
    put_float(out, at, v.x);
    put_float(out, at + 4, v.y);
    put_float(out, at + 8, v.z);
}

pub fn put_pair(out: &mut [u8], at: usize, p: FeaturePair)
    requires { at + 4 ≤ length out.old }
    ensures { Wrote out.old at (pair_bytes p) out.new }
{
    write(out, at, p.owner1);
    write(out, at + 1, p.index1);
    write(out, at + 2, p.owner2);
    write(out, at + 3, p.index2);
}

pub fn put_point(out: &mut [u8], at: usize, p: Point)
    requires { at + 20 ≤ length out.old }
    ensures { Wrote out.old at (point_bytes p) out.new }
{
    put_vec(out, at, p.position);
    put_float(out, at + 12, p.separation);
    put_pair(out, at + 16, p.pair);
}

pub fn put_cache(out: &mut [u8], at: usize, c: SatCache)
    requires { at + 8 ≤ length out.old }
    ensures { Wrote out.old at (cache_bytes c) out.new }
{
    put_number(out, at, c.separation);
    write(out, at + 4, c.kind);
    write(out, at + 5, c.index_a);
    write(out, at + 6, c.index_b);
    write(out, at + 7, c.hit);
}

// 92, the status, the cache, the count and the normal.
fn put_head(out: &mut [u8], a: Answer)
    requires { longest_answer ≤ length out.old }
    ensures { Wrote out.old 0 (head_bytes a) out.new }
{
    write(out, 0, 0x92);
    write(out, 1, a.outcome.status);
    put_cache(out, 2, a.cache);
    write(out, 10, a.outcome.contact.count);
    put_vec(out, 11, a.outcome.contact.normal);
}

// The four points, unused ones too.
fn put_points(out: &mut [u8], k: Contact)
    requires { longest_answer ≤ length out.old }
    ensures { Wrote out.old 23 (points_bytes k) out.new }
{
    let [first, second, third, fourth] = k.points;
    put_point(out, 23, first);
    put_point(out, 43, second);
    put_point(out, 63, third);
    put_point(out, 83, fourth);
}

// Which candidate each of the four points came from.
pub fn put_places(out: &mut [u8], at: usize, k: Contact)
    requires { at + 4 ≤ length out.old }
    ensures { Wrote out.old at (places_bytes k) out.new }
{
    let [first, second, third, fourth] = k.points;
    write(out, at, first.place);
    write(out, at + 1, second.place);
    write(out, at + 2, third.place);
    write(out, at + 3, fourth.place);
}

// The answer to a call: the head, the points, their candidates' places, and last the mark of a retired type.
pub fn put_answer(out: &mut [u8], a: Answer)
    requires { longest_answer ≤ length out.old }
    ensures { Wrote out.old 0 (answer_bytes a) out.new }
{
    put_head(out, a);
    put_points(out, a.outcome.contact);
    put_places(out, 103, a.outcome.contact);
    write(out, 107, a.outcome.retired);
}
