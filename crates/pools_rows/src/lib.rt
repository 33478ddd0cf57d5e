// Pairs in lists of numbers: the transform of pair k in seven floats, its cache in two words, its contact in 19 floats, what it is called in bytes.
// What stands where is in specs/Rows.antt. `frame_decode` has functions named transform_at and cache_at too: they read bytes, these floats and words, so one
// function for both would be no plainer.
#![tactic(auto)]

ghost use Rattle.std.specs.Prelude.{◌≡◌, ◌+◌, ◌*◌, ◌/◌, ◌<◌, ◌≤◌, length};
ghost use Rattle.lists.specs.Written.{Wrote};
ghost use Rattle.pools_rows.specs.Rows.{transform_in, cache_from, cache_in, cache_word, cache_words, vec_floats, point_floats, contact_floats};
ghost use Rattle.pools_rows.specs.Rows.{status_bytes, name_bytes};
ghost use Rattle.pools_rows.specs.inner.Entered.{Entered};

use frame_encode::{put_pair, put_places};
use lists::write;
use manifold::{Answer, Contact, Outcome, Point, SatCache};
use vector::{Quat, Transform, Vec3};

// Position, then quaternion with its scalar last.
pub fn transform_at(transforms: &[f32], k: usize) -> Transform
    requires { k < length transforms.now / 7 }
    ensures { result ≡ transform_in transforms.now k }
{
    let at = 7 * k;
    Transform {
        p: Vec3 {
            x: transforms[at],
            y: transforms[at + 1],
            z: transforms[at + 2],
        },
        q: Quat {
            v: Vec3 {
                x: transforms[at + 3],
                y: transforms[at + 4],
                z: transforms[at + 5],
            },
            s: transforms[at + 6],
        },
    }
}

// The separation; then type, index_a, index_b and hit from the low byte up.
fn cache_from(separation: u32, w: u32) -> SatCache
    ensures { result ≡ cache_from separation w }
{
    let [kind, index_a, index_b, hit] = w.to_le_bytes();
    SatCache {
        separation,
        kind,
        index_a,
        index_b,
        hit,
    }
}

pub fn cache_at(caches: &[u32], k: usize) -> SatCache
    requires { k < length caches.now / 2 }
    ensures { result ≡ cache_in caches.now k }
{
    cache_from(caches[2 * k], caches[2 * k + 1])
}

fn cache_word(c: SatCache) -> u32
    ensures { result ≡ cache_word c }
{
    u32::from_le_bytes([c.kind, c.index_a, c.index_b, c.hit])
}

fn put_cache(caches: &mut [u32], at: usize, c: SatCache)
    requires { at + 2 ≤ length caches.old }
    ensures { Wrote caches.old at (cache_words c) caches.new }
{
    write(caches, at, c.separation);
    write(caches, at + 1, cache_word(c));
}

// `frame_encode` has functions of these names that put bytes: a float is one place here and four there, so one function for both would be no plainer.
fn put_vec(floats: &mut [f32], at: usize, v: Vec3)
    requires { at + 3 ≤ length floats.old }
    ensures { Wrote floats.old at (vec_floats v) floats.new }
{
    write(floats, at, v.x);
    write(floats, at + 1, v.y);
    write(floats, at + 2, v.z);
}

fn put_point(floats: &mut [f32], at: usize, p: Point)
    requires { at + 4 ≤ length floats.old }
    ensures { Wrote floats.old at (point_floats p) floats.new }
{
    put_vec(floats, at, p.position);
    write(floats, at + 3, p.separation);
}

// The normal and four points, unused ones too.
fn put_contact(floats: &mut [f32], at: usize, c: Contact)
    requires { at + 19 ≤ length floats.old }
    ensures { Wrote floats.old at (contact_floats c) floats.new }
{
    let [first, second, third, fourth] = c.points;
    put_vec(floats, at, c.normal);
    put_point(floats, at + 3, first);
    put_point(floats, at + 7, second);
    put_point(floats, at + 11, third);
    put_point(floats, at + 15, fourth);
}

// Status, count and mark.
pub fn put_status(bytes: &mut [u8], at: usize, o: Outcome)
    requires { at + 3 ≤ length bytes.old }
    ensures { Wrote bytes.old at (status_bytes o) bytes.new }
{
    write(bytes, at, o.status);
    write(bytes, at + 1, o.contact.count);
    write(bytes, at + 2, o.retired);
}

// What the four points are called: their tags, then their candidates' places.
pub fn put_names(bytes: &mut [u8], at: usize, c: Contact)
    requires { at + 20 ≤ length bytes.old }
    ensures { Wrote bytes.old at (name_bytes c) bytes.new }
{
    let [first, second, third, fourth] = c.points;
    put_pair(bytes, at, first.pair);
    put_pair(bytes, at + 4, second.pair);
    put_pair(bytes, at + 8, third.pair);
    put_pair(bytes, at + 12, fourth.pair);
    put_places(bytes, at + 16, c);
}

// Pair k's next cache and its contact; how many points it has.
pub fn put_answer(caches: &mut [u32], floats: &mut [f32], k: usize, a: Answer) -> usize
    requires { (k < length caches.old / 2) × (k < length floats.old / 19) }
    ensures { Entered k a caches.old floats.old result caches.new floats.new }
{
    put_cache(caches, 2 * k, a.cache);
    put_contact(floats, 19 * k, a.outcome.contact);
    usize::from(a.outcome.contact.count)
}
