// What a contact that is built leaves, or the refusal that the work met; and what becomes of it: the answer of a call, or a cached axis that serves
// again. What each says is in specs/.
#![tactic(auto)]

ghost use Rattle.std.specs.Prelude.{◌≡◌, ℕ, Ok};
ghost use Rattle.collide_outcome.specs.Builds.{touched_of, missed};
ghost use Rattle.collide_outcome.specs.Told.{number_of, built_by, built_of, cached_by, answer_to};
ghost use Rattle.collide_outcome.specs.Answers.{retired_of, accepted, refused_of};
ghost use Rattle.collide_outcome.specs.Served.{near_of, served_of};

use manifold::bits::float_of;
use manifold::records::{empty_cache, empty_contact};
use manifold::{Answer, Contact, Outcome, SatCache};
use vector::scalar::abs_float;

// Why a call is refused: a hull breaks a rule, the transform does, the cache names what is not there, the support vertex is padding, a cut has a 65th
// corner, the hulls' units differ.
#[derive(Clone, Copy, PartialEq, Eq)]
pub enum Refusal {
    HullA,
    HullB,
    Transform,
    Cache,
    Vertex,
    Corners,
    Units,
}

impl From<Refusal> for u8 {
    // A refusal by its number in document 01's table.
    fn from(refusal: Refusal) -> u8
        ensures { result ≡ number_of refusal }
    {
        match refusal {
            Refusal::HullA => 1,
            Refusal::HullB => 2,
            Refusal::Transform => 3,
            Refusal::Cache => 4,
            Refusal::Vertex => 5,
            Refusal::Corners => 6,
            Refusal::Units => 17,
        }
    }
}

// What was built: the contact where the hulls touch, and the next cache.
#[derive(Clone, Copy)]
pub struct Build {
    pub contact: Option<Contact>,
    pub cache: SatCache,
}

// They touch: the contact, and the axis that made it. A type, a status and a mark are numbers here and below: each of these functions takes any, and a
// narrower type would ask more.
pub fn touched(contact: Contact, separation: f32, kind: u8, index_a: u8, index_b: u8) -> Build
    ensures { built_of (Ok result) ≡ touched_of contact separation kind index_a index_b }
{
    Build {
        contact: Some(contact),
        cache: SatCache {
            separation: manifold::bits::bits_of(separation),
            kind,
            index_a,
            index_b,
            hit: 0,
        },
    }
}

// They do not touch.
pub fn missed() -> Build
    ensures { built_of (Ok result) ≡ missed }
{
    Build {
        contact: None,
        cache: empty_cache(),
    }
}

// The mark of a type that was read.
fn retired_mark(kind: u8) -> u8
    ensures { result ≡ retired_of kind }
{
    match kind {
        6..=8 => 1,
        _ => 0,
    }
}

pub fn accepted_with(retired: u8, contact: Contact, cache: SatCache) -> Answer
    ensures { result ≡ accepted retired contact cache }
{
    Answer {
        outcome: Outcome {
            status: 0,
            contact,
            retired,
        },
        cache,
    }
}

// An empty contact, no mark, and the cache as it was lent.
pub fn refused(status: u8, cache: SatCache) -> Answer
    ensures { result ≡ refused_of status cache }
{
    let empty = empty_contact();
    Answer {
        outcome: Outcome {
            status,
            contact: empty,
            retired: 0,
        },
        cache,
    }
}

// What was built, with the mark of the type that was read; or the refusal that the work met, by its number, whatever number it is.
pub fn answer_of(cache: SatCache, built: Result<Build, u8>) -> Answer
    ensures { result ≡ answer_to cache built }
{
    match built {
        Ok(build) => {
            let contact = build.contact.unwrap_or_else(empty_contact);
            let next = build.cache;
            accepted_with(retired_mark(cache.kind), contact, next)
        }
        Err(status) => refused(status, cache),
    }
}

// Whether two separations differ by less than the slop of the unit.
fn near(unit: usize, cache: SatCache, fresh: SatCache) -> bool
    ensures { result ≡ near_of unit cache fresh }
{
    let difference = float_of(cache.separation) - float_of(fresh.separation);
    abs_float(difference) < units::linear_slop(unit)
}

// The contact that was built anew, where it may stand for the cached axis; nothing where the full search has to be made. A refusal stays one, whatever
// type it has and whatever number it is told by: an arm of its own and no `?`, so that must-fail/refusal_taken_for_a_miss.edit can plant a miss there.
pub fn served<R: Copy>(
    unit: usize,
    cache: SatCache,
    built: Result<Build, R>,
) -> Result<Option<Contact>, R>
    ensures { (number : R → ℕ) → cached_by number result ≡ served_of unit cache (built_by number built) }
{
    match built {
        Ok(build) => {
            if near(unit, cache, build.cache) {
                return Ok(build.contact);
            }
            Ok(None)
        }
        Err(refusal) => Err(refusal),
    }
}
