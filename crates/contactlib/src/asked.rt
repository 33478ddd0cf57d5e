// Whether two hulls are apart, for hosts that want a yes or a no and no points.
ghost use Rattle.std.specs.Prelude.{◌≡◌};
ghost use Rattle.apart.specs.Question.{question_of};

use apart::{Apart, are_apart};
use hull_links::{Hull, HullSize};
use vector::Transform;

// One question. It takes no cache, and requires nothing: a hull or a transform that breaks a rule is refused by its number, and the answer is no.
pub fn contact_apart(
    numbers_a: &[f32],
    links_a: &[u8],
    size_a: HullSize,
    numbers_b: &[f32],
    links_b: &[u8],
    size_b: HullSize,
    transform: Transform,
) -> Apart
    ensures { result ≡ question_of size_a numbers_a.now links_a.now size_b numbers_b.now
        links_b.now transform }
{
    let a = Hull {
        numbers: numbers_a,
        links: links_a,
        size: size_a,
    };
    let b = Hull {
        numbers: numbers_b,
        links: links_b,
        size: size_b,
    };
    are_apart(&a, &b, transform)
}
