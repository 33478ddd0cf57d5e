// A door to the axis search. The answer's cases go over as one record, since a C caller has no enum that holds values.
ghost use Rattle.std.specs.Prelude.{◌≡◌};
ghost use Rattle.hull_limits.specs.Transform.{Placed};
ghost use Rattle.hull.specs.Accepted.{Accepted};
ghost use Rattle.axis.specs.Search.{search_of};
ghost use Rattle.probes.specs.Axes.{zero_axis, paired_of, searched_of};

use axis::{Axis, Search};
use hull_links::{Hull, HullSize};
use vector::{Transform, Vec3};

// Apart, with its kind, separation and numbers, or both faces and, where `pair` says so, the edge pair. What a case does not have is zero.
#[repr(C)]
#[derive(Clone, Copy)]
pub struct Searched {
    pub apart: bool,
    pub kind: u8,
    pub pair: bool,
    pub separation: f32,
    pub index_a: u8,
    pub index_b: u8,
    pub face_a: Axis,
    pub face_b: Axis,
    pub edge: Axis,
}

fn zero_axis() -> Axis
    ensures { result ≡ zero_axis }
{
    Axis {
        normal: Vec3 {
            x: 0.0,
            y: 0.0,
            z: 0.0,
        },
        separation: 0.0,
        index_a: 0,
        index_b: 0,
    }
}

#[tactic(auto, unfolding(crate::specs::Axes::paired_of))]
fn found_record(face_a: Axis, face_b: Axis, edge: Option<Axis>) -> Searched
    ensures { result ≡ paired_of face_a face_b edge }
{
    match edge {
        Some(pair) => Searched {
            apart: false,
            kind: 0,
            pair: true,
            separation: 0.0,
            index_a: 0,
            index_b: 0,
            face_a,
            face_b,
            edge: pair,
        },
        None => Searched {
            apart: false,
            kind: 0,
            pair: false,
            separation: 0.0,
            index_a: 0,
            index_b: 0,
            face_a,
            face_b,
            edge: zero_axis(),
        },
    }
}

#[tactic(auto, unfolding(crate::specs::Axes::searched_of))]
fn as_record(search: Search) -> Searched
    ensures { result ≡ searched_of search }
{
    match search {
        Search::Apart(apart) => {
            let zero = zero_axis();
            Searched {
                apart: true,
                kind: u8::from(apart.kind),
                pair: false,
                separation: apart.separation,
                index_a: apart.index_a,
                index_b: apart.index_b,
                face_a: zero,
                face_b: zero,
                edge: zero,
            }
        }
        Search::Found(axes) => found_record(axes.face_a, axes.face_b, axes.edge),
    }
}

#[unsafe(no_mangle)]
pub extern "C" fn probe_compute_separating_axis(
    numbers_a: &[f32],
    links_a: &[u8],
    size_a: HullSize,
    numbers_b: &[f32],
    links_b: &[u8],
    size_b: HullSize,
    transform: Transform,
) -> Searched
    requires { Accepted size_a numbers_a.now links_a.now × Accepted size_b numbers_b.now links_b.now × Placed transform }
    ensures { result ≡ searched_of (search_of size_a numbers_a.now links_a.now size_b numbers_b.now
        links_b.now transform) }
{
    let a = Hull {
        numbers: numbers_a,
        links: links_a,
        size: size_a,
    };
    let b = Hull {
        numbers: numbers_b,
        links: links_b,
        size: size_b,
    };
    as_record(axis::compute_separating_axis(&a, &b, transform))
}
