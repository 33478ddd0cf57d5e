// The types of a cache that name an axis.
ghost use Rattle.std.specs.Prelude.{◌≡◌};
ghost use Rattle.manifold.specs.Kinds.{kind_number, axis_kind_of};

// Along a face of A, along a face of B, across a pair of edges.
#[derive(Clone, Copy, PartialEq, Eq)]
pub enum AxisKind {
    FaceA,
    FaceB,
    Edges,
}

impl From<AxisKind> for u8 {
    // The type of a cache that names an axis of this kind.
    fn from(kind: AxisKind) -> u8
        ensures { result ≡ kind_number kind }
    {
        match kind {
            AxisKind::FaceA => 2,
            AxisKind::FaceB => 3,
            AxisKind::Edges => 4,
        }
    }
}

// The axis that a cache of this type names; every other type names none. An `Option` and no `TryFrom`, since a cache without an axis is no error.
pub fn axis_kind(kind: u8) -> Option<AxisKind>
    ensures { result ≡ axis_kind_of kind }
{
    match kind {
        2 => Some(AxisKind::FaceA),
        3 => Some(AxisKind::FaceB),
        4 => Some(AxisKind::Edges),
        _ => None,
    }
}
