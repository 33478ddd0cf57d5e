// Tags of points.
ghost use Rattle.std.specs.Prelude.{◌≡◌};
ghost use Rattle.manifold.specs.Pairs.{owner_of, pair_of, flipped_of, flip_of};

use crate::FeaturePair;

// Which shape an edge belongs to.
#[derive(Clone, Copy)]
pub enum FeatureOwner {
    ShapeA,
    ShapeB,
}

impl From<FeatureOwner> for u8 {
    // The owner's number in a tag.
    fn from(owner: FeatureOwner) -> u8
        ensures { result ≡ owner_of owner }
    {
        match owner {
            FeatureOwner::ShapeA => 0,
            FeatureOwner::ShapeB => 1,
        }
    }
}

pub fn make_feature_pair(
    owner1: FeatureOwner,
    index1: u8,
    owner2: FeatureOwner,
    index2: u8,
) -> FeaturePair
    ensures { result ≡ pair_of owner1 index1 owner2 index2 }
{
    FeaturePair {
        owner1: u8::from(owner1),
        index1,
        owner2: u8::from(owner2),
        index2,
    }
}

// The pair as the other shape sees it, so that the choice of the reference face does not change a tag. Nothing where an owner is above 1: refusal 8.
pub fn flip_pair(pair: FeaturePair) -> Option<FeaturePair>
    ensures { flipped_of result ≡ flip_of pair }
{
    if 1 < pair.owner1 || 1 < pair.owner2 {
        return None;
    }
    Some(FeaturePair {
        owner1: 1 - pair.owner2,
        index1: pair.index2,
        owner2: 1 - pair.owner1,
        index2: pair.index1,
    })
}
