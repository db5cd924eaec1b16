// A range of a node: what is known of a Boolean, or a range of a number kind.
ghost use Rattle.std.specs.Prelude.{◌≡◌};
ghost use Rattle.interval_arithmetic.specs.Ranges.{sort_in, Holds, SameRange, range_meet, range_contains};
ghost use Rattle.answers.specs.Sharing.{Shares, SharesSort, Contains};

use crate::ends::{contains, intersect};
use crate::kind::Ranges;
use answers::truth::Truth;

// The sort of a range, a column or a literal: Boolean, or a sort of the kind.
#[derive(Clone, Copy, Debug)]
pub enum DataType<S> {
    Boolean,
    Number(S),
}

#[derive(Clone, Copy, Debug)]
pub enum Range<K> {
    Boolean(Truth),
    Number(K),
}

impl<K: Ranges> Range<K> {
    pub fn data_type(self) -> DataType<K::Sort>
        ensures { result ≡ sort_in K.Ranges.order self }
    {
        match self {
            Range::Boolean(_) => DataType::Boolean,
            Range::Number(range) => DataType::Number(range.sort()),
        }
    }

    // What both hold; none where they share no value.
    pub fn intersect(self, other: Range<K>) -> Option<Range<K>>
        ensures value { result ≡ range_meet K.Ranges.order self other }
        ensures shares { Shares (Holds K.Ranges.order) self other result }
        ensures sorts { SharesSort (sort_in K.Ranges.order) self other result }
    {
        match (self, other) {
            (Range::Boolean(a), Range::Boolean(b)) => Some(Range::Boolean(a.intersect(b)?)),
            (Range::Number(a), Range::Number(b)) => Some(Range::Number(intersect(a, b)?)),
            _ => None,
        }
    }

    // TRUE where what the two share is `other`, FALSE where they share nothing, else UNSURE.
    #[tactic(auto, using(crate::proofs::Lifts::range_contains_rule))]
    pub fn contains(self, other: Range<K>) -> Truth
        ensures value { result ≡ range_contains K.Ranges.order self other }
        ensures rule { Contains (Holds K.Ranges.order) (range_meet K.Ranges.order) (SameRange K.Ranges.order) self other result }
    {
        match (self, other) {
            (Range::Boolean(a), Range::Boolean(b)) => a.contains(b),
            (Range::Number(a), Range::Number(b)) => contains(a, b),
            _ => Truth::False,
        }
    }
}
