// What a range of a kind is made of, what two ranges share, and whether one contains the other.
ghost use Rattle.std.specs.Prelude.{◌≡◌};
ghost use Rattle.interval_arithmetic.specs.Ends.{Within, Same, try_new_of, Spans, Tighter, meet, same_end, same_ends, contains_of};
ghost use Rattle.answers.specs.Refusals.{Refuses};
ghost use Rattle.answers.specs.Sharing.{Shares, SharesSort, Contains};

use crate::kind::Ranges;
use answers::refusal::{Ground, Refusal};
use answers::truth::Truth;

// The values of a sort from `low` to `high`; refused where an end is of another sort or they are crossed.
pub fn try_new<K: Ranges>(
    s: K::Sort,
    low: Option<K::Value>,
    high: Option<K::Value>,
) -> Result<K, Refusal>
    ensures value { result ≡ try_new_of K.Ranges.order s low high }
    ensures spans { Spans K.Ranges.order s low high result }
    ensures refuses { Refuses 1 0 result }
{
    K::make(s, low, high).ok_or(Ground::CrossedEnds.at(0))
}

// Of two ends the second where the first reaches it, else the first; a value before an open one.
fn tighter<V: Copy, F: FnOnce(V, V) -> bool>(a: Option<V>, b: Option<V>, reaches: F) -> Option<V>
    requires { F.IsAlwaysCallable reaches }
    ensures { Tighter (F.post reaches) a b result }
{
    match (a, b) {
        (Some(a), Some(b)) => Some(if reaches(a, b) { b } else { a }),
        (a, None) => a,
        (None, b) => b,
    }
}

// What two ranges share: it holds a value exactly if both do.
#[tactic(auto, using(crate::proofs::Meets::meet_shares, crate::proofs::Meets::meet_sorts), unfolding(crate::specs::Ends::meet))]
pub fn intersect<K: Ranges>(a: K, b: K) -> Option<K>
    ensures value { result ≡ meet K.Ranges.order a b }
    ensures shares { Shares (Within K.Ranges.order) a b result }
    ensures sorts { SharesSort K.Ranges.order.sort a b result }
{
    if !K::same_sort(a.sort(), b.sort()) {
        return None;
    }
    let low = tighter(a.lower(), b.lower(), |a, b| K::at_most(a, b));
    let high = tighter(a.upper(), b.upper(), |a, b| K::at_most(b, a));
    K::make(a.sort(), low, high)
}

// Whether both ends are open, or each is at or below the other.
fn is_same_end<K: Ranges>(a: Option<K::Value>, b: Option<K::Value>) -> bool
    ensures { result ≡ same_end K.Ranges.order a b }
{
    match (a, b) {
        (None, None) => true,
        (Some(a), Some(b)) => K::at_most(a, b) && K::at_most(b, a),
        _ => false,
    }
}

fn has_same_ends<K: Ranges>(a: K, b: K) -> bool
    ensures { result ≡ same_ends K.Ranges.order a b }
{
    is_same_end::<K>(a.lower(), b.lower()) && is_same_end::<K>(a.upper(), b.upper())
}

// TRUE where what the two share is `b`, FALSE where they share nothing, else UNSURE.
#[tactic(auto, using(crate::proofs::Meets::contains_rule))]
pub fn contains<K: Ranges>(a: K, b: K) -> Truth
    ensures value { result ≡ contains_of K.Ranges.order a b }
    ensures rule { Contains (Within K.Ranges.order) (meet K.Ranges.order) (Same K.Ranges.order) a b result }
{
    match intersect(a, b) {
        None => Truth::False,
        Some(shared) if has_same_ends(shared, b) => Truth::True,
        Some(_) => Truth::Unsure,
    }
}
