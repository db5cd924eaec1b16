// The ranges that an order comparison leaves.
ghost use Rattle.std.specs.Prelude.{◌≡◌};
ghost use Rattle.interval_arithmetic.specs.Greater.{Moved, touching, apart, greater, NarrowsGreater};

use crate::kind::Kind;

// An end, moved to the step from the other side's where that side's reaches it; absent if no value is left.
fn moved<V: Copy, R: FnOnce(V, V) -> bool, S: FnOnce(V) -> Option<V>>(
    own: Option<V>,
    other: Option<V>,
    reaches: R,
    step: S,
) -> Option<Option<V>>
    requires reaches { R.IsAlwaysCallable reaches }
    requires step { S.IsAlwaysCallable step }
    ensures { Moved (R.post reaches) (S.post step) own other result }
{
    let Some(other) = other else {
        return Some(own);
    };
    if own.is_some_and(|own| !reaches(own, other)) {
        return Some(own);
    }
    step(other).map(Some)
}

// The two ranges where the left one ends at or before the right one begins: an equal pair, or none.
fn touch<K: Kind>(s: K::Sort, upper: K::Value, lower: K::Value, strict: bool) -> Option<(K, K)>
    ensures { result ≡ touching K.Ranges.order K.Kind.operations strict s upper lower }
{
    if strict || !K::at_most(lower, upper) {
        return None;
    }
    let one = K::make(s, Some(upper), Some(upper))?;
    Some((one, one))
}

// The left range with a higher lower end, and the right one with a lower upper end.
fn cut<K: Kind>(left: K, right: K, strict: bool) -> Option<(K, K)>
    ensures { result ≡ apart K.Ranges.order K.Kind.operations strict left right }
{
    let low = moved(
        left.lower(),
        right.lower(),
        |own, other| K::at_most(own, other),
        |other| if strict { K::next(other) } else { Some(other) },
    )?;
    let high = moved(
        right.upper(),
        left.upper(),
        |own, other| K::at_most(other, own),
        |other| if strict {
            K::previous(other)
        } else {
            Some(other)
        },
    )?;
    let l = K::make(left.sort(), low, left.upper())?;
    let r = K::make(right.sort(), right.lower(), high)?;
    Some((l, r))
}

// The ranges that `left > right` leaves, or `left >= right` if it is not strict.
#[tactic(auto, using(crate::proofs::Greaters::greater_narrows_all))]
pub fn satisfy_greater<K: Kind>(left: K, right: K, strict: bool) -> Option<(K, K)>
    ensures value { result ≡ greater K.Ranges.order K.Kind.operations strict left right }
    ensures narrows { NarrowsGreater K.Ranges.order K.Kind.operations strict left right result }
{
    if !K::same_sort(left.sort(), right.sort()) {
        return None;
    }
    match (left.upper(), right.lower()) {
        (Some(upper), Some(lower)) if K::at_most(upper, lower) => {
            touch::<K>(left.sort(), upper, lower, strict)
        }
        _ => cut(left, right, strict),
    }
}
