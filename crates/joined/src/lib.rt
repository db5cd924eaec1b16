// Two number kinds side by side, as one kind: its ranges, values, sorts and literals are those of the first and those of the second.
//
//     First(0..9) + First(2..3)  =  First(2..12)    a question goes to the kind that it is about
//     First(0..9) + Second(..)   has no result      `forward` answers the left range, `backward` none
//
// Across the two no sorts fit and no values are ordered. `Joined<A, Joined<B, C>>` is three kinds as one.
// The definitions stand in specs/Join.antt.
#![tactic(auto)]

ghost use Rattle.std.specs.Prelude.{◌≡◌, None, Some, refl};
ghost use Rattle.joined.specs.Join.{first_of, second_of, EndIn, make_of, joined_order, joined};
ghost use Rattle.joined.specs.declared.Joined.TheVariants.{First, Second};
ghost use Rattle.joined.specs.JoinLaws.{joined_order_laws, joined_laws};

use interval_arithmetic::kind::{Arithmetic, Kind, Ranges};

// One of the first kind, or one of the second.
#[derive(Clone, Copy, Debug, PartialEq, Eq)]
pub enum Joined<A, B> {
    First(A),
    Second(B),
}

impl<A: Copy, B: Copy> Joined<A, B> {
    // What is of the first kind.
    pub fn first(self) -> Option<A>
        ensures { result ≡ first_of self }
    {
        match self {
            Joined::First(x) => Some(x),
            Joined::Second(_) => None,
        }
    }

    // What is of the second kind.
    pub fn second(self) -> Option<B>
        ensures { result ≡ second_of self }
    {
        match self {
            Joined::First(_) => None,
            Joined::Second(x) => Some(x),
        }
    }
}

// The end as one of the kind that `part` takes; none where it is a value of the other.
fn end_in<X: Copy, Y, F: FnOnce(X) -> Option<Y>>(end: Option<X>, part: F) -> Option<Option<Y>>
    requires { F.IsAlwaysCallable part }
    ensures { EndIn (F.post part) end result }
{
    match end {
        Some(x) => Some(Some(part(x)?)),
        None => Some(None),
    }
}

impl<A: Ranges, B: Ranges> Ranges for Joined<A, B> {
    type Value = Joined<A::Value, B::Value>;

    type Sort = Joined<A::Sort, B::Sort>;

    ghost order = { joined_order A.Ranges.order B.Ranges.order };

    ghost orderly = { joined_order_laws A.Ranges.orderly B.Ranges.orderly };

    fn sort_of(v: Self::Value) -> Self::Sort {
        match v {
            Joined::First(v) => Joined::First(A::sort_of(v)),
            Joined::Second(v) => Joined::Second(B::sort_of(v)),
        }
    }

    fn same_sort(s: Self::Sort, t: Self::Sort) -> bool {
        match (s, t) {
            (Joined::First(s), Joined::First(t)) => A::same_sort(s, t),
            (Joined::Second(s), Joined::Second(t)) => B::same_sort(s, t),
            _ => false,
        }
    }

    fn at_most(a: Self::Value, b: Self::Value) -> bool {
        match (a, b) {
            (Joined::First(a), Joined::First(b)) => A::at_most(a, b),
            (Joined::Second(a), Joined::Second(b)) => B::at_most(a, b),
            _ => false,
        }
    }

    fn sort(self) -> Self::Sort {
        match self {
            Joined::First(r) => Joined::First(r.sort()),
            Joined::Second(r) => Joined::Second(r.sort()),
        }
    }

    fn lower(self) -> Option<Self::Value> {
        match self {
            Joined::First(r) => Some(Joined::First(r.lower()?)),
            Joined::Second(r) => Some(Joined::Second(r.lower()?)),
        }
    }

    fn upper(self) -> Option<Self::Value> {
        match self {
            Joined::First(r) => Some(Joined::First(r.upper()?)),
            Joined::Second(r) => Some(Joined::Second(r.upper()?)),
        }
    }

    fn make(s: Self::Sort, low: Option<Self::Value>, high: Option<Self::Value>) -> Option<Self>
        ensures { result ≡ make_of A.Ranges.order.make B.Ranges.order.make s low high }
    {
        match s {
            Joined::First(s) => {
                let low = end_in(low, Joined::first)?;
                let high = end_in(high, Joined::first)?;
                Some(Joined::First(A::make(s, low, high)?))
            }
            Joined::Second(s) => {
                let low = end_in(low, Joined::second)?;
                let high = end_in(high, Joined::second)?;
                Some(Joined::Second(B::make(s, low, high)?))
            }
        }
    }
}

impl<A: Kind, B: Kind> Kind for Joined<A, B> {
    type Literal = Joined<A::Literal, B::Literal>;

    ghost operations = { joined A.Kind.operations B.Kind.operations };

    ghost laws = { joined_laws A.Kind.laws B.Kind.laws };

    fn fits(op: Arithmetic, s: Self::Sort, t: Self::Sort) -> Option<Self::Sort> {
        match (s, t) {
            (Joined::First(s), Joined::First(t)) => Some(Joined::First(A::fits(op, s, t)?)),
            (Joined::Second(s), Joined::Second(t)) => Some(Joined::Second(B::fits(op, s, t)?)),
            _ => None,
        }
    }

    fn negates(s: Self::Sort) -> bool {
        match s {
            Joined::First(s) => A::negates(s),
            Joined::Second(s) => B::negates(s),
        }
    }

    fn compares(s: Self::Sort) -> bool {
        match s {
            Joined::First(s) => A::compares(s),
            Joined::Second(s) => B::compares(s),
        }
    }

    fn columns(s: Self::Sort) -> bool {
        match s {
            Joined::First(s) => A::columns(s),
            Joined::Second(s) => B::columns(s),
        }
    }

    // Joined to its caller, so that a pile of kinds asks the one that it is about at once.
    #[inline(always)]
    fn forward(op: Arithmetic, left: Self, right: Self) -> Self {
        match (left, right) {
            (Joined::First(l), Joined::First(r)) => Joined::First(A::forward(op, l, r)),
            (Joined::Second(l), Joined::Second(r)) => Joined::Second(B::forward(op, l, r)),
            _ => left,
        }
    }

    fn arithmetic_negate(self) -> Self {
        match self {
            Joined::First(r) => Joined::First(r.arithmetic_negate()),
            Joined::Second(r) => Joined::Second(r.arithmetic_negate()),
        }
    }

    fn backward(op: Arithmetic, parent: Self, left: Self, right: Self) -> Option<(Self, Self)> {
        match (parent, left, right) {
            (Joined::First(p), Joined::First(l), Joined::First(r)) => {
                let (l, r) = A::backward(op, p, l, r)?;
                Some((Joined::First(l), Joined::First(r)))
            }
            (Joined::Second(p), Joined::Second(l), Joined::Second(r)) => {
                let (l, r) = B::backward(op, p, l, r)?;
                Some((Joined::Second(l), Joined::Second(r)))
            }
            _ => None,
        }
    }

    fn next(v: Self::Value) -> Option<Self::Value> {
        match v {
            Joined::First(v) => Some(Joined::First(A::next(v)?)),
            Joined::Second(v) => Some(Joined::Second(B::next(v)?)),
        }
    }

    fn previous(v: Self::Value) -> Option<Self::Value> {
        match v {
            Joined::First(v) => Some(Joined::First(A::previous(v)?)),
            Joined::Second(v) => Some(Joined::Second(B::previous(v)?)),
        }
    }

    fn count(self) -> Option<u64> {
        match self {
            Joined::First(r) => r.count(),
            Joined::Second(r) => r.count(),
        }
    }

    fn admit(l: Self::Literal) -> Option<Self::Value> {
        match l {
            Joined::First(l) => Some(Joined::First(A::admit(l)?)),
            Joined::Second(l) => Some(Joined::Second(B::admit(l)?)),
        }
    }
}
