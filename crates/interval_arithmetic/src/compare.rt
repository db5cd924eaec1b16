// What a comparison of two ranges of a kind is known to be.
ghost use Rattle.std.specs.Prelude.{◌≡◌};
ghost use Rattle.interval_arithmetic.specs.Compare.{is_over, all_over, over_truth, equal_truth, compare_ends, compare_of, Compared};

use crate::kind::Ranges;
use answers::truth::Truth;

// The comparisons of two numbers of one sort.
#[derive(Clone, Copy, Debug, PartialEq, Eq)]
pub enum Comparison {
    Gt,
    GtEq,
    Lt,
    LtEq,
    Eq,
}

// Whether `a` is above `b`, or at it if the comparison is not strict.
fn over<K: Ranges>(strict: bool, a: K::Value, b: K::Value) -> bool
    ensures { result ≡ is_over K.Ranges.order strict a b }
{
    if strict {
        !K::at_most(a, b)
    } else {
        K::at_most(b, a)
    }
}

// Whether the ends put every value of `a` over every value of `b`.
fn all_over<K: Ranges>(strict: bool, a: K, b: K) -> bool
    ensures { result ≡ all_over K.Ranges.order strict (K.Ranges.order.lower a) (K.Ranges.order.upper b) }
{
    a.lower()
        .zip(b.upper())
        .is_some_and(|(low, high)| over::<K>(strict, low, high))
}

fn greater_truth<K: Ranges>(strict: bool, a: K, b: K) -> Truth
    ensures { result ≡ over_truth K.Ranges.order strict a b }
{
    if all_over(strict, a, b) {
        Truth::True
    } else if all_over(!strict, b, a) {
        Truth::False
    } else {
        Truth::Unsure
    }
}

fn equal_truth<K: Ranges>(a: K, b: K) -> Truth
    ensures { result ≡ equal_truth K.Ranges.order a b }
{
    if all_over(true, a, b) || all_over(true, b, a) {
        Truth::False
    } else if all_over(false, a, b) && all_over(false, b, a) {
        Truth::True
    } else {
        Truth::Unsure
    }
}

// Where the sorts are the same.
fn compare_ends<K: Ranges>(comparison: Comparison, left: K, right: K) -> Truth
    ensures { result ≡ compare_ends K.Ranges.order comparison left right }
{
    match comparison {
        Comparison::Gt => greater_truth(true, left, right),
        Comparison::GtEq => greater_truth(false, left, right),
        Comparison::Lt => greater_truth(true, right, left),
        Comparison::LtEq => greater_truth(false, right, left),
        Comparison::Eq => equal_truth(left, right),
    }
}

// TRUE where the comparison holds for every two values that the ends allow, FALSE where for none, else
// UNSURE; an open end lies beyond every value. UNSURE too where the sorts differ.
#[tactic(auto, using(crate::proofs::Comparisons::compared))]
pub fn compare<K: Ranges>(comparison: Comparison, left: K, right: K) -> Truth
    ensures value { result ≡ compare_of K.Ranges.order comparison left right }
    ensures holds { Compared K.Ranges.order comparison left right result }
{
    if K::same_sort(left.sort(), right.sort()) {
        compare_ends(comparison, left, right)
    } else {
        Truth::Unsure
    }
}
