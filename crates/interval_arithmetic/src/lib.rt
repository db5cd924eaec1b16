// Ranges of truths and numbers, and the questions that a range analysis asks of them.
//
//     a number kind                a range                      what is asked
//     values, sorts, order  --->  Boolean: TRUE, FALSE, UNSURE  intersect, contains
//     plus, minus, negate         Number: lower..upper          satisfy_greater
//
// A kind is a type of ranges that implements `Ranges` (sorts, order, ends) and `Kind` (operations and
// questions); `intersect`, `contains` and `satisfy_greater` are written and proved once, for every kind.
// Each answer is pinned to one definition and says what it means for the values that the ranges hold.
// The definitions stand in specs/: Model, Ends, Sound, Laws, Compare, Greater and Ranges.
#![tactic(auto)]

pub mod compare;
pub mod ends;
pub mod greater;
pub mod kind;
pub mod range;
