// Number kinds: types of ranges that keep the laws of `interval_arithmetic::kind`.
//
//     whole   64-bit whole numbers
//
// Each is proved against the laws once; whatever is written over kinds then holds of it.
#![tactic(auto)]

pub mod whole;
