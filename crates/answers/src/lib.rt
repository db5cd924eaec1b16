// What calls answer besides ranges: a refusal with its number and position, and what is known of a Boolean.
//
//     refusal   the grounds for refusal, each with its number
//     truth     TRUE, FALSE or UNSURE
#![tactic(auto)]

pub mod refusal;
pub mod truth;
