// The text of segments of records, and of a filter over them.
//
//     segment    a line of a segment, as `seg-0001 cpu=12..97 mem=*..2048`
//     filter     a comparison of a column with a number, as `cpu > 90`
//     fault      what was expected of a text
#![tactic(auto)]

pub mod fault;
pub mod filter;
pub mod segment;
