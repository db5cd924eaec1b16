// Worked examples of the rules, as tests of the libraries.
//
//     whole_numbers   ranges of whole numbers, at the limits of 64 bits too
//     time_values     stamps, spans and steps, open steps too
//     joined_kinds    three kinds in one
//     segment_lines   decisions, the lines of segments and filters, and what is said of bad ones
//     common          what the examples over several kinds share
#![tactic(auto)]

#[cfg(test)]
mod common;
#[cfg(test)]
mod joined_kinds;
#[cfg(test)]
mod segment_lines;
#[cfg(test)]
mod time_values;
#[cfg(test)]
mod whole_numbers;
