// What to do with a segment, by the bounds of a column: skip it, read it, or take it whole.
#![tactic(auto)]

ghost use Rattle.std.specs.Prelude.{◌≡◌, Some};
ghost use Rattle.std.specs.Fmt.{padded};
ghost use Rattle.decisions.specs.Decisions.{decision_of, decide_of, Decides, word_of, counted, total_of, tally_text};

use answers::truth::Truth;
use interval_arithmetic::compare::{Comparison, compare};
use kinds::whole::WholeRange;
use std::fmt;

// What to do with a segment.
#[derive(Clone, Copy, Debug, PartialEq, Eq)]
pub enum Decision {
    // No row matches.
    Skip,
    // Some rows may match.
    Read,
    // Every row matches.
    Whole,
}

impl From<Truth> for Decision {
    ghost from_gives = { λ truth decision. decision ≡ decision_of truth };

    // What to do, by whether the filter holds of the rows.
    fn from(truth: Truth) -> Decision {
        match truth {
            Truth::True => Decision::Whole,
            Truth::False => Decision::Skip,
            Truth::Unsure => Decision::Read,
        }
    }
}

// Skip where no number within the bounds compares so with `value`, Whole where every one does, else Read.
pub fn decide(comparison: Comparison, bounds: WholeRange, value: i64) -> Decision
    ensures value { result ≡ decide_of comparison bounds value }
    ensures holds { Decides comparison bounds value result }
{
    let one = WholeRange {
        low: Some(value),
        high: Some(value),
    };
    Decision::from(compare(comparison, bounds, one))
}

impl Decision {
    // The word that is printed.
    pub fn word(self) -> &'static str
        ensures { result.now ≡ word_of self }
    {
        match self {
            Decision::Skip => "skip",
            Decision::Read => "read",
            Decision::Whole => "whole",
        }
    }
}

impl fmt::Display for Decision {
    ghost output = { λ decision. Some (word_of decision) };

    ghost styled_output = { λ decision spec. Some (padded spec (word_of decision)) };

    fn fmt<W: fmt::Write>(&self, f: &mut fmt::Formatter<W>) -> fmt::Result {
        f.pad(self.word())
    }
}

// How many segments got each decision; a count stays at its greatest.
#[derive(Clone, Copy, Debug, Default, PartialEq, Eq)]
pub struct Tally {
    pub skipped: u64,
    pub to_read: u64,
    pub whole: u64,
}

impl Tally {
    // The tally with one decision more.
    pub fn counting(self, decision: Decision) -> Tally
        ensures { result ≡ counted self decision }
    {
        match decision {
            Decision::Skip => Tally {
                skipped: self.skipped.saturating_add(1),
                ..self
            },
            Decision::Read => Tally {
                to_read: self.to_read.saturating_add(1),
                ..self
            },
            Decision::Whole => Tally {
                whole: self.whole.saturating_add(1),
                ..self
            },
        }
    }

    // How many segments there were.
    fn total(self) -> u64
        ensures { result ≡ total_of self }
    {
        self.skipped
            .saturating_add(self.to_read)
            .saturating_add(self.whole)
    }
}

impl fmt::Display for Tally {
    ghost output = { λ t. Some (tally_text t) };

    fn fmt<W: fmt::Write>(&self, f: &mut fmt::Formatter<W>) -> fmt::Result {
        let total = self.total();
        let Tally {
            skipped,
            to_read,
            whole,
        } = self;
        write!(
            f,
            "{total} segments: {skipped} skipped, {to_read} to read, {whole} match whole"
        )
    }
}
