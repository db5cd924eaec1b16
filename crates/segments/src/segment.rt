// A line of a segment: its name, then columns with bounds, as `seg-0001 cpu=12..97 mem=*..2048`.
ghost use Rattle.std.specs.Prelude.{◌≡◌, MatchBool, IsOkUnless};
ghost use Rattle.std.specs.Str.Iter.{split_whitespace_rest};
ghost use Rattle.segments.specs.Texts.{Said, EndIs, BoundsAre, ColumnRead, BoundsRead, bounds_of, SegmentSays, Comment, Content, LineRead};

use crate::fault::{Expected, Fault};
use kinds::whole::WholeRange;
use std::str::SplitWhitespace;

// A segment's name, and the bounds that its line gives of one column, if it has the column.
#[derive(Clone, Copy, Debug)]
pub struct Segment<'a> {
    pub name: &'a str,
    pub given: Option<WholeRange>,
}

impl Segment<'_> {
    // The bounds of the column: open where the line does not have it.
    pub fn bounds(&self) -> WholeRange
        ensures { result ≡ bounds_of self.now }
    {
        self.given.unwrap_or_default()
    }
}

// An end: `*` is open, else a whole number of 64 bits.
fn parse_end(text: &str) -> Result<Option<i64>, Expected>
    ensures said { Said (EndIs text.now) result }
    ensures expected { IsOkUnless result Expected.End }
{
    if text == "*" {
        return Ok(None);
    }
    text.parse().map(Some).map_err(|_| Expected::End)
}

// Bounds LOW..HIGH.
fn parse_bounds(text: &str) -> Result<WholeRange, Expected>
    ensures { Said (BoundsAre text.now) result }
{
    let (low, high) = text.split_once("..").ok_or(Expected::Bounds)?;
    WholeRange::try_new(parse_end(low)?, parse_end(high)?).map_err(|_| Expected::Uncrossed)
}

// A column's name and its bounds.
fn parse_column(word: &str) -> Result<(&str, WholeRange), Fault<'_>>
    ensures { ColumnRead word.now result }
{
    let (name, text) = word.split_once('=').ok_or(Expected::Column.in_text(word))?;
    if name.is_empty() {
        return Err(Expected::ColumnName.in_text(word));
    }
    let bounds = parse_bounds(text).map_err(|expected| expected.in_text(word))?;
    Ok((name, bounds))
}

// The bounds that the words give the column; none where no word names it.
fn bounds_in<'a>(words: SplitWhitespace<'a>, column: &str) -> Result<Option<WholeRange>, Fault<'a>>
    ensures { BoundsRead (split_whitespace_rest words.entry) column.now result }
{
    let mut found = None;
    for word in words {
        let (name, bounds) = parse_column(word)?;
        if name == column && found.replace(bounds).is_some() {
            return Err(Expected::Once.in_text(word));
        }
    }
    Ok(found)
}

// Whether the line is blank or begins with `#`.
#[tactic(auto, using(std::proofs::lemmas::Str::Pattern::starts_char))]
fn is_comment(line: &str) -> bool
    ensures { MatchBool result (Comment line.now) (Content line.now) }
{
    let text = line.trim_start();
    text.is_empty() || text.starts_with('#')
}

// The segment of a line that has one.
fn segment_of<'a>(line: &'a str, column: &str) -> Result<Segment<'a>, Fault<'a>>
    ensures { Said (SegmentSays line.now column.now) result }
{
    let mut words = line.split_whitespace();
    let name = words.next().ok_or(Expected::SegmentName.in_text(line))?;
    if name.contains('=') {
        return Err(Expected::SegmentName.in_text(name));
    }
    let given = bounds_in(words, column)?;
    Ok(Segment { name, given })
}

// The segment of a line, with the bounds of the column; none where the line is a comment.
pub fn parse_segment<'a>(line: &'a str, column: &str) -> Result<Option<Segment<'a>>, Fault<'a>>
    ensures { LineRead line.now column.now result }
{
    if is_comment(line) {
        return Ok(None);
    }
    segment_of(line, column).map(Some)
}
