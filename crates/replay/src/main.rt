// Replays vector files against the libraries: makes each call that a file has, and compares the answers.
//
//     words       reads a line: words, ends, ranges
//     operators   reads an operator case, and makes its call
//
// The vectors are answers of the Rust crate datafusion-physical-expr 55.0.0, run over stand-ins for what
// it needs around it. A line has the input, the word `=`, and the answer to hold the libraries to; behind
// the word `|` there may be an answer that is not compared. A call that the libraries do not have is
// passed over.
#![tactic(auto)]

ghost use Rattle.std.specs.Prelude.{◌≡◌, ◌&&◌, ◌==◌};

mod operators;
mod words;

use anyhow::{anyhow, ensure};
use operators::{Answer, Question};
use std::{env, fmt, fs, io};
use thiserror::Error;
use words::{Unreadable, Words};

// How many lines that disagree are printed, and how many that cannot be read.
const SHOWN: u64 = 20;

// What came of a line that can be read and does not disagree.
#[derive(Clone, Copy)]
enum Outcome {
    NoCall,
    PassedOver,
    Agreed,
}

// What is wrong with a line.
#[derive(Clone, Copy, Debug, Error)]
enum Fault<'a> {
    #[error("{}: expected {expected}, came {came}", input_of(.line))]
    Disagreed {
        line: &'a str,
        expected: Answer,
        came: Answer,
    },
    #[error(transparent)]
    Unreadable(#[from] Unreadable),
}

// Whether a line that begins with this word has no answer: a comment, or a part of a case around its calls.
fn asks_nothing(word: &str) -> bool {
    matches!(
        word,
        "operator" | "graph" | "analyze" | "end" | "schema" | "literals" | "records" | "context"
    ) || word.starts_with('#')
}

// Whether a line that begins with this word is a call that no library has.
fn has_no_library(word: &str) -> bool {
    matches!(
        word,
        "build"
            | "gather"
            | "assign"
            | "evaluate"
            | "update"
            | "update_intervals"
            | "get"
            | "nodes"
            | "answer"
    )
}

// The part of a line before its answer.
fn input_of(line: &str) -> &str {
    line.split_once(" = ").map_or(line, |(input, _)| input)
}

// Compares what the libraries answer with what the rest of the line expects.
fn ask<'a>(question: Question, words: &mut Words<'_>, line: &'a str) -> Result<Outcome, Fault<'a>> {
    words.pass("=")?;
    let expected = question.expected(words)?;
    words.finish()?;
    match question.answer() {
        None => Ok(Outcome::PassedOver),
        Some(came) if came == expected => Ok(Outcome::Agreed),
        Some(came) => Err(Fault::Disagreed {
            line,
            expected,
            came,
        }),
    }
}

// Reads a line, and makes its call where it has one.
fn replay_line(line: &str) -> Result<Outcome, Fault<'_>> {
    let mut words = Words::new(line);
    let Some(first) = words.next_word() else {
        return Ok(Outcome::NoCall);
    };
    let question = match first {
        "forward" => Question::read_forward(&mut words)?,
        "backward" => Question::read_backward(&mut words)?,
        _ if asks_nothing(first) => return Ok(Outcome::NoCall),
        _ if has_no_library(first) => return Ok(Outcome::PassedOver),
        _ => return Err(Unreadable("a call, the head or the end of a case, or a comment").into()),
    };
    ask(question, &mut words, line)
}

// How many calls of a file went which way.
#[derive(Clone, Copy, Default)]
struct Tally {
    agreed: u64,
    disagreed: u64,
    passed_over: u64,
    unreadable: u64,
}

impl Tally {
    // Whether every line was read and no call disagreed.
    fn is_clean(self) -> bool
        ensures { result ≡ (self.disagreed == 0 && self.unreadable == 0) }
    {
        self.disagreed == 0 && self.unreadable == 0
    }

    // Counts what came of a line, and gives how many lines before it came to the same.
    fn count(&mut self, came: &Result<Outcome, Fault<'_>>) -> u64 {
        let count = match came {
            Ok(Outcome::NoCall) => return 0,
            Ok(Outcome::PassedOver) => &mut self.passed_over,
            Ok(Outcome::Agreed) => &mut self.agreed,
            Err(Fault::Disagreed { .. }) => &mut self.disagreed,
            Err(Fault::Unreadable(_)) => &mut self.unreadable,
        };
        let before = *count;
        *count = before.saturating_add(1);
        before
    }
}

impl fmt::Display for Tally {
    fn fmt<W: fmt::Write>(&self, f: &mut fmt::Formatter<W>) -> fmt::Result {
        let Tally {
            agreed,
            disagreed,
            passed_over,
            unreadable,
        } = *self;
        write!(
            f,
            "{agreed} agreed, {disagreed} disagreed, {passed_over} passed over"
        )?;
        if unreadable > 0 {
            write!(f, ", {unreadable} lines that cannot be read")?;
        }
        Ok(())
    }
}

// Prints what is wrong with a line. Apart from the loop over lines, which is to carry no message that it does not print.
#[cold]
#[inline(never)]
fn tell(rt: &impl Print, number: u64, fault: Fault<'_>) -> io::Result<()> {
    println!(rt; "line {number}: {fault}")
}

// Replays a text, prints what is wrong with its lines and how its calls went; whether every line was
// read and no call disagreed.
fn replay_text(rt: &impl Print, name: &str, text: &str) -> io::Result<bool> {
    let mut tally = Tally::default();
    for (number, line) in (1u64..).zip(text.lines()) {
        let came = replay_line(line);
        let before = tally.count(&came);
        match came {
            Err(fault) if before < SHOWN => tell(rt, number, fault)?,
            _ => {}
        }
    }
    println!(rt; "{name}: {tally}")?;
    Ok(tally.is_clean())
}

// Replays the file at this path.
fn replay_file(rt: &HostRuntime, path: &str) -> anyhow::Result<bool> {
    let text = fs::read_to_string(rt, path).map_err(|error| anyhow!("{path}: {error}"))?;
    Ok(replay_text(rt, path, text.as_str())?)
}

// Replays the standard input.
fn replay_input(rt: &HostRuntime) -> anyhow::Result<bool> {
    let text = io::read_to_string(rt.alloc(), rt.stdin())?;
    Ok(replay_text(rt, "standard input", text.as_str())?)
}

// Prints what the program does and how it is called.
fn print_help(rt: &impl Print) -> io::Result<()> {
    println!(rt;
        "Makes each call of a vector file that the libraries have, and compares the answers.
Prints each call that disagrees, the first {SHOWN} of a file, and how many agreed.
Ends with status 1 where a call disagrees or a line cannot be read.

usage: replay [FILE...]     replay these files; the standard input where none is given
       replay --help        print this"
    )
}

// Replays what the arguments name; whether every line was read and no call disagreed.
fn replay_all(rt: &HostRuntime) -> anyhow::Result<bool> {
    let mut paths = env::args(rt)?.skip(1).peekable();
    match paths.peek().map(|path| path.as_str()) {
        None => return replay_input(rt),
        Some("--help") => {
            print_help(rt)?;
            return Ok(true);
        }
        Some(_) => {}
    }
    let mut clean = true;
    for path in paths {
        clean &= replay_file(rt, path.as_str())?;
    }
    Ok(clean)
}

// Replays what the arguments name; an error where a call disagrees or a line cannot be read. An error
// that comes is printed, and the status is 1.
fn main(rt: HostRuntime) -> anyhow::Result<()> {
    ensure!(
        replay_all(&rt)?,
        "a call disagrees or a line cannot be read"
    );
    Ok(())
}
