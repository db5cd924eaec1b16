// Reads segments and one comparison, and prints which of the segments must be read.
#![tactic(auto)]

use decisions::{Tally, decide};
use segments::fault::Fault;
use segments::filter::Filter;
use segments::segment::parse_segment;
use std::fs::File;
use std::io::{BufRead, BufReader, ErrorKind, Read};
use std::process::ExitCode;
use std::{env, fmt, io};
use thiserror::Error;

// Why the program gives up.
#[derive(Debug, Drop, Error)]
enum Failure<'a> {
    #[error("expected FILTER [FILE]; the filter is one word, as 'cpu > 90'")]
    Usage,
    #[error(transparent)]
    Filter(#[from] Fault<'a>),
    #[error("cannot open {path}: {error}")]
    Open {
        path: &'a str,
        error: io::Error,
    },
    #[error("cannot read line {number} of {name}: {error}")]
    Read {
        number: u64,
        name: &'a str,
        error: io::Error,
    },
    #[error(transparent)]
    Io(#[from] io::Error),
}

fn print_help(rt: &impl Print) -> io::Result<()> {
    println!(rt;
        "prune: which segments of records a filter must read

usage: prune FILTER [FILE]

FILTER   one comparison, with blanks between: COLUMN OPERATOR NUMBER, as 'cpu > 90';
         the operator is one of > >= < <= =, the number a whole number of 64 bits
FILE     the segments; standard input where there is none, or for -

A line of FILE has a segment's name, then columns with the bounds of their values:
    seg-0001 cpu=12..97 mem=*..2048 restarts=0..0
An end is a whole number of 64 bits, or * for open. A column that the line lacks has open bounds;
the filter's column may stand in a line once.
A line that is blank or begins with # is passed over.

For each segment a word and its name are printed, and then how many got each word:
    skip     no row of the segment can match
    read     some rows may match
    whole    every row of the segment matches
A bad line is told on standard error; the others are still decided, and the status is 1.

example: printf 'seg-1 cpu=12..97\\nseg-2 cpu=3..90\\n' | prune 'cpu > 90'"
    )
}

// The decisions so far, whether a segment has the filter's column, and how many lines were bad.
#[derive(Clone, Copy, Default)]
struct Report {
    tally: Tally,
    known: bool,
    bad: u64,
}

impl fmt::Display for Report {
    fn fmt<W: fmt::Write>(&self, f: &mut fmt::Formatter<W>) -> fmt::Result {
        let Report { tally, bad, .. } = self;
        match bad {
            0 => write!(f, "{tally}"),
            1 => write!(f, "{tally}; 1 bad line, not decided"),
            _ => write!(f, "{tally}; {bad} bad lines, not decided"),
        }
    }
}

// Decides segments by a filter, and keeps the report.
#[derive(Drop)]
struct Pruning<'a> {
    rt: &'a HostRuntime,
    filter: Filter<'a>,
    report: Report,
}

impl<'a> Pruning<'a> {
    // Tells what is wrong with a line.
    fn tell_bad(&mut self, number: u64, fault: impl fmt::Display + Drop) -> io::Result<()> {
        self.report.bad = self.report.bad.saturating_add(1);
        eprintln!(self.rt; "line {number}: {fault}")
    }

    // Decides a line and prints the decision, or tells what is wrong with it.
    fn decide_line(&mut self, number: u64, line: &str) -> io::Result<()> {
        let segment = match parse_segment(line, self.filter.column) {
            Ok(Some(segment)) => segment,
            Ok(None) => return Ok(()),
            Err(fault) => return self.tell_bad(number, fault),
        };
        let decision = decide(self.filter.comparison, segment.bounds(), self.filter.value);
        self.report.tally = self.report.tally.counting(decision);
        self.report.known |= segment.given.is_some();
        println!(self.rt; "{decision:<5} {}", segment.name)
    }

    // Decides each line of the input, which goes by `name` where it cannot be read; one that is not UTF-8 is a bad line.
    fn decide_all<R: Read + Drop>(&mut self, input: R, name: &'a str) -> Result<(), Failure<'a>> {
        let alloc = self.rt.alloc();
        let lines = BufReader::new(alloc, input)?.lines(alloc);
        for (number, line) in (1u64..).zip(lines) {
            match line {
                Ok(line) => self.decide_line(number, line.as_str())?,
                Err(error) if error.kind() == ErrorKind::InvalidData => {
                    self.tell_bad(number, "expected text in UTF-8")?
                }
                Err(error) => {
                    return Err(Failure::Read {
                        number,
                        name,
                        error,
                    });
                }
            }
        }
        Ok(())
    }

    // Prints the summary; the status is 1 where a line was bad.
    fn summarize(&self) -> io::Result<ExitCode> {
        let report = self.report;
        // A column that no segment has may be misspelt.
        if !report.known {
            let column = self.filter.column;
            eprintln!(self.rt; "prune: no segment has bounds for the column {column}")?;
        }
        println!(self.rt; "{report}")?;
        Ok(if report.bad == 0 {
            ExitCode::SUCCESS
        } else {
            ExitCode::FAILURE
        })
    }
}

// Decides the segments of the file, or of standard input for `-`, by the filter.
fn prune<'a>(rt: &'a HostRuntime, filter: &'a str, path: &'a str) -> Result<ExitCode, Failure<'a>> {
    let mut pruning = Pruning {
        rt,
        filter: Filter::try_from(filter)?,
        report: Report::default(),
    };
    if path == "-" {
        pruning.decide_all(rt.stdin(), "standard input")?;
    } else {
        let file = File::open(rt, path).map_err(|error| Failure::Open { path, error })?;
        pruning.decide_all(file, path)?;
    }
    Ok(pruning.summarize()?)
}

// The arguments after the program's name.
fn arguments(rt: &HostRuntime) -> io::Result<Vec<String>> {
    Ok(env::args(rt)?.skip(1).collect(rt.alloc())?)
}

// Does what the arguments ask for.
fn run<'a>(rt: &'a HostRuntime, args: &'a [String]) -> Result<ExitCode, Failure<'a>> {
    let wants_help = args
        .first()
        .is_none_or(|first| matches!(first.as_str(), "--help" | "-h"));
    if wants_help {
        print_help(rt)?;
        return Ok(ExitCode::SUCCESS);
    }
    match args {
        [filter] => prune(rt, filter.as_str(), "-"),
        [filter, path] => prune(rt, filter.as_str(), path.as_str()),
        _ => Err(Failure::Usage),
    }
}

// Tells why the program gives up. Where that cannot be written, the reason is tried in its place, but for
// a file that cannot be opened and for input and output, which are told once.
fn give_up(rt: &HostRuntime, failure: Failure<'_>) -> ExitCode {
    let told = eprintln!(rt; "prune: {failure}");
    let has_second_try = matches!(
        failure,
        Failure::Usage | Failure::Filter(_) | Failure::Read { .. }
    );
    if let Err(error) = told
        && has_second_try
    {
        let _ = eprintln!(rt; "prune: {error}");
    }
    ExitCode::FAILURE
}

fn main(rt: HostRuntime) -> ExitCode {
    match arguments(&rt) {
        Ok(args) => run(&rt, &args).unwrap_or_else(|failure| give_up(&rt, failure)),
        Err(error) => give_up(&rt, Failure::Io(error)),
    }
}
