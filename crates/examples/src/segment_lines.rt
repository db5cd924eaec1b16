// Worked examples: decisions, lines, filters, and what is said of those that are wrong.
use decisions::{Decision, Tally, decide};
use interval_arithmetic::compare::Comparison;
use kinds::whole::WholeRange;
use segments::fault::Expected;
use segments::filter::parse_filter;
use segments::segment::parse_segment;
use std::test::Fail;

// Whether the decision on the numbers from `low` to `high` is this one.
fn decides(
    comparison: Comparison,
    low: Option<i64>,
    high: Option<i64>,
    value: i64,
    wanted: Decision,
) -> bool {
    decide(comparison, WholeRange { low, high }, value) == wanted
}

#[test]
fn decisions(rt: HostRuntime) {
    assert!(rt; decides(Comparison::Gt, Some(12), Some(90), 90, Decision::Skip));
    assert!(rt; decides(Comparison::GtEq, Some(90), Some(97), 90, Decision::Whole));
    assert!(rt; decides(Comparison::LtEq, Some(90), Some(97), 90, Decision::Read));
    assert!(rt; decides(Comparison::Eq, Some(90), Some(90), 90, Decision::Whole));
    assert!(rt; decides(Comparison::Lt, Some(10), None, 10, Decision::Skip));
    assert!(rt;
        decides(
            Comparison::Gt,
            None,
            Some(i64::MAX),
            i64::MAX,
            Decision::Skip,
        )
    );
}

// Whether the line has these bounds for the column.
fn bounds(line: &str, column: &str, low: Option<i64>, high: Option<i64>) -> bool {
    match parse_segment(line, column) {
        Ok(Some(segment)) => {
            let bounds = segment.bounds();
            bounds.low == low && bounds.high == high
        }
        _ => false,
    }
}

#[test]
fn lines(rt: HostRuntime) {
    let line = "seg-0001 cpu=12..97 mem=*..2048 restarts=0..0";
    assert!(rt; bounds(line, "cpu", Some(12), Some(97)));
    assert!(rt; bounds(line, "mem", None, Some(2048)));
    assert!(rt; bounds(line, "started", None, None));
    let limits = "s a=-9223372036854775808..9223372036854775807";
    assert!(rt; bounds(limits, "a", Some(i64::MIN), Some(i64::MAX)));
    assert!(rt; matches!(parse_segment(" # cpu", "cpu"), Ok(None)));
}

// Whether the line is refused for want of this.
fn refused(line: &str, wanted: Expected) -> bool {
    parse_segment(line, "cpu").is_err_and(|fault| fault.expected == wanted)
}

#[test]
fn bad_lines(rt: HostRuntime) {
    let table = [
        ("cpu=1..2", Expected::SegmentName),
        ("s cpu", Expected::Column),
        ("s =1..2", Expected::ColumnName),
        ("s cpu=12-97", Expected::Bounds),
        ("s cpu=..2", Expected::End),
        ("s cpu=0..9223372036854775808", Expected::End),
        ("s cpu=2..1", Expected::Uncrossed),
        ("s cpu=1..2 cpu=1..2", Expected::Once),
    ];
    for (line, wanted) in table.iter() {
        assert!(rt; refused(line, *wanted), "{}", line);
    }
}

// What a filter on `cpu` with 90 compares by, or what it lacks.
fn comparison(text: &str) -> Result<Comparison, Expected> {
    match parse_filter(text) {
        Ok(f) if f.column == "cpu" && f.value == 90 => Ok(f.comparison),
        Ok(_) => Err(Expected::Filter),
        Err(fault) => Err(fault.expected),
    }
}

#[test]
fn filters(rt: HostRuntime) {
    let table = [
        ("cpu > 90", Ok(Comparison::Gt)),
        (" cpu  >=  +90 ", Ok(Comparison::GtEq)),
        ("cpu < 90", Ok(Comparison::Lt)),
        ("cpu <= 90", Ok(Comparison::LtEq)),
        ("cpu = 90", Ok(Comparison::Eq)),
        ("cpu>90", Err(Expected::Filter)),
        ("c=u > 90", Err(Expected::ColumnName)),
        ("cpu => 90", Err(Expected::Operator)),
        ("cpu > 9223372036854775808", Err(Expected::Number)),
    ];
    for (text, wanted) in table.iter() {
        assert!(rt; comparison(text) == *wanted, "{}", text);
    }
}

#[test]
fn summary(rt: HostRuntime) -> Result<(), Fail> {
    let tally = Tally::default()
        .counting(Decision::Skip)
        .counting(Decision::Read)
        .counting(Decision::Skip);
    let text = format!(in rt.alloc(); "{tally}")?;
    assert_eq!(rt;
        text.as_str(),
        "3 segments: 2 skipped, 1 to read, 0 match whole"
    );
    Ok(())
}

#[test]
fn fault_text(rt: HostRuntime) -> Result<(), Fail> {
    let fault = Expected::Bounds.in_text("cpu=12-97");
    let text = format!(in rt.alloc(); "{fault}")?;
    let said = "expected bounds LOW..HIGH, an end being a whole number or *, in `cpu=12-97`";
    assert_eq!(rt; text.as_str(), said);
    Ok(())
}
