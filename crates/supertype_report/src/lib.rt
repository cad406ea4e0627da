// What joining does to the whole numbers of two columns.
#![tactic(auto)]

ghost use Rattle.std.specs.Prelude.{◌≡◌};
ghost use Rattle.flat.specs.Reading.{reading};
ghost use Rattle.supertype_numbers.specs.Range.{Listed};
ghost use Rattle.supertype_report.specs.Report.{report_of, roots_report, types_report, report_value};

use flat::error::Error;
use flat::kind::Kind;
use flat::reply::Value;
use flat::{Flat, Node};
use supertype_arms::number::numeric_supertype;
use supertype_lossless::upcast::upcast_kinds;
use supertype_numbers::integer::{includes, is_listed};

// Whether the supertype of two integer types keeps every whole number of both; where it doesn't, whether an integer
// type would.
#[derive(Clone, Copy, Debug, PartialEq, Eq)]
pub enum Report {
    Kept = 0,
    Avoidable = 1,
    Unavoidable = 2,
    NotIntegers = 3,
}

// Document 01's value of a report.
impl Value for Report {
    ghost value_of = { report_value };

    fn value(self) -> u64 {
        self as u64
    }
}

// The report on two integer types.
fn report_integers(a: u8, b: u8) -> Report
    requires { Listed a × Listed b }
    ensures { result ≡ report_of a b }
{
    let t = numeric_supertype(a, b);
    if t <= Kind::INT128 && includes(t, a) && includes(t, b) {
        return Report::Kept;
    }
    match upcast_kinds(a, b) {
        Some(_) => Report::Avoidable,
        None => Report::Unavoidable,
    }
}

// The report on the kinds of two valid types.
fn report_kinds(a: u8, b: u8) -> Report
    ensures { result ≡ report_of a b }
{
    if is_listed(a) && is_listed(b) {
        return report_integers(a, b);
    }
    Report::NotIntegers
}

// The report on the roots of two types: the refusal of the left, of the right, or the report on their kinds.
pub fn report_roots(left: Result<Node, Error>, right: Result<Node, Error>) -> Result<Report, Error>
    ensures { result ≡ roots_report left right }
{
    let l = left?;
    let r = right?;
    Ok(report_kinds(l.kind, r.kind))
}

// The report on two types: refusals 1 to 5 of the left type, then of the right.
pub fn join_report(
    left_kinds: &[u8],
    left_args: &[u64],
    right_kinds: &[u8],
    right_args: &[u64],
) -> Result<Report, Error>
    ensures { let left = reading Flat.MAX_NODES Flat.MAX_DEPTH left_kinds.now left_args.now in
        let right = reading Flat.MAX_NODES Flat.MAX_DEPTH right_kinds.now right_args.now in
        result ≡ types_report left right }
{
    let left = flat::check_root(left_kinds, left_args);
    let right = flat::check_root(right_kinds, right_args);
    report_roots(left, right)
}
