// The functions that a host calls: numbers and lent slices only. The crate mice_c exports them to C.
#![tactic(auto)]

ghost use Rattle.std.specs.Prelude.{◌≤◌, ◌≡◌, length};
ghost use Rattle.meaning.specs.Limits.{small};
ghost use Rattle.meaning.specs.Promise.{answer_places, answer_of, number_of, over, Hosted, HostedText};
ghost use Rattle.release.specs.Report.{report_places, reported, refusal_of, HostedReport};

use meaning::{TextAnswer, Verdict};
use release::{ANSWER_PLACES, Figures, ReportFault};

// How many places a report has.
const REPORT_PLACES: usize = 9;

// The refusal of a slice that has fewer: the number that C is given.
const SHORT_ANSWER: u64 = 13;

// Writes the first places of a slice.
fn put(places: &mut [u64], written: &[u64])
    requires { length written.now ≤ length places.old }
    ensures { places.new ≡ over written.now places.old }
{
    places[..written.len()].copy_from_slice(written);
}

// Writes a verdict, and answers its number.
fn say(verdict: Verdict, answer: &mut [u64]) -> u64
    requires { answer_places ≤ length answer.old }
    ensures value { result ≡ number_of verdict }
    ensures answer_after { answer.new ≡ over (answer_of verdict) answer.old }
{
    let said = match verdict {
        Verdict::Accepted(total) => [0, 0, total],
        Verdict::Refused(number, place) => [number as u64, place as u64, 0],
    };
    put(answer, &said);
    said[0]
}

// The check of a trace against a formula. See include/mice.h.
pub fn mice_check(formula: &[i16], trace: &[i16], counts: &mut [u64], answer: &mut [u64]) -> u64
    ensures { Hosted small formula.now trace.now counts.old answer.old result counts.new answer.new }
{
    if answer.len() < ANSWER_PLACES {
        return SHORT_ANSWER;
    }
    say(checker::check(formula, trace, counts), answer)
}

// The reading of a DIMACS text into formula words. See include/mice.h.
pub fn mice_read(text: &[u8], room: &mut [i16], answer: &mut [u64]) -> u64
    ensures { HostedText small text.now room.old answer.old result room.new answer.new }
{
    if answer.len() < ANSWER_PLACES {
        return SHORT_ANSWER;
    }
    match dimacs::read(text, room) {
        TextAnswer::Words(written) => say(Verdict::Accepted(written as u64), answer),
        TextAnswer::Faulty(number, place) => say(Verdict::Refused(number, place), answer),
    }
}

// Writes a report, and answers its refusal number.
fn say_report(totals: Result<Figures, ReportFault>, report: &mut [u64]) -> u64
    requires { report_places ≤ length report.old }
    ensures value { result ≡ refusal_of totals }
    ensures report_after { report.new ≡ over (reported totals) report.old }
{
    let (number, figures) = match totals {
        Ok(figures) => (0, figures),
        Err(fault) => (fault.number(), release::nothing()),
    };
    put(
        report,
        &[
            number,
            0,
            figures.accepted,
            figures.refused,
            figures.smallest.total,
            figures.smallest.place,
            figures.largest.total,
            figures.largest.place,
            figures.sum,
        ],
    );
    number
}

// The report over the answers of many checks. See include/mice.h.
pub fn mice_release(answers: &[u64], report: &mut [u64]) -> u64
    ensures { HostedReport answers.now report.old result report.new }
{
    if report.len() < REPORT_PLACES {
        return SHORT_ANSWER;
    }
    say_report(release::report(answers), report)
}
