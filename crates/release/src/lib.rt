// Release totals: a report over the answers of the host call, in one pass over a lent slice.
#![tactic(auto)]

ghost use Rattle.std.specs.Prelude.{◌≡◌, false, cond, List, ◌++◌, ◌∷◌, [], ◌+◌, ◌*◌, ◌/◌, ◌≤◌, ◌<◌, leb, length};
ghost use Rattle.meaning.specs.Promise.{answer_places};
ghost use Rattle.release.specs.Report.{Answer, answer, answers_of, is_accepted, figures_of, most_answers, well_formed, report_over, report_of, fault_number};

use std::cmp;

// How many places an answer has.
pub const ANSWER_PLACES: usize = 3;
// A report is over at most so many answers.
const MOST_ANSWERS: usize = 1000;
// The places of so many.
pub const MOST_PLACES: usize = ANSWER_PLACES * MOST_ANSWERS;

// A total, and the first place that has it; both 0 where no answer is accepted.
#[derive(Clone, Copy, Default)]
pub struct Placed {
    pub total: u64,
    pub place: u64,
}

// The figures of a report.
#[derive(Clone, Copy, Default)]
pub struct Figures {
    pub accepted: u64,
    pub refused: u64,
    pub smallest: Placed,
    pub largest: Placed,
    pub sum: u64,
}

// Why there are no figures, with its refusal number.
#[derive(Clone, Copy, Debug, PartialEq, Eq)]
pub enum ReportFault {
    // No answers, too many, or a slice that isn't whole answers.
    AnswersForm = 33,
    // The sum is too large.
    SumLarge = 34,
}

impl ReportFault {
    // The refusal number.
    pub fn number(self) -> u64
        ensures { result ≡ fault_number self }
    {
        self as u64
    }
}

// The figures of no answers.
pub fn nothing() -> Figures
    ensures { result ≡ figures_of [] }
{
    Figures::default()
}

// The figures with one more accepted answer, unless the sum is too large.
fn accept(before: Figures, place: u64, total: u64) -> Result<Figures, ReportFault>
    requires { before.accepted < most_answers }
    ensures { (xs : List Answer) → before ≡ figures_of xs → result ≡ report_over (xs ++ answer place 0 total ∷ []) }
{
    let sum = before.sum.checked_add(total).ok_or(ReportFault::SumLarge)?;
    let this = Placed { total, place };
    if before.accepted == 0 {
        return Ok(Figures {
            accepted: 1,
            smallest: this,
            largest: this,
            sum,
            ..before
        });
    }
    Ok(Figures {
        accepted: before.accepted + 1,
        smallest: cmp::min_by_key(before.smallest, this, |p| p.total),
        largest: cmp::max_by_key(this, before.largest, |p| p.total),
        sum,
        ..before
    })
}

// The figures with one more refused answer.
fn refuse(before: Figures) -> Figures
    requires { before.refused < most_answers }
    ensures { (xs : List Answer) (a : Answer) → is_accepted a ≡ false → before ≡ figures_of xs → result ≡ figures_of (xs ++ a ∷ []) }
{
    Figures {
        refused: before.refused + 1,
        ..before
    }
}

// The report with one more answer.
fn add(before: Figures, place: u64, number: u64, total: u64) -> Result<Figures, ReportFault>
    requires { before.accepted + before.refused < most_answers }
    ensures { (xs : List Answer) → before ≡ figures_of xs → result ≡ report_over (xs ++ answer place number total ∷ []) }
{
    if number == 0 {
        accept(before, place, total)
    } else {
        Ok(refuse(before))
    }
}

// Are there whole answers, at least one and not too many?
fn well_formed(answers: &[u64]) -> bool
    ensures { result ≡ well_formed answers.now }
{
    let count = answers.len() / ANSWER_PLACES;
    answers.len() % ANSWER_PLACES == 0 && (1..=MOST_ANSWERS).contains(&count)
}

// The report over whole answers.
fn report_over(answers: &[u64]) -> Result<Figures, ReportFault>
    requires { length answers.now / answer_places ≤ most_answers }
    ensures { result ≡ report_over (answers_of answers.now) }
{
    let (whole, _) = answers.as_chunks::<ANSWER_PLACES>();
    let mut figures = nothing();
    for (i, [number, _, total, ..]) in whole.iter().enumerate() {
        figures = add(figures, i as u64 + 1, *number, *total)?;
    }
    Ok(figures)
}

// The report over the answers that stand one after another in the slice.
pub fn report(answers: &[u64]) -> Result<Figures, ReportFault>
    ensures { result ≡ report_of answers.now }
{
    if well_formed(answers) {
        report_over(answers)
    } else {
        Err(ReportFault::AnswersForm)
    }
}
