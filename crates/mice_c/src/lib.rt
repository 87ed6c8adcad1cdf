// The functions of the crate mice under their names for C. See include/mice.h.
#![tactic(auto)]

ghost use Rattle.meaning.specs.Limits.{small};
ghost use Rattle.meaning.specs.Promise.{Hosted, HostedText};
ghost use Rattle.release.specs.Report.{HostedReport};

// The check of a trace against a formula.
#[unsafe(no_mangle)]
pub extern "C" fn mice_check(
    formula: &[i16],
    trace: &[i16],
    counts: &mut [u64],
    answer: &mut [u64],
) -> u64
    ensures { Hosted small formula.now trace.now counts.old answer.old result counts.new answer.new }
{
    mice::mice_check(formula, trace, counts, answer)
}

// The reading of a DIMACS text into formula words.
#[unsafe(no_mangle)]
pub extern "C" fn mice_read(text: &[u8], room: &mut [i16], answer: &mut [u64]) -> u64
    ensures { HostedText small text.now room.old answer.old result room.new answer.new }
{
    mice::mice_read(text, room, answer)
}

// The report over the answers of many checks.
#[unsafe(no_mangle)]
pub extern "C" fn mice_release(answers: &[u64], report: &mut [u64]) -> u64
    ensures { HostedReport answers.now report.old result report.new }
{
    mice::mice_release(answers, report)
}
