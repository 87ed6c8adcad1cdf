// What the program prints, from the bytes of its two files.
#![tactic(auto)]

ghost use Rattle.std.specs.Prelude.{◌≡◌};
ghost use Rattle.meaning.specs.Limits.{small};
ghost use Rattle.meaning.specs.Verdict.{by_settings};
ghost use Rattle.meaning.specs.Verdict.{check as Verdict·check};
ghost use Rattle.meaning.specs.Lines.{last_line, check_lines, trace_lines};
ghost use Rattle.meaning.specs.Promise.{Printed};
ghost use Rattle.render.specs.Placed.{Rendered};
ghost use Rattle.lines.specs.Held.{claims_said, held_of};

use meaning::{TextAnswer, Verdict};

// Words of a formula, and of a trace, at most.
const WORDS: usize = 32767;
// Claims of a trace, at most.
const CLAIMS: usize = 1024;
// The bytes that are printed at most: a claim line has up to 38, the last line up to 53.
pub const MOST: usize = 38 * CLAIMS + 53;
// Refusal: trace words malformed. Here and below numbers, as a Verdict carries them (`held_of`, `trace_lines`).
const TRACE_MALFORMED: usize = 12;
// Refusal: fewer count places than claims.
const FEW_PLACES: usize = 13;
// The first refusal number of a claim.
const CLAIM_REFUSED: usize = 21;
// Refusal: all claims hold, and the last isn't the whole.
const NOT_WHOLE: usize = 29;

// The one line of a refusal before the check.
fn render_refusal(number: usize, place: usize, buffer: &mut [u8]) -> usize
    ensures { Rendered (last_line (Verdict.Refused number place)) buffer.old result buffer.new }
{
    render::render(&[], Verdict::Refused(number, place), buffer)
}

// The claims of a trace: a verdict of acceptance doesn't say how many there are, and a check that is lent no count place does.
fn claims(formula: &[i16], trace: &[i16]) -> usize
    ensures { result ≡ claims_said (Verdict·check by_settings small 0 formula.now trace.now).says }
{
    match checker::check(formula, trace, &mut []) {
        Verdict::Refused(FEW_PLACES, place) => place,
        _ => 0,
    }
}

// How many counts a check wrote: none after 11 to 13, all after acceptance or 29, else those of the claims before.
fn held(formula: &[i16], trace: &[i16], verdict: Verdict) -> usize
    ensures { result ≡ held_of (claims_said (Verdict·check by_settings small 0 formula.now trace.now).says) verdict }
{
    match verdict {
        Verdict::Accepted(_) => claims(formula, trace),
        Verdict::Refused(NOT_WHOLE, place) => place,
        Verdict::Refused(CLAIM_REFUSED.., place) => place.saturating_sub(1),
        Verdict::Refused(..) => 0,
    }
}

// What is printed of a sound formula and the words of a trace.
fn print_check(formula: &[i16], trace: &[i16], buffer: &mut [u8]) -> usize
    ensures { Rendered (check_lines small (Verdict·check by_settings small small.claims formula.now trace.now)) buffer.old result buffer.new }
{
    let mut counts = [0u64; CLAIMS];
    let verdict = checker::check(formula, trace, &mut counts);
    let lines = held(formula, trace, verdict);
    render::render(&counts[..lines], verdict, buffer)
}

// What is printed of a sound formula and a trace file.
fn print_trace(formula: &[i16], trace: &[u8], buffer: &mut [u8]) -> usize
    ensures { Rendered (trace_lines small formula.now trace.now) buffer.old result buffer.new }
{
    if 2 * WORDS < trace.len() {
        return render_refusal(TRACE_MALFORMED, WORDS, buffer);
    }
    if trace.len() % 2 == 1 {
        return render_refusal(TRACE_MALFORMED, trace.len() / 2, buffer);
    }
    let mut words = [0i16; WORDS];
    let count = render::unpack(trace, &mut words);
    print_check(formula, &words[..count], buffer)
}

// What the program prints of the bytes of its two files, at the buffer's start, and how many bytes that is; nothing where it
// does not fit.
pub fn print(text: &[u8], trace: &[u8], buffer: &mut [u8]) -> usize
    ensures { Printed small text.now trace.now buffer.old result buffer.new }
{
    let mut room = [0i16; WORDS];
    match dimacs::read(text, &mut room) {
        TextAnswer::Words(count) => print_trace(&room[..count], trace, buffer),
        TextAnswer::Faulty(number, place) => render_refusal(number, place, buffer),
    }
}
