// Replays a corpus, the file `cases`, through the functions that a host calls and through trace::entry, and compares what is found with
// what is expected: the number returned, and the whole of each lent block. Prints a line for each wrong case, one for each refusal number, and the sums.
//
// The file (tools/micecases makes and shows it) has a case after a case: the numbers of `Case` in their order, three bytes each, low byte
// first, and then runs, which fill a window from `start` to `end`. A run is two counts of two bytes and a place of three: so many bytes follow
// and are written as they are, and then so many are copied from that place in the window, one after the other. The window keeps what
// earlier cases left in it.
// Unpacked, a case is its name and a line end; its words, all low bytes first and then all high bytes; what the answer slice's first places hold
// afterwards, eight bytes each; and last, of a check what the count room's first places hold, of a text its bytes, and of an entry its section, its
// number and from where to where it goes in the trace, three bytes each. Places that are not listed must hold what they held before the call.
#![tactic(auto)]

ghost use Rattle.std.specs.Prelude.{◌^◌, ◌<◌, ◌≤◌, length};

use std::fs::File;
use std::io::{Read, Write};
use std::{array, io};

// The kinds of cases. A check and an entry have the words of a formula and a trace, a text those that are expected.
#[derive(Clone, Copy)]
enum Kind {
    Check,
    Text,
    Entry,
}

impl From<usize> for Kind {
    fn from(kind: usize) -> Kind {
        match kind {
            1 => Kind::Check,
            2 => Kind::Text,
            _ => Kind::Entry,
        }
    }
}

#[derive(Clone, Copy)]
struct Case {
    // Its kind, and the number that is to be returned; an entry has 30.
    kind: Kind,
    number: usize,
    // Where its parts begin in the window, and where the last ends.
    start: usize,
    words_at: usize,
    answer_at: usize,
    rest_at: usize,
    end: usize,
    // How many of the words are the formula's, and how many there are.
    formula: usize,
    words: usize,
    // Places of the count room or word room that is lent, and of the answer slice.
    room: usize,
    answer: usize,
}

// Bytes of the numbers before a case and before a run.
const CASE_BYTES: usize = 33;

const RUN_BYTES: usize = 7;

// Bytes of the window, words, places of a count room and cases: none needs more.
const WINDOW: usize = 262144;

const WORDS: usize = 65536;

const PLACES: usize = 1024;

const CASES: usize = 1000000;

// Cases are counted by their numbers, which are below the first of these; the wrong ones the second further on.
const NUMBERS: usize = 31;

const WRONG: usize = 64;

const TALLY: usize = 128;

// What a place of a word room holds before the call; and place i of a count room or an answer slice, with i added.
const WORD_BEFORE: i16 = -21931;

const COUNT_BEFORE: u64 = 13889313181676863488;

const ANSWER_BEFORE: u64 = 11936128515503554560;

// ---- bytes

// What stands from one place to another; nothing if there are no such places.
fn part<T>(all: &[T], from: usize, to: usize) -> &[T] {
    all.get(from..to).unwrap_or(&[])
}

// The number of so many bytes from a place on, low byte first; bytes beyond the end count as 0.
fn number(bytes: &[u8], at: usize, count: usize) -> usize
    ensures { result < 256 ^ count }
{
    let mut number = 0usize;
    for i in 0..count {
        let byte = bytes
            .get(at.saturating_add(count - 1 - i))
            .copied()
            .unwrap_or(0);
        number = number.wrapping_mul(256).wrapping_add(usize::from(byte));
    }
    number
}

// The number of three bytes that stands behind so many others.
fn three(bytes: &[u8], others: usize) -> usize
    ensures { result ≤ 16777215 }
{
    number(bytes, others.saturating_mul(3), 3)
}

// ---- the window

// So far from a place on, and no further than the end.
fn ahead(at: usize, count: usize, end: usize) -> usize
    requires { at ≤ end }
    ensures lower_bound { at ≤ result }
    ensures upper_bound { result ≤ end }
{
    at + count.min(end - at)
}

// Copies bytes of the window from a place to a later one, up to where that ends.
fn again(window: &mut [u8], from: usize, to: usize, end: usize)
    requires from_le_to { from ≤ to }
    requires end_in_bounds { end ≤ length window.old }
{
    // An index: a copy may reach what it wrote itself.
    for at in to..end {
        window[at] = window[at - (to - from)];
    }
}

// How many bytes of a run follow, how many are copied, and from where.
#[derive(Clone, Copy)]
struct Run {
    plain: usize,
    copied: usize,
    source: usize,
}

// The numbers of the next run; all 0 where the file ends.
fn next_run(file: &mut impl Read) -> Run {
    let mut bytes = [0u8; RUN_BYTES];
    files::read_full(file, &mut bytes);
    Run {
        plain: number(&bytes, 0, 2),
        copied: number(&bytes, 2, 2),
        source: number(&bytes, 4, 3),
    }
}

// The next run of the file, from a place of the window on; answers where it ends.
fn read_run(file: &mut impl Read, window: &mut [u8], at: usize) -> usize
    requires { at ≤ length window.old }
    ensures { result ≤ length window.new }
{
    let run = next_run(file);
    let middle = ahead(at, run.plain, window.len());
    let end = ahead(middle, run.copied, window.len());
    files::read_full(file, &mut window[at..middle]);
    again(window, run.source.min(middle), middle, end);
    end
}

// Fills a part of the window by the next runs of the file; they stop short where the file ends.
fn unpack(file: &mut impl Read, window: &mut [u8], start: usize, end: usize) {
    // A loop: where a run ends shows only when it is read.
    let mut at = start.min(window.len());
    while at < end {
        let next = read_run(file, window, at);
        if next <= at {
            return;
        }
        at = next;
    }
}

// ---- words

// A word room before the call.
fn word_room() -> [i16; WORDS] {
    [WORD_BEFORE; WORDS]
}

// The words of a part, all low bytes first, and then what a room holds before the call.
fn words_of(part: &[u8]) -> [i16; WORDS] {
    let (low, high) = part.split_at(part.len() / 2);
    let mut room = [WORD_BEFORE; WORDS];
    // An index: a room that is lent would be copied once more.
    for i in 0..low.len().min(WORDS) {
        room[i] = words::word_of(low[i], high[i]);
    }
    room
}

// ---- places

// Places as they are before the call.
fn places(first: u64) -> [u64; PLACES] {
    array::from_fn(|i| first.wrapping_add(i as u64))
}

// What place i holds after the call: the number that is written there, or what it held.
fn after(first: u64, written: &[u8], i: usize) -> u64 {
    let at = i.saturating_mul(8);
    if at < written.len() {
        number(written, at, 8) as u64
    } else {
        first.wrapping_add(i as u64)
    }
}

// All places hold what is expected.
fn places_right(all: &[u64; PLACES], first: u64, written: &[u8]) -> bool {
    all.iter()
        .enumerate()
        .all(|(i, found)| *found == after(first, written, i))
}

// ---- the calls

// The call alone: every step beside it would cost proof time, for its contract is large.
fn check(formula: &[i16], trace: &[i16], counts: &mut [u64], answer: &mut [u64]) -> u64 {
    mice::mice_check(formula, trace, counts, answer)
}

// The reading returns the number, and the room holds the words that are expected.
fn read_right(
    text: &[u8],
    room: &mut [i16],
    answer: &mut [u64],
    number: usize,
    words_after: &[i16],
) -> bool {
    let returned = mice::mice_read(text, room, answer);
    returned == number as u64 && &*room == words_after
}

// A check, the number it returns and what its count room and answer slice hold afterwards.
fn check_right(
    case: &Case,
    formula: &[i16],
    trace: &[i16],
    answer_after: &[u8],
    counts_after: &[u8],
) -> bool {
    let mut counts = places(COUNT_BEFORE);
    let mut answer = places(ANSWER_BEFORE);
    let returned = check(
        formula,
        trace,
        &mut counts[..case.room.min(PLACES)],
        &mut answer[..case.answer.min(PLACES)],
    );
    returned == case.number as u64
        && places_right(&counts, COUNT_BEFORE, counts_after)
        && places_right(&answer, ANSWER_BEFORE, answer_after)
}

// A text, the number its reading returns and what its word room and answer slice hold afterwards.
fn text_right(case: &Case, text: &[u8], answer_after: &[u8], words_after: &[i16]) -> bool {
    let mut words = word_room();
    let mut answer = places(ANSWER_BEFORE);
    let right = read_right(
        text,
        &mut words[..case.room.min(WORDS)],
        &mut answer[..case.answer.min(PLACES)],
        case.number,
        words_after,
    );
    right && places_right(&answer, ANSWER_BEFORE, answer_after)
}

// An entry's words and the part of the trace that is expected.
fn entry_right(formula: &[i16], trace: &[i16], asked: &[u8]) -> bool {
    trace::entry(formula, trace, three(asked, 0), three(asked, 1))
        == part(trace, three(asked, 2), three(asked, 3))
}

// The unpacked case is as expected.
fn case_right(window: &[u8], case: &Case) -> bool {
    let words = words_of(part(window, case.words_at, case.answer_at));
    let answer_after = part(window, case.answer_at, case.rest_at);
    let rest = part(window, case.rest_at, case.end);
    let formula = part(&words, 0, case.formula);
    let trace = part(&words, case.formula, case.words);
    match case.kind {
        Kind::Check => check_right(case, formula, trace, answer_after, rest),
        Kind::Text => text_right(case, rest, answer_after, part(&words, 0, case.room)),
        Kind::Entry => entry_right(formula, trace, rest),
    }
}

// ---- all cases

fn case_of(bytes: &[u8]) -> Case {
    Case {
        kind: Kind::from(three(bytes, 0)),
        number: three(bytes, 1),
        start: three(bytes, 2),
        words_at: three(bytes, 3),
        answer_at: three(bytes, 4),
        rest_at: three(bytes, 5),
        end: three(bytes, 6),
        formula: three(bytes, 7),
        words: three(bytes, 8),
        room: three(bytes, 9),
        answer: three(bytes, 10),
    }
}

// Runs the unpacked case; answers where it is counted.
fn run_case(rt: &impl Print, window: &[u8], case: &Case) -> io::Result<usize> {
    if case_right(window, case) {
        return Ok(case.number);
    }
    print!(rt; "wrong: ")?;
    io::writer(rt).write_all(part(window, case.start, case.words_at))?;
    Ok(WRONG.wrapping_add(case.number))
}

// Runs the next case of the file; answers where it is counted, and nothing where the file ends.
fn run_next(rt: &impl Print, file: &mut impl Read, window: &mut [u8]) -> io::Result<Option<usize>> {
    let mut bytes = [0u8; CASE_BYTES];
    if files::read_full(file, &mut bytes) < CASE_BYTES {
        return Ok(None);
    }
    let case = case_of(&bytes);
    unpack(file, window, case.start, case.end);
    Ok(Some(run_case(rt, window, &case)?))
}

// How many cases were right and how many wrong.
#[derive(Clone, Copy, Default)]
struct Sum {
    right: usize,
    wrong: usize,
}

// Runs and counts the cases of the file.
fn run_all(
    rt: &impl Print,
    file: &mut impl Read,
    window: &mut [u8],
    tally: &mut [u64; TALLY],
) -> io::Result<Sum> {
    let mut wrong = 0;
    for k in 0..CASES {
        match run_next(rt, file, window)? {
            Some(at) if at < TALLY => {
                tally[at] = tally[at].wrapping_add(1);
                wrong += at / WRONG;
            }
            _ => {
                return Ok(Sum {
                    right: k - wrong,
                    wrong,
                });
            }
        }
    }
    Ok(Sum {
        right: 0,
        wrong: CASES,
    })
}

// A line for a number; none if there were no cases.
fn say_number(rt: &impl Print, number: usize, right: u64, wrong: u64) -> io::Result<()> {
    if right == 0 && wrong == 0 {
        return Ok(());
    }
    println!(rt; "refusal {number}: {right} right, {wrong} wrong")
}

// A line for each number.
fn say_all(rt: &impl Print, tally: &[u64; TALLY]) -> io::Result<()> {
    println!(rt; "cases by refusal number: 0 is accepted, 30 an entry")?;
    let (right, wrong) = tally.split_at(WRONG);
    for (number, (right, wrong)) in right.iter().zip(wrong).enumerate().take(NUMBERS) {
        say_number(rt, number, *right, *wrong)?;
    }
    Ok(())
}

// The last line.
fn say_end(rt: &impl Print, sum: Sum) -> io::Result<()> {
    println!(rt; "all: {} right, {} wrong", sum.right, sum.wrong)
}

// The window before the first case. A function's answer is lent at less cost in the proof than a local array.
fn cleared() -> [u8; WINDOW] {
    [0u8; WINDOW]
}

fn main(rt: HostRuntime) -> io::Result<()> {
    let mut window = cleared();
    let mut tally = [0u64; TALLY];
    let sum = match File::open(&rt, "cases") {
        Ok(mut file) => run_all(&rt, &mut file, &mut window, &mut tally)?,
        Err(_) => Sum::default(),
    };
    say_all(&rt, &tally)?;
    say_end(&rt, sum)
}
