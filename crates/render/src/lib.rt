// Lines rendered into a lent buffer, and the words of a file's bytes. Lines are written from the last byte to the first, since a number's
// digits come from the last to the first; so the bytes needed are counted before.
#![tactic(auto)]

ghost use Rattle.std.specs.Prelude.{◌≡◌, ◌++◌, ◌+◌, ◌/◌, ◌<◌, ◌≤◌, length};
ghost use Rattle.meaning.specs.Limits.{small};
ghost use Rattle.meaning.specs.Lines.{count_lines, last_line};
ghost use Rattle.render.specs.Shown.{shown, named, pair_line, claim_line, claim_lines, verdict_line};
ghost use Rattle.render.specs.Placed.{Room, Placed, Rendered};
ghost use Rattle.render.specs.Words.{Unpacked};

use meaning::Verdict;

// The bytes of `claim  count ` and the line's end.
const CLAIM_BYTES: usize = 14;
// The bytes of `accepted ` and the line's end.
const ACCEPTED_BYTES: usize = 10;
// The bytes of `refused  at ` and the line's end.
const REFUSED_BYTES: usize = 13;

// How many digits a number has.
fn width(number: u64) -> usize
    ensures value { result ≡ length (shown number) }
    ensures upper_bound { result ≤ 20 }
{
    number.max(1).ilog10() as usize + 1
}

// The byte of a digit.
fn digit(value: u64) -> u8
    requires { value < 10 }
    ensures { result ≡ 48 + value }
{
    b'0' + value as u8
}

// How many bytes the line of a claim has.
fn claim_width(number: usize, count: u64) -> usize
    ensures value { result ≡ length (claim_line number count) }
    ensures upper_bound { result ≤ 54 }
{
    CLAIM_BYTES + width(number as u64) + width(count)
}

// How many bytes the line of a verdict has.
fn verdict_width(verdict: Verdict) -> usize
    ensures value { result ≡ length (verdict_line verdict) }
    ensures upper_bound { result ≤ 53 }
{
    match verdict {
        Verdict::Accepted(total) => ACCEPTED_BYTES + width(total),
        Verdict::Refused(number, place) => REFUSED_BYTES
            + width(number as u64)
            + width(place as u64),
    }
}

// How many bytes a line per count needs.
fn claims_width(counts: &[u64]) -> usize
    requires { length counts.now ≤ small.claims }
    ensures value { result ≡ length (claim_lines 1 counts.now) }
    ensures upper_bound { result ≤ 55296 }
{
    let mut needed = 0;
    for (i, count) in counts.iter().enumerate() {
        needed += claim_width(i + 1, *count);
    }
    needed
}

// A lent buffer that is written from the last byte to the first, and where its written bytes begin.
#[derive(Drop)]
struct Tail<'a> {
    buffer: &'a mut [u8],
    at: usize,
}

impl Tail<'_> {
    // The digits of a number.
    fn put_number(&mut self, number: u64)
        requires { Room self.old.at (shown number) self.old.buffer.now }
        ensures placed { Placed self.old.at (shown number) self.old.buffer.now self.new.at self.new.buffer.now }
        ensures same_buffer { self.new.buffer.ghost_name ≡ self.old.buffer.ghost_name }
    {
        // A loop with its test at the end: 0 has a digit too.
        let mut rest = number;
        loop {
            self.at -= 1;
            self.buffer[self.at] = digit(rest % 10);
            if rest < 10 {
                return;
            }
            rest /= 10;
        }
    }

    // A text.
    fn put_text(&mut self, text: &[u8])
        requires { Room self.old.at text.now self.old.buffer.now }
        ensures placed { Placed self.old.at text.now self.old.buffer.now self.new.at self.new.buffer.now }
        ensures same_buffer { self.new.buffer.ghost_name ≡ self.old.buffer.ghost_name }
    {
        let start = self.at - text.len();
        self.buffer[start..self.at].copy_from_slice(text);
        self.at = start;
    }

    // A number behind what it is.
    fn put_named(&mut self, name: &[u8], value: u64)
        requires { Room self.old.at (named name.now value) self.old.buffer.now }
        ensures placed { Placed self.old.at (named name.now value) self.old.buffer.now self.new.at self.new.buffer.now }
        ensures same_buffer { self.new.buffer.ghost_name ≡ self.old.buffer.ghost_name }
    {
        self.put_number(value);
        self.put_text(name);
    }

    // A line of two named numbers.
    fn put_pair(&mut self, first: &[u8], number: u64, second: &[u8], value: u64)
        requires { Room self.old.at (pair_line first.now number second.now value) self.old.buffer.now }
        ensures placed { Placed self.old.at (pair_line first.now number second.now value) self.old.buffer.now self.new.at self.new.buffer.now }
        ensures same_buffer { self.new.buffer.ghost_name ≡ self.old.buffer.ghost_name }
    {
        self.put_text(b"\n");
        self.put_named(second, value);
        self.put_named(first, number);
    }

    // The line of a total.
    fn put_accepted(&mut self, total: u64)
        requires { Room self.old.at (verdict_line (Verdict.Accepted total)) self.old.buffer.now }
        ensures placed { Placed self.old.at (verdict_line (Verdict.Accepted total)) self.old.buffer.now self.new.at self.new.buffer.now }
        ensures same_buffer { self.new.buffer.ghost_name ≡ self.old.buffer.ghost_name }
    {
        self.put_text(b"\n");
        self.put_named(b"accepted ", total);
    }

    // The line of a verdict.
    fn put_verdict(&mut self, verdict: Verdict)
        requires { Room self.old.at (verdict_line verdict) self.old.buffer.now }
        ensures placed { Placed self.old.at (verdict_line verdict) self.old.buffer.now self.new.at self.new.buffer.now }
        ensures same_buffer { self.new.buffer.ghost_name ≡ self.old.buffer.ghost_name }
    {
        match verdict {
            Verdict::Accepted(total) => self.put_accepted(total),
            Verdict::Refused(number, place) => {
                self.put_pair(b"refused ", number as u64, b" at ", place as u64)
            }
        }
    }

    // The line of a claim.
    fn put_claim(&mut self, number: usize, count: u64)
        requires { Room self.old.at (claim_line number count) self.old.buffer.now }
        ensures placed { Placed self.old.at (claim_line number count) self.old.buffer.now self.new.at self.new.buffer.now }
        ensures same_buffer { self.new.buffer.ghost_name ≡ self.old.buffer.ghost_name }
    {
        self.put_pair(b"claim ", number as u64, b" count ", count);
    }

    // A line per count, the last first.
    fn put_claims(&mut self, counts: &[u64])
        requires { Room self.old.at (claim_lines 1 counts.now) self.old.buffer.now }
        ensures placed { Placed self.old.at (claim_lines 1 counts.now) self.old.buffer.now self.new.at self.new.buffer.now }
        ensures same_buffer { self.new.buffer.ghost_name ≡ self.old.buffer.ghost_name }
    {
        for (i, count) in counts.iter().enumerate().rev() {
            self.put_claim(i + 1, *count);
        }
    }
}

// The lines of a check: a line per count, and the verdict's; 0 where they do not fit, as `Rendered` says.
pub fn render(counts: &[u64], verdict: Verdict, buffer: &mut [u8]) -> usize
    requires { length counts.now ≤ small.claims }
    ensures { Rendered (count_lines 1 counts.now ++ last_line verdict) buffer.old result buffer.new }
{
    let needed = claims_width(counts) + verdict_width(verdict);
    if buffer.len() < needed {
        return 0;
    }
    let mut tail = Tail { buffer, at: needed };
    tail.put_verdict(verdict);
    tail.put_claims(counts);
    needed
}

// The whole words of a trace file, and how many they are.
pub fn unpack(bytes: &[u8], words: &mut [i16]) -> usize
    requires { length bytes.now / 2 ≤ length words.old }
    ensures { Unpacked bytes.now words.old result words.new }
{
    let (pairs, _) = bytes.as_chunks::<2>();
    // An index: of a `zip` with `iter_mut` the proof doesn't learn what was written.
    for (i, [low, high]) in pairs.iter().enumerate() {
        words[i] = words::word_of(*low, *high);
    }
    pairs.len()
}
