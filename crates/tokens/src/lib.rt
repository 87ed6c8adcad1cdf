// Tokens, numbers and the header of a DIMACS text.
#![tactic(auto)]

ghost use Rattle.std.specs.Prelude.{◌≡◌, ◌<◌, ◌≤◌, length, drop};
ghost use Rattle.tokens.specs.Scan.{parts, stands, parted, line_end, word_at, tokens_from, piece, Next, Past};
ghost use Rattle.tokens.specs.Numbers.{digit, literal_of, NumeralRead, SignedRead, Ran};
ghost use Rattle.tokens.specs.Header.{OneLine, FirstLine, solid_line, sizes_of, head_read};
ghost use Rattle.meaning.specs.Limits.{small};
ghost use Rattle.meaning.specs.Text.{blank, header};

const VARIABLES: usize = 512;

const CLAUSES: usize = 2048;

const DIGITS: usize = 5;

// ---- bytes

fn is_blank(b: u8) -> bool
    ensures { result ≡ blank b }
{
    matches!(b, b' ' | b'\t' | b'\r')
}

// It is no byte of a token.
fn parts(b: u8) -> bool
    ensures { result ≡ parts b }
{
    b == b'\n' || is_blank(b)
}

// That byte stands there.
fn stands_at(text: &[u8], at: usize, b: u8) -> bool
    ensures { result ≡ stands text.now at b }
{
    text.get(at) == Some(&b)
}

// No token reaches to there.
fn parted_at(text: &[u8], at: usize) -> bool
    ensures { result ≡ parted text.now at }
{
    text.get(at).is_none_or(|b| parts(*b))
}

// ---- lines and tokens

pub fn line_end(text: &[u8], start: usize) -> usize
    ensures { result ≡ line_end text.now start }
{
    for at in start..text.len() {
        if text[at] == b'\n' {
            return at;
        }
    }
    start.max(text.len())
}

// From a line's first byte: a comment is passed over up to its line end.
fn past_comment(text: &[u8], at: usize) -> usize
    requires { at ≤ length text.now }
    ensures { Past text.now at result }
{
    if stands_at(text, at, b'c') {
        line_end(text, at + 1)
    } else {
        at
    }
}

// Where the next token begins, or the text's end.
pub fn next(text: &[u8], start: usize) -> usize
    requires { start ≤ length text.now }
    ensures { Next text.now start result }
{
    // An index: a whole comment is passed over at once.
    let mut at = start;
    while let Some(&b) = text.get(at) {
        if b == b'\n' {
            at = past_comment(text, at + 1);
        } else if is_blank(b) {
            at += 1;
        } else {
            break;
        }
    }
    at
}

// The token that begins there, empty where none does.
fn word_at(text: &[u8], at: usize) -> &[u8]
    requires { at ≤ length text.now }
    ensures { result.now ≡ word_at text.now at }
{
    let rest = &text[at..];
    let end = rest.iter().position(|b| parts(*b)).unwrap_or(rest.len());
    &rest[..end]
}

// ---- numbers

// An unsigned number, and where its digits end.
#[derive(Clone, Copy)]
struct Numeral {
    value: usize,
    end: usize,
}

// A number with its sign, and where its token ends.
#[derive(Clone, Copy)]
pub struct Signed {
    pub value: i32,
    pub end: usize,
}

fn digit(b: u8) -> Option<usize>
    ensures { result ≡ digit b }
{
    if !b.is_ascii_digit() {
        return None;
    }
    Some(usize::from(b - b'0'))
}

// Digits from start on, five at most.
fn digits_from(text: &[u8], start: usize) -> Numeral
    requires { start ≤ length text.now }
    ensures { Ran text.now start result.value result.end }
{
    let mut value = 0;
    let mut end = start;
    for b in text[start..].iter().take(DIGITS) {
        let Some(d) = digit(*b) else { break };
        value = 10 * value + d;
        end += 1;
    }
    Numeral { value, end }
}

// The number that a token writes, without a sign and without a leading zero. A hint: it runs once for each token.
#[inline]
fn numeral_at(text: &[u8], start: usize) -> Option<Numeral>
    requires { start ≤ length text.now }
    ensures { NumeralRead text.now start result }
{
    let number = digits_from(text, start);
    if number.end == start || !parted_at(text, number.end) {
        return None;
    }
    if stands_at(text, start, b'0') && number.end != start + 1 {
        return None;
    }
    Some(number)
}

fn with_sign(value: usize, minus: bool) -> i32
    requires { value < 1048576 }
    ensures { result ≡ literal_of minus value }
{
    let v = value as i32;
    if minus { -v } else { v }
}

pub fn number_at(text: &[u8], at: usize) -> Option<Signed>
    requires { at < length text.now }
    ensures { SignedRead text.now at result }
{
    let minus = stands_at(text, at, b'-');
    let Numeral { value, end } = numeral_at(text, at + usize::from(minus))?;
    let number = Signed {
        value: with_sign(value, minus),
        end,
    };
    if value == 0 && minus {
        None
    } else {
        Some(number)
    }
}

// ---- the header

// What the header says. formula::Sizes says it of words: the two crates do not know one another.
#[derive(Clone, Copy)]
pub struct Sizes {
    pub variables: usize,
    pub clauses: usize,
}

// The two numbers, and no token after them.
fn sizes_at(line: &[u8], at: usize) -> Option<Sizes>
    requires { at ≤ length line.now }
    ensures { head_read result ≡ sizes_of (tokens_from line.now at) }
{
    let variables = numeral_at(line, next(line, at))?;
    let clauses = numeral_at(line, next(line, variables.end))?;
    if next(line, clauses.end) < line.len() {
        return None;
    }
    if variables.value > VARIABLES || clauses.value > CLAUSES {
        return None;
    }
    Some(Sizes {
        variables: variables.value,
        clauses: clauses.value,
    })
}

// The header, in the line from there to the end.
pub fn header_of(line: &[u8], at: usize) -> Option<Sizes>
    requires { OneLine line.now at }
    ensures { head_read result ≡ header small (piece at (drop at line.now)) }
{
    if word_at(line, at) != b"p".as_slice() {
        return None;
    }
    let cnf = next(line, at + 1);
    if word_at(line, cnf) != b"cnf".as_slice() {
        return None;
    }
    sizes_at(line, cnf + 3)
}

// ---- the header's line

// The line from there to the end is no comment and not blank.
fn solid(line: &[u8], at: usize) -> bool
    requires { OneLine line.now at }
    ensures { result ≡ solid_line (piece at (drop at line.now)) }
{
    !stands_at(line, at, b'c') && next(line, at) < line.len()
}

// Where the first line begins that is neither comment nor blank, or the text's end.
pub fn first_line(text: &[u8]) -> usize
    ensures { FirstLine text.now result }
{
    // An index: it goes from line to line, and lines differ in length.
    let mut at = 0;
    while at < text.len() {
        let end = line_end(text, at);
        if solid(&text[..end], at) {
            break;
        }
        at = text.len().min(end + 1);
    }
    at
}
