// DIMACS text to formula words.
#![tactic(auto)]

ghost use Rattle.std.specs.Prelude.{◌≡◌, ◌+◌, ◌*◌, ◌<◌, ◌≤◌, length};
ghost use Rattle.std.specs.List.Sorted.{IsSearchInRange, IsBinarySearchResult};
ghost use Rattle.std.specs.Ordering.{nat_cmp};
ghost use Rattle.meaning.specs.Limits.{small};
ghost use Rattle.meaning.specs.Meaning.{var};
ghost use Rattle.meaning.specs.Text.{lines, headed};
ghost use Rattle.meaning.specs.Promise.{TextRead};
ghost use Rattle.dimacs.specs.Clause.{Spliced, Begun, Added};
ghost use Rattle.dimacs.specs.Formed.{Closed, clauses_from, Roomy, Headed, Formed, told};

use meaning::TextAnswer;
use tokens::Sizes;

const TEXT_BYTES: usize = 65535;

const SHORT_TEXT: usize = 2048;

const WORDS: usize = 32767;

const CLAUSE_LENGTH: usize = 64;

// Why a text is refused, by the number of the refusal.
#[derive(Clone, Copy)]
enum Reason {
    Length = 1,
    Header = 2,
    Number = 3,
    Variable = 4,
    Literal = 5,
    Count = 6,
    Room = 7,
}

// Why, and at which place.
#[derive(Clone, Copy)]
struct Fault(Reason, usize);

// ---- a clause's literals, in rising order

// What literals are put in order by: the variable.
fn order(literal: &i16) -> usize
    ensures { result ≡ var literal.now }
{
    words::magnitude(*literal)
}

// Where a variable stands, or else where it belongs. Most texts have literals in rising order, some in falling order: the last one is asked
// first, then the first.
fn spot(literals: &[i16], v: usize) -> Result<usize, usize>
    ensures bound { IsSearchInRange result (length literals.now) }
    ensures position { IsBinarySearchResult (λ y. nat_cmp (var y) v) literals.now result }
{
    match literals {
        [.., last] if order(last) < v => Err(literals.len()),
        [first, ..] if v < order(first) => Err(0),
        _ => literals.binary_search_by_key(&v, order),
    }
}

// The literals from a place on move up by one, and one more takes the place. By a loop, since rotate_right calls memmove.
fn splice(clause: &mut [i16], k: usize, at: usize, literal: i16)
    requires { (at ≤ k) × (k < length clause.old) }
    ensures { Spliced clause.old k at literal clause.new }
{
    for i in (at..k).rev() {
        clause[i + 1] = clause[i];
    }
    clause[at] = literal;
}

// One literal more, unless its variable is there already or it is the 65th; a bool, for the caller knows the place. Fixed memory: the clause
// has k literals.
fn add(clause: &mut [i16], k: usize, literal: i16) -> bool
    requires { (0 < var literal) × Begun clause.old k }
    ensures { Added clause.old k literal result clause.new }
{
    let v = words::magnitude(literal);
    let Err(at) = spot(&clause[..k], v) else {
        return false;
    };
    if k == CLAUSE_LENGTH {
        return false;
    }
    splice(clause, k, at, literal);
    true
}

// ---- the clauses

// Copies words, by a loop that is not inlined: so the library for C needs no memcpy from its host.
#[inline(never)]
fn copied(from: &[i16], to: &mut [i16])
    requires { length to.old ≡ length from.now }
    ensures { to.new ≡ from.now }
{
    for i in 0..from.len() {
        to[i] = from[i];
    }
}

// A clause that has ended: its length and its literals.
fn close(clause: &[i16], words: &mut [i16], used: usize)
    requires { (length clause.now ≤ 64) × (used + length clause.now + 1 ≤ length words.old) }
    ensures { Closed clause.now words.old used words.new }
{
    let start = used + 1;
    words[used] = clause.len() as i16;
    copied(clause, &mut words[start..start + clause.len()]);
}

// The clauses from a place on. The clause that has not ended stands in a buffer of its own.
fn clauses(
    text: &[u8],
    start: usize,
    sizes: Sizes,
    clause: &mut [i16],
    words: &mut [i16],
) -> Result<usize, Fault>
    requires { Headed text.now start sizes.variables sizes.clauses × Roomy text.now clause.old words.old }
    ensures { Formed (clauses_from sizes.variables sizes.clauses text.now start) (told result) words.new }
{
    words[0] = sizes.variables as i16;
    words[1] = sizes.clauses as i16;
    // Buffers with a length beside: no heap, fixed memory. An index: tokens differ in length.
    let mut k = 0;
    let mut used = 2;
    let mut ended = 0;
    let mut at = tokens::next(text, start);
    while at < text.len() {
        let number = tokens::number_at(text, at).ok_or(Fault(Reason::Number, at))?;
        let size = number.value.unsigned_abs() as usize;
        let after = tokens::next(text, number.end);
        if ended == sizes.clauses {
            return Err(Fault(Reason::Count, at));
        }
        if sizes.variables < size {
            return Err(Fault(Reason::Variable, at));
        }
        if size == 0 {
            close(&clause[..k], words, used);
            used = used + k + 1;
            k = 0;
            ended += 1;
        } else if add(clause, k, number.value as i16) {
            k += 1;
        } else {
            return Err(Fault(Reason::Literal, at));
        }
        at = after;
    }
    if ended == sizes.clauses {
        return Ok(used);
    }
    Err(Fault(Reason::Count, text.len()))
}

// ---- the whole text

// The words of the text's formula, into a buffer that is long enough.
fn formula(text: &[u8], clause: &mut [i16], words: &mut [i16]) -> Result<usize, Fault>
    requires { Roomy text.now clause.old words.old }
    ensures { Formed (headed small (length text.now) (lines text.now)) (told result) words.new }
{
    let at = tokens::first_line(text);
    let end = tokens::line_end(text, at);
    let sizes = tokens::header_of(&text[..end], at).ok_or(Fault(Reason::Header, at))?;
    clauses(text, end, sizes, clause, words)
}

// With a buffer of so many words. The room is written once all is known to be sound.
fn read_in<const N: usize>(text: &[u8], room: &mut [i16]) -> Result<usize, Fault>
    requires { (length text.now ≤ 65535) × (length text.now + 6 ≤ 2 * N) × (N ≤ 32772) }
    ensures { TextRead small text.now room.old (told result) room.new }
{
    let mut clause = [0i16; CLAUSE_LENGTH];
    let mut words = [0i16; N];
    let used = formula(text, &mut clause, &mut words)?;
    if room.len() < used || WORDS < used {
        return Err(Fault(Reason::Room, text.len()));
    }
    copied(&words[..used], &mut room[..used]);
    Ok(used)
}

// By the text's length: a smaller buffer is cleared faster. A text of so many bytes has at most half as many words, and four more fit.
fn read_words(text: &[u8], room: &mut [i16]) -> Result<usize, Fault>
    ensures { TextRead small text.now room.old (told result) room.new }
{
    if text.len() > TEXT_BYTES {
        return Err(Fault(Reason::Length, TEXT_BYTES));
    }
    if text.len() > SHORT_TEXT {
        read_in::<32772>(text, room)
    } else {
        read_in::<1028>(text, room)
    }
}

// Reads a text into the room: how many words it wrote, or refusal number and place.
pub fn read(text: &[u8], room: &mut [i16]) -> TextAnswer
    ensures { TextRead small text.now room.old result room.new }
{
    match read_words(text, room) {
        Ok(written) => TextAnswer::Words(written),
        Err(Fault(reason, place)) => TextAnswer::Faulty(reason as usize, place),
    }
}
