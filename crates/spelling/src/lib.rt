// The preferred text of a word, and the word of a text. A row of the syntax is written by `syntax`, with the values of a word's fields, and read by
// it for the only fields that a text can have: whether the text is theirs is seen by writing it again.
#![tactic(auto)]

ghost use Rattle.std.specs.Prelude.{◌≡◌, true, false, cond, ◌+◌, ◌-◌, ◌≤◌, ◌<◌, length, get_or, take, drop};
ghost use Rattle.syntax.specs.Syntax.{value_in, fill};
ghost use Rattle.encoding.specs.Encode.{TheWord};
ghost use Rattle.spelling.specs.Rows.{syntax_at};
ghost use Rattle.spelling.specs.Spell.{last_offset, letter_values, row_for, spell, longest_text};
ghost use Rattle.spelling.specs.Print.{printed_says, put_into, PrintPromise};
ghost use Rattle.spelling.specs.Language.{Spells, ReadPromise};
ghost use Rattle.spelling.specs.Candidate.{all_rows, start_at, family_at, row_lanes, row_parts, fields_by, candidate_at, group_of};
ghost use Rattle.spelling.specs.Tried.{Figures, SpellsBy};

use arrayvec::ArrayVec;
use settings::{Refusal, Settings};
use words::{Family, Fields};

// The length of the longest text.
pub fn longest_text() -> usize
    ensures { result ≡ longest_text }
{
    61
}

// ---- the rows

// Room for a text: the longest row has 56 bytes, and no byte of a row says more than two.
const ROOM: usize = 112;

// A row: the words that it is for, and its text.
#[derive(Clone, Copy)]
struct Row {
    family: Family,
    lane: u32,
    part: u32,
    text: &'static [u8],
}

static ROWS: [Row; 18] = [
    Row {
        family: Family::ByElement,
        lane: 16,
        part: 0,
        text: b"UmlSl vD.4s, vN.4h, vM.h[I]",
    },
    Row {
        family: Family::ByElement,
        lane: 16,
        part: 1,
        text: b"UmlSl2 vD.4s, vN.8h, vM.h[I]",
    },
    Row {
        family: Family::ByElement,
        lane: 32,
        part: 0,
        text: b"UmlSl vD.2d, vN.2s, vM.s[I]",
    },
    Row {
        family: Family::ByElement,
        lane: 32,
        part: 1,
        text: b"UmlSl2 vD.2d, vN.4s, vM.s[I]",
    },
    Row {
        family: Family::Vector,
        lane: 8,
        part: 0,
        text: b"UmlSl vD.8h, vN.8b, vM.8b",
    },
    Row {
        family: Family::Vector,
        lane: 8,
        part: 1,
        text: b"UmlSl2 vD.8h, vN.16b, vM.16b",
    },
    Row {
        family: Family::Vector,
        lane: 16,
        part: 0,
        text: b"UmlSl vD.4s, vN.4h, vM.4h",
    },
    Row {
        family: Family::Vector,
        lane: 16,
        part: 1,
        text: b"UmlSl2 vD.4s, vN.8h, vM.8h",
    },
    Row {
        family: Family::Vector,
        lane: 32,
        part: 0,
        text: b"UmlSl vD.2d, vN.2s, vM.2s",
    },
    Row {
        family: Family::Vector,
        lane: 32,
        part: 1,
        text: b"UmlSl2 vD.2d, vN.4s, vM.4s",
    },
    Row {
        family: Family::Saturating,
        lane: 16,
        part: 0,
        text: b"sqdmlSlT zD.s, zN.h, zM.h[I]",
    },
    Row {
        family: Family::Saturating,
        lane: 32,
        part: 0,
        text: b"sqdmlSlT zD.d, zN.s, zM.s[I]",
    },
    Row {
        family: Family::LongLong,
        lane: 8,
        part: 0,
        text: b"UmlSll za.s[wR, O:P, vgxG], { zN.b-zK.b }, { zM.b-zL.b }",
    },
    Row {
        family: Family::LongLong,
        lane: 16,
        part: 0,
        text: b"UmlSll za.d[wR, O:P, vgxG], { zN.h-zK.h }, { zM.h-zL.h }",
    },
    Row {
        family: Family::Long,
        lane: 16,
        part: 0,
        text: b"UmlSl za.s[wR, O:P, vgxG], { zN.h-zK.h }, { zM.h-zL.h }",
    },
    Row {
        family: Family::LongLong,
        lane: 8,
        part: 0,
        text: b"UmlSll za.s[wR, O:P], { zN.b-zK.b }, { zM.b-zL.b }",
    },
    Row {
        family: Family::LongLong,
        lane: 16,
        part: 0,
        text: b"UmlSll za.d[wR, O:P], { zN.h-zK.h }, { zM.h-zL.h }",
    },
    Row {
        family: Family::Long,
        lane: 16,
        part: 0,
        text: b"UmlSl za.s[wR, O:P], { zN.h-zK.h }, { zM.h-zL.h }",
    },
];

// A row of the table. In one string of all rows its text stands from the row's start to the next one's (`placed`).
// Kept: a row goes by its number, since the definitions of the rows do (`syntax_at`, `fields_by`, `SpellsBy`).
#[tactic(auto, unfolding(crate::specs::Rows::syntax_at))]
fn row_at(k: usize) -> Row
    requires { k < 18 }
    ensures family { result.family ≡ family_at k }
    ensures lane { result.lane ≡ get_or row_lanes k 0 }
    ensures part { (result.part ≡ get_or row_parts k 0) × (result.part < 2) }
    ensures text { result.text.now ≡ syntax_at k }
    ensures place { take (start_at (k + 1) - start_at k) (drop (start_at k) all_rows) ≡ result.text.now }
{
    ROWS[k]
}

// The number of the row of fields, the preferred one.
#[tactic(auto, unfolding(crate::specs::Spell::row_for))]
fn row_of(f: Fields) -> u32
    ensures { result ≡ row_for false f }
{
    match (f.family, f.lane, f.part) {
        (Family::ByElement, 16, 0) => 0,
        (Family::ByElement, 16, _) => 1,
        (Family::ByElement, _, 0) => 2,
        (Family::ByElement, ..) => 3,
        (Family::Vector, 8, 0) => 4,
        (Family::Vector, 8, _) => 5,
        (Family::Vector, 16, 0) => 6,
        (Family::Vector, 16, _) => 7,
        (Family::Vector, _, 0) => 8,
        (Family::Vector, ..) => 9,
        (Family::Saturating, 16, _) => 10,
        (Family::Saturating, ..) => 11,
        (Family::LongLong, 8, _) => 12,
        (Family::LongLong, ..) => 13,
        (Family::Long, ..) => 14,
    }
}

// ---- the values of a word's fields

fn last_offset(family: Family, offset: u32) -> u32
    requires { offset < 8 }
    ensures { result ≡ last_offset family offset }
{
    match family {
        Family::LongLong => offset + 3,
        Family::Long => offset + 1,
        _ => offset,
    }
}

// The values of the letters, A to Z.
// Kept: `Figures f` is asked for: it is what decode says of fields, and `Fields` is a public struct that holds any numbers.
#[tactic(auto, unfolding(crate::specs::Spell::letter_values))]
fn values_of(f: Fields) -> [u32; 26]
    requires { Figures f }
    ensures { result ≡ letter_values f }
{
    let mut values = [0; 26];
    values[(b'D' - b'A') as usize] = f.destination;
    values[(b'N' - b'A') as usize] = f.first;
    values[(b'K' - b'A') as usize] = f.first + f.group - 1;
    values[(b'M' - b'A') as usize] = f.second;
    values[(b'L' - b'A') as usize] = f.second + f.group - 1;
    values[(b'G' - b'A') as usize] = f.group;
    values[(b'I' - b'A') as usize] = f.index;
    values[(b'R' - b'A') as usize] = f.select;
    values[(b'O' - b'A') as usize] = f.offset;
    values[(b'P' - b'A') as usize] = last_offset(f.family, f.offset);
    values[(b'S' - b'A') as usize] = u32::from(if f.subtract { b's' } else { b'a' });
    values[(b'T' - b'A') as usize] = u32::from(if f.part == 0 { b'b' } else { b't' });
    values[(b'U' - b'A') as usize] = u32::from(if f.unsigned { b'u' } else { b's' });
    values
}

// The text of a word's fields by a row, in place of a full text: it is written into its bytes, and cut. `push_row` would leave the length in memory at
// each byte, where the next byte waits for it; and a text that is handed out is copied twice. Both cost a third of `print`.
fn put_text(text: &mut ArrayVec<u8, ROOM>, k: usize, f: Fields)
    requires { (k < 18) × (length text.old.items ≡ 112) × Figures f }
    ensures { text.new.items ≡ fill (letter_values f) (syntax_at k) }
{
    let n = syntax::put_row(text.as_mut_slice(), row_at(k).text, &values_of(f));
    text.truncate(n);
}

// ---- print

// The preferred text of a word's fields, at the start of the room.
fn print_fields(room: &mut [u8], f: Fields) -> Result<usize, Refusal>
    requires { Figures f }
    ensures { (printed_says result, room.new) ≡ put_into (spell false f) room.old }
{
    let mut text = ArrayVec::from([0; ROOM]);
    put_text(&mut text, row_of(f) as usize, f);
    let n = text.len();
    if room.len() < n {
        return Err(Refusal::ShortRoom);
    }
    room[..n].copy_from_slice(text.as_slice());
    Ok(n)
}

// The preferred text of a word, at the start of the room, and its length. Refusals 1, 3, 12.
// Kept: the room is lent and the answer is a length, since `callinglamp_print` hands C's room on.
pub fn print(settings: Settings, word: u32, room: &mut [u8]) -> Result<usize, Refusal>
    ensures { PrintPromise settings word room.old result room.new }
{
    let f = words::decode(settings, word)?;
    print_fields(room, f)
}

// ---- the fields of a text

// How many registers a group has from the first to the last; no group has more than four.
// Kept: 0 for a group that there is not, since 0 is the definition's (`group_of`).
fn group_of(first: u32, last: u32) -> u32
    ensures { result ≡ group_of first last }
{
    let more = last.saturating_sub(first);
    if more < 4 { more + 1 } else { 0 }
}

// The value of a letter.
// Kept: 26 numbers by letter: the definitions `value_in`, `fill` and `taken` are over such a list, and may not change.
fn value(values: &[u32; 26], letter: u8) -> u32
    requires { (65 ≤ letter) × (letter ≤ 90) }
    ensures { result ≡ value_in values.now letter }
{
    values[usize::from(letter - b'A')]
}

// The fields of a row's number and of its values.
fn fields_of(k: usize, values: &[u32; 26]) -> Fields
    requires { k < 18 }
    ensures { result ≡ fields_by k values.now }
{
    let row = row_at(k);
    let first = value(values, b'N');
    let top = u32::from(value(values, b'T') == u32::from(b't'));
    let group = group_of(first, value(values, b'K'));
    Fields {
        family: row.family,
        unsigned: value(values, b'U') == u32::from(b'u'),
        subtract: value(values, b'S') == u32::from(b's'),
        lane: row.lane,
        part: row.part + top,
        index: value(values, b'I'),
        destination: value(values, b'D'),
        first,
        second: value(values, b'M'),
        group,
        select: value(values, b'R'),
        offset: value(values, b'O'),
    }
}

// ---- the word of a text

// Whether the text is that of a word's fields by the row.
fn is_theirs(text: &[u8], k: usize, f: Fields) -> bool
    requires { (k < 18) × Figures f }
    ensures { (result ≡ true → text.now ≡ fill (letter_values f) (syntax_at k)) × (text.now ≡ fill (letter_values f) (syntax_at k) → result ≡ true) }
{
    let mut theirs = ArrayVec::from([0; ROOM]);
    put_text(&mut theirs, k, f);
    text == theirs.as_slice()
}

// The word of a text by a row, by which the text can have no other fields than these.
fn compared(text: &[u8], k: usize, f: Fields) -> Option<u32>
    requires { (k < 18) × (f ≡ candidate_at k text.now) }
    ensures { TheWord (SpellsBy k text.now) result }
{
    let word = encoding::word_with(f)?;
    is_theirs(text, k, f).then_some(word)
}

// The word of a text by a row.
fn word_by(text: &[u8], k: usize) -> Option<u32>
    requires { k < 18 }
    ensures { TheWord (SpellsBy k text.now) result }
{
    let values = syntax::scan(text, row_at(k).text, [0; 26])?;
    compared(text, k, fields_of(k, &values))
}

// The word of a text, whatever the settings.
pub fn word_of(text: &[u8]) -> Option<u32>
    ensures { TheWord (Spells text.now) result }
{
    // A `for`: of `find_map` the goal `TheWord (Spells text.now) c.find_map.result` stayed open: of a range the kit has a law for `find` only.
    for k in 0..ROWS.len() {
        if let Some(word) = word_by(text, k) {
            return Some(word);
        }
    }
    None
}

// ---- read

// The word of a text. Refusals 1, 11, 3.
pub fn read(settings: Settings, text: &[u8]) -> Result<u32, Refusal>
    ensures { ReadPromise settings text.now result }
{
    if !settings.valid() {
        return Err(Refusal::BadSettings);
    }
    let word = word_of(text).ok_or(Refusal::NotText)?;
    words::decode(settings, word)?;
    Ok(word)
}
