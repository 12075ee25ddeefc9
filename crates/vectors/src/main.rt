// Holds decode, encode, partner, print and read to what LLVM's disassembler says of a few thousand words. The words and
// LLVM's answers are on standard input, made by tests/llvm/make_vectors.py, whose header has the line's columns.
#![tactic(auto)]

ghost use Rattle.std.specs.Prelude.{◌≤◌, ◌<◌, length};
ghost use Rattle.std.specs.Io.KnownBytes.{Consumes};

use settings::{Features, Modes, Refusal, Settings};
use std::{array, io};
use words::{Family, Fields};

// Each feature set for which a line has a letter, in the letters' order.
const FEATURE_SETS: [u32; 5] = [1, 2, 4, 12, 28];
// Where the line's letters begin.
const LETTERS: usize = 45;
// Where its text begins.
const TEXT: usize = 51;
// Longer than any text.
const ROOM: usize = 64;
// What the room has before a text is printed into it, and past the text afterwards: a byte of no text.
const UNTOUCHED: u8 = 7;

// ---- a line

// What a line says of a word: its fields, if it is of the five families, whether LLVM takes it by each feature set, and the text that LLVM prints.
#[derive(Clone, Copy)]
struct Case<'a> {
    word: u32,
    fields: Option<Fields>,
    letters: &'a [u8],
    text: &'a [u8],
}

// The byte at a place of the line, and 0 past its end, so that no reader has to know the line's length.
// Kept: `syntax` has this line, private to it; public, it would be a promise with an edit of its own, for one line.
fn byte_at(line: &[u8], at: usize) -> u8 {
    line.get(at).copied().unwrap_or(0)
}

// The value of a digit: `0` to `9` are the bytes 48 to 57, and `A` to `F` 65 to 70.
// Kept: `to_digit` answers nothing for other bytes, and a program does on every input what it did: a line of any bytes is judged as it was.
fn digit(byte: u8) -> u32
    ensures { result < 16 }
{
    let code = u32::from(byte);
    if code < 64 {
        code % 16
    } else {
        (code + 9) % 16
    }
}

// The word that the line is about: its first eight digits.
fn word_of(line: &[u8]) -> u32 {
    (0..8usize).fold(
        0u32,
        |word, at| word.wrapping_mul(16).wrapping_add(digit(byte_at(line, at))),
    )
}

// One of the line's twelve numbers, of two decimal digits each, after the word: 0 is the family, and the fields follow
// in document 01's order.
fn number_of(line: &[u8], column: usize) -> u32
    requires { column < 12 }
{
    let at = 9 + 3 * column;
    digit(byte_at(line, at)) * 10 + digit(byte_at(line, at + 1))
}

fn flag(number: u32) -> Option<bool> {
    match number {
        0 => Some(false),
        1 => Some(true),
        _ => None,
    }
}

fn fields_of(line: &[u8]) -> Option<Fields> {
    Some(Fields {
        family: Family::try_from(number_of(line, 0)).ok()?,
        unsigned: flag(number_of(line, 1))?,
        subtract: flag(number_of(line, 2))?,
        lane: number_of(line, 3),
        part: number_of(line, 4),
        index: number_of(line, 5),
        destination: number_of(line, 6),
        first: number_of(line, 7),
        second: number_of(line, 8),
        group: number_of(line, 9),
        select: number_of(line, 10),
        offset: number_of(line, 11),
    })
}

// None where it is no line of the list: it is too short, or its numbers are no fields. The text ends before the line's end.
fn case_of(line: &[u8]) -> Option<Case<'_>> {
    let letters = line.get(LETTERS..TEXT)?;
    let (_, text) = line.get(TEXT..)?.split_last()?;
    let fields = match number_of(line, 0) {
        0 => None,
        _ => Some(fields_of(line)?),
    };
    Some(Case {
        word: word_of(line),
        fields,
        letters,
        text,
    })
}

// ---- settings

const ALL_FEATURES: Settings = Settings {
    vl: 128,
    features: Features(31),
    modes: Modes(0),
    select: [0; 4],
};

const NO_FEATURES: Settings = Settings {
    features: Features(0),
    ..ALL_FEATURES
};

// A vector length outside the rules is refused with 1, whatever else is asked.
const BAD_LENGTH: Settings = Settings {
    vl: 129,
    ..ALL_FEATURES
};

// ---- decode

// With every feature a word of the five families is described, and any other word refused with 3.
fn is_decoded(case: Case<'_>) -> bool {
    (words::decode(ALL_FEATURES, case.word) == case.fields.ok_or(Refusal::UnknownWord))
        & (words::decode(BAD_LENGTH, case.word) == Err(Refusal::BadSettings))
}

// Whether decode does under one feature set what LLVM's letter says. At a dot LLVM could not be asked, and decode
// may do either, but answers nothing else.
fn is_taken(case: Case<'_>, features: u32, letter: u8) -> bool {
    let settings = Settings {
        features: Features(features),
        ..ALL_FEATURES
    };
    let answer = words::decode(settings, case.word);
    let refused = answer == Err(Refusal::UnknownWord);
    let described = answer.is_ok() & (answer == case.fields.ok_or(Refusal::UnknownWord));
    match letter {
        b'y' => described,
        b'n' => refused,
        b'.' => described | refused,
        _ => false,
    }
}

fn is_taken_by_sets(case: Case<'_>) -> bool {
    FEATURE_SETS
        .iter()
        .zip(case.letters)
        .all(|(features, letter)| is_taken(case, *features, *letter))
}

// ---- encode

fn no_word_has(fields: Fields) -> bool {
    encoding::encode(ALL_FEATURES, fields) == Err(Refusal::NoSuchWord)
}

// Whether encode refuses the fields with 5, as it must where one of them has a value that no family knows.
fn refuses_spoiled(fields: Fields) -> bool {
    let spoiled = [
        Fields { lane: 64, ..fields },
        Fields { part: 2, ..fields },
        Fields { index: 8, ..fields },
        Fields { group: 3, ..fields },
        Fields {
            select: 12,
            ..fields
        },
        Fields {
            offset: 8,
            ..fields
        },
        Fields {
            destination: 32,
            ..fields
        },
        Fields {
            first: 32,
            ..fields
        },
        Fields {
            second: 32,
            ..fields
        },
    ];
    spoiled.iter().all(|fields| no_word_has(*fields))
}

// Whether the fields encode to the word, with the refusals that other settings owe: 3 without a feature, and 1.
fn encodes_to(fields: Fields, word: u32) -> bool {
    (encoding::encode(ALL_FEATURES, fields) == Ok(word))
        & (encoding::encode(NO_FEATURES, fields) == Err(Refusal::UnknownWord))
        & (encoding::encode(BAD_LENGTH, fields) == Err(Refusal::BadSettings))
        & refuses_spoiled(fields)
}

// A word without fields has nothing to show.
fn is_encoded(case: Case<'_>) -> bool {
    match case.fields {
        Some(fields) => encodes_to(fields, case.word),
        None => true,
    }
}

// ---- partner

// Whether the word's partner is the word that decode describes by the fields with subtract flipped, and is its partner in turn.
fn has_partner(word: u32, fields: Fields) -> bool {
    let flipped = Fields {
        subtract: !fields.subtract,
        ..fields
    };
    match words::partner(ALL_FEATURES, word) {
        Ok(other) => {
            (words::decode(ALL_FEATURES, other) == Ok(flipped))
                & (words::partner(ALL_FEATURES, other) == Ok(word))
        }
        Err(_) => false,
    }
}

// C has no partner, nor has a word that is of none of the five families.
fn is_partnered(case: Case<'_>) -> bool {
    match case.fields {
        None => words::partner(ALL_FEATURES, case.word) == Err(Refusal::UnknownWord),
        Some(fields) => {
            if fields.family == Family::Saturating {
                return words::partner(ALL_FEATURES, case.word) == Err(Refusal::NoPartner);
            }
            has_partner(case.word, fields)
        }
    }
}

// ---- print and read

// Whether the room has the text, and past it what it had before.
fn has_text(room: &[u8], text: &[u8]) -> bool {
    match room.strip_prefix(text) {
        Some(rest) => rest.iter().all(|byte| *byte == UNTOUCHED),
        None => false,
    }
}

// Whether print answers so in an untouched room, and leaves this text in it.
fn prints(settings: Settings, word: u32, answer: Result<usize, Refusal>, text: &[u8]) -> bool {
    let mut room = [UNTOUCHED; ROOM];
    (spelling::print(settings, word, &mut room) == answer) & has_text(&room, text)
}

fn print_refuses(settings: Settings, word: u32, refusal: Refusal) -> bool {
    prints(settings, word, Err(refusal), b"")
}

fn is_printed(word: u32, text: &[u8]) -> bool {
    prints(ALL_FEATURES, word, Ok(text.len()), text)
        & print_refuses(NO_FEATURES, word, Refusal::UnknownWord)
        & print_refuses(BAD_LENGTH, word, Refusal::BadSettings)
}

fn is_read(text: &[u8], word: u32) -> bool {
    (spelling::read(ALL_FEATURES, text) == Ok(word))
        & (spelling::read(NO_FEATURES, text) == Err(Refusal::UnknownWord))
        & (spelling::read(BAD_LENGTH, text) == Err(Refusal::BadSettings))
}

// Whether print refuses the word, which is none of the five, and read the text that stands there, whatever it is.
fn has_no_text(word: u32, text: &[u8]) -> bool {
    print_refuses(ALL_FEATURES, word, Refusal::UnknownWord)
        & print_refuses(BAD_LENGTH, word, Refusal::BadSettings)
        & (spelling::read(ALL_FEATURES, text) == Err(Refusal::NotText))
        & (spelling::read(NO_FEATURES, text) == Err(Refusal::NotText))
        & (spelling::read(BAD_LENGTH, text) == Err(Refusal::BadSettings))
}

fn is_spelled(case: Case<'_>) -> bool {
    match case.fields {
        Some(_) => is_printed(case.word, case.text) & is_read(case.text, case.word),
        None => has_no_text(case.word, case.text),
    }
}

// ---- all lines

fn is_right(line: &[u8]) -> bool {
    match case_of(line) {
        Some(case) => {
            is_decoded(case)
                & is_taken_by_sets(case)
                & is_encoded(case)
                & is_partnered(case)
                & is_spelled(case)
        }
        None => false,
    }
}

fn is_described(line: &[u8]) -> bool {
    words::decode(ALL_FEATURES, word_of(line)).is_ok()
}

// Names the word by the line's own digits.
fn print_wrong(rt: &impl Print, line: &[u8]) -> io::Result<()> {
    let digits: [u8; 8] = array::from_fn(|at| byte_at(line, at));
    rt.write_all(b"wrong ")?;
    rt.write_all(&digits)?;
    rt.write_all(b"\n")
}

// Checks each line, and then says how many words there were.
fn check_list(rt: &impl Print, list: &[u8]) -> io::Result<()> {
    let mut described = 0usize;
    let mut refused = 0usize;
    let mut wrong = 0usize;
    for line in list.split_inclusive(|byte| *byte == b'\n') {
        if is_described(line) {
            described = described.saturating_add(1);
        } else {
            refused = refused.saturating_add(1);
        }
        if !is_right(line) {
            print_wrong(rt, line)?;
            wrong = wrong.saturating_add(1);
        }
    }
    let words = described.saturating_add(refused);
    println!(rt; "{words} words: {described} described, {refused} refused, {wrong} wrong")
}

// Reads until the room is full, the input ends or a read fails, and hands out what it read: just the bytes that the input lost, where it says which.
// Kept: `lamp` has this function, private to it too, and `input` has it for other crates. The programs keep their own, since public it is a promise that
// fixes no answer: a read may fail or stop short at any byte.
// Kept: a `while`, since only `read` says how far a turn comes.
fn read_full<'a, R: io::Read>(from: &mut R, room: &'a mut [u8]) -> &'a [u8]
    ensures fits { length result.now ≤ length room.old }
    ensures bytes { Consumes (R.remaining from.old) (R.remaining from.new) result.now }
{
    let mut done = 0;
    while done < room.len() {
        match from.read(&mut room[done..]) {
            Ok(0) | Err(_) => break,
            Ok(got) => done += got,
        }
    }
    &room[..done]
}

// Larger than the file. A longer file would be cut short, and the count of words would show it.
const INPUT: usize = 524288;

// Kept: with `[0; INPUT]` in `main` the checker ran out of stack: of an array that it sees made it counts the elements.
fn input_room() -> [u8; INPUT] {
    [0u8; INPUT]
}

fn main(rt: HostRuntime) -> io::Result<()> {
    let mut room = input_room();
    check_list(&rt, read_full(&mut rt.stdin(), &mut room))
}
