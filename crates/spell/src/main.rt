// For people: a line of eight hexadecimal digits becomes the text of the word, and a line of text becomes the word.
#![tactic(auto)]

ghost use Rattle.std.specs.Prelude.{◌≡◌, false, [], ◌++◌, ◌<◌, ◌≤◌, length};
ghost use Rattle.pieces.specs.Pieces.{text};
ghost use Rattle.words.specs.Decode.{decode_paper};
ghost use Rattle.spelling.specs.Spell.{longest_text};
ghost use Rattle.spell.specs.Spelled.{all_on, digit_in, is_word, word_in, word_text, Answers};

use arrayvec::ArrayVec;
use settings::{Features, Modes, Settings};
use std::io;
use std::io::Read;

const ALL_ON: Settings = Settings {
    vl: 128,
    features: Features(31),
    modes: Modes(0),
    select: [0; 4],
};

// ---- a line of eight hexadecimal digits

// The value of a hexadecimal digit.
fn digit(byte: u8) -> Option<u32>
    ensures { result ≡ digit_in byte }
{
    char::from(byte).to_digit(16)
}

// The word that a line of eight digits says.
fn word_in(line: &[u8]) -> Option<u32>
    ensures { result ≡ word_in line.now }
{
    if line.len() != 8 {
        return None;
    }
    let mut word = 0;
    for byte in line {
        word = word * 16 + digit(*byte)?;
    }
    Some(word)
}

// ---- the answer to a line

// Room for any answer: the longest text has 61 bytes, and a line's end one.
const ROOM: usize = 64;

// The answer is put into a text that is lent: one that is handed out was copied at each step, from bytes that were just written.
fn put_ended(out: &mut ArrayVec<u8, ROOM>, piece: &[u8])
    requires { (out.old.items ≡ []) × (length piece.now < 64) }
    ensures { out.new.items ≡ piece.now ++ text "\n" }
{
    out.try_extend_from_slice(piece).unwrap();
    out.push(b'\n');
}

// The text of a word, or its refusal. Since all features are on, a word is refused with 3 only.
fn put_text_of(out: &mut ArrayVec<u8, ROOM>, word: u32)
    requires { out.old.items ≡ [] }
    ensures { out.new.items ≡ word_text (decode_paper all_on word) ++ text "\n" }
{
    let mut room = [0; ROOM];
    match spelling::print(ALL_ON, word, &mut room) {
        Ok(n) => put_ended(out, &room[..n]),
        Err(_) => put_ended(out, b"refused 3"),
    }
}

// The word of a text, or its refusal. Since all features are on, a text is refused with 11 only.
fn put_word_of(out: &mut ArrayVec<u8, ROOM>, line: &[u8])
    requires { out.old.items ≡ [] }
    ensures { is_word line.now ≡ false → Answers line.now out.new.items }
{
    match spelling::word_of(line) {
        Some(word) => put_ended(out, pieces::hex8(word).as_str().as_bytes()),
        None => put_ended(out, b"refused 11"),
    }
}

// The answer to a line, with the line's end.
fn put_answer(out: &mut ArrayVec<u8, ROOM>, line: &[u8])
    requires { out.old.items ≡ [] }
    ensures { Answers line.now out.new.items }
{
    match word_in(line) {
        Some(word) => put_text_of(out, word),
        None => put_word_of(out, line),
    }
}

// ---- lines in, answers out

// How many bytes of a line are kept.
const KEPT: usize = 64;

// More than the longest text has: of a longer line these bytes decide the answer.
// Kept: no contract can name a constant alone, so that `longest_text` is below KEPT is said of what this hands out (`enough_kept`).
fn no_line() -> ArrayVec<u8, KEPT>
    ensures { (result.items ≡ []) × (longest_text < KEPT) }
{
    ArrayVec::new()
}

// Writes the answer to a line. Each answer is written at once, for whoever types a line and waits.
fn answer(rt: &impl Print, line: &[u8]) -> io::Result<()> {
    let mut out = ArrayVec::new();
    put_answer(&mut out, line);
    rt.write_all(out.as_slice())
}

// Answers the lines that end in a piece of the input, and keeps what `line` has room for of the next one.
// Where an answer can't be written that error comes back, and `line` has any bytes.
fn take_piece(rt: &impl Print, piece: &[u8], line: &mut ArrayVec<u8, KEPT>) -> io::Result<()> {
    for byte in piece {
        if *byte == b'\n' {
            answer(rt, line.as_slice())?;
            line.clear();
        } else if line.len() < KEPT {
            line.push(*byte);
        }
    }
    Ok(())
}

// A read that fails is the input's end.
fn read_some<'a>(from: &mut impl Read, input: &'a mut [u8]) -> &'a [u8]
    ensures { length result.now ≤ length input.old }
{
    let got = from.read(input).unwrap_or(0);
    &input[..got]
}

// Answers every line that ends, and keeps of what comes after the last line's end. A proved loop has to end, and
// nothing says that the input does: the turns are more than any run takes.
fn take_input(
    rt: &impl Print,
    from: &mut impl Read,
    input: &mut [u8],
    line: &mut ArrayVec<u8, KEPT>,
) -> io::Result<()> {
    for _ in 0..u64::MAX {
        let piece = read_some(from, input);
        if piece.is_empty() {
            break;
        }
        take_piece(rt, piece, line)?;
    }
    Ok(())
}

// Room for much input at once: a loop over small pieces would spend its time on calls.
const INPUT: usize = 65536;

fn main(rt: HostRuntime) -> io::Result<()> {
    let mut input = [0; INPUT];
    let mut line = no_line();
    take_input(&rt, &mut rt.stdin(), &mut input, &mut line)?;
    if !line.is_empty() {
        answer(&rt, line.as_slice())?;
    }
    Ok(())
}
