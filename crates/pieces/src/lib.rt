// Pieces of text: a number by its digits, as a text of its own, behind one that is lent, or at a place of a room that is lent.
#![tactic(auto)]

ghost use Rattle.std.specs.Prelude.{◌≡◌, ◌+◌, ◌≤◌, ◌<◌, ◌++◌, length};
ghost use Rattle.arrayvec.specs.ArrayString.{array_string_len};
ghost use Rattle.pieces.specs.Pieces.{glyph_of, digits, decimal, hex8, Wrote};

use arrayvec::ArrayString;
use itoa::Buffer;

// Kept: `char::from_digit` answers an Option, and a letter in lower case; no `{word:08X}`, since of `write!` the goal stayed open that `lines` names.
fn glyph(digit: u64) -> u8
    requires { digit < 16 }
    ensures { result ≡ glyph_of digit }
{
    let first = if digit < 10 { b'0' } else { b'A' - 10 };
    first + digit as u8
}

// Fills a room with the last digits of a number in a base, from the right to the left.
fn fill_digits(room: &mut [u8], n: u64, base: u64)
    requires { (1 < base) × (base ≤ 16) }
    ensures { room.new ≡ digits base (length room.old) n }
{
    let mut rest = n;
    for place in (0..room.len()).rev() {
        room[place] = glyph(rest % base);
        rest /= base;
    }
}

// The last digits of a number in a base, as an array of their own.
pub fn last_digits<const N: usize>(n: u64, base: u64) -> [u8; N]
    requires { (1 < base) × (base ≤ 16) }
    ensures { result ≡ digits base N n }
{
    let mut digits = [0; N];
    fill_digits(&mut digits, n, base);
    digits
}

// The last digits of a number in a base, in room that is lent: for a count that is known only as it runs. Answers the place after them.
pub fn put_digits(out: &mut [u8], at: usize, n: u64, base: u64, count: usize) -> usize
    requires { (1 < base) × (base ≤ 16) × (at + count ≤ length out.old) }
    ensures wrote { Wrote (digits base count n) at out.old out.new result }
    ensures upper_bound { result ≤ at + count }
{
    let end = at + count;
    fill_digits(&mut out[at..end], n, base);
    end
}

// Adds a number in decimal digits, of which one of 64 bits has at most 20. It goes onto the text at once, since one of its own is made empty, handed
// out and copied. One digit, as a word's refusal has, needs no buffer.
pub fn push_decimal<const N: usize>(out: &mut ArrayString<N>, n: u64)
    requires { array_string_len out.old + 20 ≤ N }
    ensures text { out.new.bytes ≡ out.old.bytes ++ decimal n }
    ensures upper_bound { array_string_len out.new ≤ array_string_len out.old + 20 }
{
    if n < 10 {
        out.push(char::from(glyph(n)));
        return;
    }
    out.push_str(Buffer::new().format(n));
}

// A number in decimal digits, as a text of its own.
pub fn decimal(n: u64) -> ArrayString<20>
    ensures { result.bytes ≡ decimal n }
{
    let mut text = ArrayString::new();
    push_decimal(&mut text, n);
    text
}

// Adds a word in hexadecimal digits, one by one: to test all of them as UTF-8 took a third of a line's time.
pub fn push_hex8<const N: usize>(out: &mut ArrayString<N>, word: u32)
    requires { array_string_len out.old + 8 ≤ N }
    ensures text { out.new.bytes ≡ out.old.bytes ++ hex8 word }
    ensures upper_bound { array_string_len out.new ≤ array_string_len out.old + 8 }
{
    for digit in &last_digits::<8>(u64::from(word), 16) {
        out.push(char::from(*digit));
    }
}

// A word in hexadecimal digits, as a text of its own.
pub fn hex8(word: u32) -> ArrayString<8>
    ensures { result.bytes ≡ hex8 word }
{
    let mut text = ArrayString::new();
    push_hex8(&mut text, word);
    text
}
