// A row of a syntax, written with values and read for them. What a row says is in specs/.
#![tactic(auto)]

ghost use Rattle.std.specs.Prelude.{◌≡◌, true, cond, ◌+◌, ◌*◌, ◌≤◌, ◌<◌, ◌++◌, length, get_or, Some, None};
ghost use Rattle.std.specs.Char.{is_ascii_uppercase};
ghost use Rattle.arrayvec.specs.ArrayVec.{array_vec_len};
ghost use Rattle.pieces.specs.Pieces.{Wrote};
ghost use Rattle.syntax.specs.Syntax.{is_number, value_in, fill, TwoDigits, OneByte};
ghost use Rattle.syntax.specs.Scan.{says_of, value_of, passes_of, fits, taken};

use arrayvec::ArrayVec;

fn is_number(c: u8) -> bool
    ensures { result ≡ is_number c }
{
    (b'A'..=b'R').contains(&c)
}

// ---- a row is written

// The value of a letter, and any other byte itself.
fn value_in(values: &[u32; 26], c: u8) -> u8
    requires { OneByte values.now }
    ensures { result ≡ cond (is_ascii_uppercase c) (value_in values.now c) c }
{
    if !c.is_ascii_uppercase() {
        return c;
    }
    values[usize::from(c - b'A')] as u8
}

// What a byte of a row says by its value, at `at`; answers the place behind it.
// Kept: beside `push_said`, as `put_row` beside `push_row`: a text that grows keeps its length in memory, where each byte waits for it, and a slice has none.
fn put_said(out: &mut [u8], at: usize, c: u8, v: u8) -> usize
    requires { (at + 2 ≤ length out.old) × (is_number c ≡ true → v < 100) }
    ensures wrote { Wrote (says_of c v) at out.old out.new result }
    ensures upper_bound { result ≤ at + 2 }
{
    if !is_number(c) {
        out[at] = v;
        return at + 1;
    }
    if v < 10 {
        out[at] = b'0' + v;
        return at + 1;
    }
    out[at] = b'0' + v / 10;
    out[at + 1] = b'0' + v % 10;
    at + 2
}

// The text of a row, at the start of room that is lent; answers its length. No byte of a row says more than two.
pub fn put_row(out: &mut [u8], row: &[u8], values: &[u32; 26]) -> usize
    requires { (2 * length row.now ≤ length out.old) × TwoDigits values.now × OneByte values.now }
    ensures { Wrote (fill values.now row.now) 0 out.old out.new result }
{
    let mut at = 0;
    for c in row {
        at = put_said(out, at, *c, value_in(values, *c));
    }
    at
}

// What a byte of a row says by its value, behind what is there.
fn push_said<const N: usize>(out: &mut ArrayVec<u8, N>, c: u8, v: u8)
    requires { (array_vec_len out.old + 2 ≤ N) × (is_number c ≡ true → v < 100) }
    ensures text { out.new.items ≡ out.old.items ++ says_of c v }
    ensures most { array_vec_len out.new ≤ array_vec_len out.old + 2 }
{
    if !is_number(c) {
        out.push(v);
        return;
    }
    if v < 10 {
        out.push(b'0' + v);
        return;
    }
    out.push(b'0' + v / 10);
    out.push(b'0' + v % 10);
}

// The text of a row, behind what is there.
pub fn push_row<const N: usize>(out: &mut ArrayVec<u8, N>, row: &[u8], values: &[u32; 26])
    requires { (array_vec_len out.old + 2 * length row.now ≤ N) × TwoDigits values.now × OneByte values.now }
    ensures { out.new.items ≡ out.old.items ++ fill values.now row.now }
{
    for c in row {
        push_said(out, *c, value_in(values, *c));
    }
}

// ---- a row is read

// The byte at `at`, or 0 past the end.
fn byte_at(text: &[u8], at: usize) -> u8
    ensures { result ≡ get_or text.now at 0 }
{
    text.get(at).copied().unwrap_or(0)
}

// What a row's letter takes of a text that goes on with `a` and `b`: its value, and how many bytes have it. No number has more than two digits.
#[tactic(auto, unfolding(crate::specs::Scan::number_of, crate::specs::Scan::passes_of))]
fn first(c: u8, a: u8, b: u8) -> (u32, usize)
    ensures value { result.0 ≡ value_of c a b }
    ensures passed { (result.1 ≡ passes_of c a b) × (result.1 ≤ 2) }
{
    if !is_number(c) {
        return (u32::from(a), 1);
    }
    if !a.is_ascii_digit() {
        return (0, 0);
    }
    let digit = u32::from(a - b'0');
    if !b.is_ascii_digit() {
        return (digit, 1);
    }
    (digit * 10 + u32::from(b - b'0'), 2)
}

// The values, with those of the row's letters in a text that fits the row.
pub fn scan(text: &[u8], row: &[u8], mut values: [u32; 26]) -> Option<[u32; 26]>
    ensures { result ≡ cond (fits row.now text.now) (Some (taken row.now text.now values)) None }
{
    // A place: `rest = rest.get(passed..).unwrap_or_default()`, as a letter may pass bytes that a text lacks, would be no plainer than `at += passed`.
    let mut at = 0;
    for c in row {
        let a = byte_at(text, at);
        if !c.is_ascii_uppercase() {
            if a != *c {
                return None;
            }
            at += 1;
            continue;
        }
        let (value, passed) = first(*c, a, byte_at(text, at + 1));
        values[usize::from(*c - b'A')] = value;
        at += passed;
    }
    Some(values)
}
