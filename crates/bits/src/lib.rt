#![tactic(auto)]

ghost use Rattle.std.specs.Prelude.{◌≡◌, ◌+◌, ◌%◌, ◌^◌, ◌<◌, ◌≤◌, length};
ghost use Rattle.elements.specs.Elements.{element_at, put_at};
ghost use Rattle.bits.specs.Bits.{word_toggles};
ghost use Rattle.bits.specs.Replace.{Replaced, Cleared};

use std::ops::{Add, AddAssign};

// The bits that changed: those that rose, from 0 to 1, and those that fell. They have 64 bits, as the words that are counted, so that the compiler keeps
// the two sums side by side.
#[derive(Clone, Copy, Default)]
pub struct Toggles {
    pub rises: u64,
    pub falls: u64,
}

impl Toggles {
    // Those of eight bytes. Of the ones of old XOR new, those that are ones in the new word rose, and those that are ones in the old word fell.
    pub fn of_word(before: u64, after: u64) -> Toggles
        ensures value { result ≡ word_toggles before after }
        ensures few { (result.rises ≤ 64) × (result.falls ≤ 64) }
    {
        let changed = before ^ after;
        Toggles {
            rises: u64::from((changed & after).count_ones()),
            falls: u64::from((changed & before).count_ones()),
        }
    }
}

impl Add for Toggles {
    type Output = Toggles;

    ghost can_add = { λ t u. (t.rises + u.rises < 2 ^ 64) × (t.falls + u.falls < 2 ^ 64) };

    ghost add_gives = { λ t u v. (v.rises ≡ t.rises + u.rises) × (v.falls ≡ t.falls + u.falls) };

    fn add(self, more: Toggles) -> Toggles {
        Toggles {
            rises: self.rises + more.rises,
            falls: self.falls + more.falls,
        }
    }
}

impl AddAssign for Toggles {
    ghost can_add_assign = { λ t u. (t.rises + u.rises < 2 ^ 64) × (t.falls + u.falls < 2 ^ 64) };

    ghost add_assign_gives = { λ t u v. (v.rises ≡ t.rises + u.rises) × (v.falls ≡ t.falls + u.falls) };

    fn add_assign(&mut self, more: Toggles) {
        *self = *self + more;
    }
}

// Eight bytes of the file become those of a number. Answers which of their bits rose and fell.
pub fn write(file: &mut [u8], at: usize, after: u64) -> Toggles
    requires { at + 8 ≤ length file.old }
    ensures new { file.new ≡ put_at 8 at after file.old }
    ensures value { result ≡ word_toggles (element_at 8 at file.old) after }
    ensures few { (result.rises ≤ 64) × (result.falls ≤ 64) }
{
    let before = elements::read::<64>(file, at);
    elements::put::<64>(file, at, after);
    Toggles::of_word(before, after)
}

// The new bytes go into the file at a place. Answers how many bits of the file rose and how many fell, summed. It goes by eight bytes, which is why
// their number is a multiple of 8; with at most 65536 of them the sums fit.
pub fn replace(file: &mut [u8], at: usize, new: &[u8]) -> Toggles
    requires in_bounds { at + length new.now ≤ length file.old }
    requires len { (length new.now % 8 ≡ 0) × (length new.now ≤ 65536) }
    ensures { Replaced at result new.now file.old file.new }
{
    let mut toggles = Toggles::default();
    // By the word's number: the file's word stands `at` bytes further than the new one, and each is read by its place.
    for word in 0..new.len() / 8 {
        let after = elements::read::<64>(new, 8 * word);
        toggles += write(file, at + 8 * word, after);
    }
    toggles
}

// The bytes of the file from a place on become zeros, and none of its bits rises. It goes by eight bytes, as `replace` does.
// Kept: beside `replace`, which would have to be lent as many zeros as `clear` promises to write, up to 65,536.
pub fn clear(file: &mut [u8], at: usize, bytes: usize) -> Toggles
    requires bytes_in_bounds { at + bytes ≤ length file.old }
    requires bytes_value { (bytes % 8 ≡ 0) × (bytes ≤ 65536) }
    ensures { Cleared at bytes result file.old file.new }
{
    let mut toggles = Toggles::default();
    for word in 0..bytes / 8 {
        let cleared = write(file, at + 8 * word, 0);
        toggles += cleared;
    }
    toggles
}
