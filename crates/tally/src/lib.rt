#![tactic(auto)]

ghost use Rattle.std.specs.Prelude.{◌≡◌, ◌+◌, ◌<◌, ◌^◌};
ghost use Rattle.tally.specs.Tally.{plus, Fits};

use std::ops::AddAssign;

// The bits that rose, those that fell, and those that were written: of a word, or, as a tally, of all words so far.
#[derive(Clone, Copy, PartialEq, Eq, Default)]
pub struct Counts {
    pub rises: u32,
    pub falls: u32,
    pub written: u32,
}

// A rule of the project (docs/FORMS.md) names this form: a small tally struct that is lent by `&mut` to one thin function, which brings it up to date by
// one word.
impl AddAssign for Counts {
    ghost can_add_assign = { Fits };

    ghost add_assign_gives = { λ tally more after. after ≡ plus tally more.rises more.falls more.written };

    fn add_assign(&mut self, more: Counts) {
        self.rises += more.rises;
        self.falls += more.falls;
        self.written += more.written;
    }
}
