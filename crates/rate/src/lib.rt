#![tactic(auto)]

ghost use Rattle.std.specs.Prelude.{◌≡◌};
ghost use Rattle.rate.specs.Rate.{percent_of};

// What share of the bits that were written toggled. The answer has 64 bits: where toggled is the larger, 32 need not hold it.
pub fn percent(toggled: u32, written: u32) -> u64
    ensures { result ≡ percent_of toggled written }
{
    if written == 0 {
        0
    } else {
        100 * u64::from(toggled) / u64::from(written)
    }
}
