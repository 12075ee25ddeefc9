// The recipes say of every family which elements go into which, and they are definitions alone. The code here makes C's new register; those of the
// other families are made eight bytes at a time, by `chunks`.
#![tactic(auto)]

ghost use Rattle.std.specs.Prelude.{◌≡◌, true, false, ◌+◌, ◌*◌, ◌/◌, ◌^◌, ◌<◌, ◌≤◌, length, drop};
ghost use Rattle.words.specs.declared.Family.TheVariants.{Saturating};
ghost use Rattle.lanes.specs.Element.{new_element, new_bytes, ElementThere, RegistersThere};
ghost use Rattle.recipes.specs.Recipe.{by_segment, recipe_of, OfC, Doubled};

use lanes::Operation;
use words::Fields;

// Element e of the register at byte `at` after a step, of the sources at bytes n and m.
// Kept: z, at, n and m are the arguments of `new_element` and `new_bytes` in each clause; a struct would be taken apart in each, and be no plainer.
fn new_element<const LANE: usize, const WIDE: usize>(
    fields: Fields,
    z: &[u8],
    at: usize,
    n: usize,
    m: usize,
    e: usize,
) -> u64
    requires of_c { Doubled LANE WIDE }
    requires element_there { ElementThere (by_segment true false fields.subtract LANE fields.part fields.index) z.now at n m e }
    ensures { result ≡ new_element (by_segment true false fields.subtract LANE fields.part fields.index) (drop at z.now) (drop n z.now) (drop m z.now) e }
{
    let operation = Operation {
        unsigned: false,
        subtract: fields.subtract,
    };
    let start = e - e % (64 / LANE);
    let x = n + (2 * e + fields.part as usize) * (LANE / 8);
    let y = m + (2 * start + fields.index as usize) * (LANE / 8);
    let old = elements::read::<WIDE>(z, at + e * (WIDE / 8));
    lanes::element::<true, LANE, WIDE>(operation, old, z, x, y)
}

// The new register of C, of lanes of one size.
fn build_by<const LANE: usize, const WIDE: usize>(
    fields: Fields,
    z: &[u8],
    at: usize,
    n: usize,
    m: usize,
    out: &mut [u8],
)
    requires of_c { Doubled LANE WIDE }
    requires registers_there { RegistersThere (by_segment true false fields.subtract LANE fields.part fields.index) (length out.old) z.now at n m }
    ensures { out.new ≡ new_bytes (by_segment true false fields.subtract LANE fields.part fields.index) (length out.old) (drop at z.now) (drop n z.now) (drop m z.now) }
{
    for e in 0..out.len() / (WIDE / 8) {
        let new = new_element::<LANE, WIDE>(fields, z, at, n, m, e);
        elements::put::<WIDE>(out, e * (WIDE / 8), new);
    }
}

// The new register of C, of the old one at byte `at` and of the sources at bytes n and m. It is built aside: every source is read before the
// destination changes, which may be one of them. Each size of lane has its own loop.
// Kept: a `match` on the lane, since a word says its lane when it runs.
pub fn build(fields: Fields, z: &[u8], at: usize, n: usize, m: usize, out: &mut [u8])
    requires family_value { (fields.family ≡ Saturating) × OfC fields.lane }
    requires registers_there { RegistersThere (recipe_of Saturating fields 0) (length out.old) z.now at n m }
    ensures { out.new ≡ new_bytes (recipe_of fields.family fields 0) (length out.old) (drop at z.now) (drop n z.now) (drop m z.now) }
{
    match fields.lane {
        16 => build_by::<16, 32>(fields, z, at, n, m, out),
        _ => build_by::<32, 64>(fields, z, at, n, m, out),
    }
}
