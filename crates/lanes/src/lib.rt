#![tactic(auto)]

ghost use Rattle.std.specs.Prelude.{◌≡◌, ◌+◌, ◌-◌, ◌/◌, ◌%◌, ◌^◌, ◌<◌, ◌≤◌, length};
ghost use Rattle.elements.specs.Elements.{element_at};
ghost use Rattle.elements.specs.Lanes.{IsLane};
ghost use Rattle.lanes.specs.Lane.{s_int, product as product_paper, accumulate, lane_step, signed_sat, sat_step, step};
ghost use Rattle.lanes.specs.Widths.{IsWidth, Widths};

// How a product goes into its element: of lanes that are unsigned or signed, added or subtracted.
#[derive(Clone, Copy)]
pub struct Operation {
    pub unsigned: bool,
    pub subtract: bool,
}

// x modulo 2 to so many bits. 2 to 64 is no u64.
fn low_bits<const BITS: usize>(x: u64) -> u64
    requires { BITS ≤ 64 }
    ensures { result ≡ x % 2 ^ BITS }
{
    if BITS == 64 {
        x
    } else {
        x % 2_u64.pow(BITS as u32)
    }
}

// The integer of an element, signed.
// Kept: a `match` on a constant, of which the compiler keeps one arm; a trait over u8 to u64 would have four impls of one line in place of the arms.
fn signed<const BITS: usize>(x: u64) -> i64
    requires width { IsWidth BITS }
    requires x_bound { x < 2 ^ BITS }
    ensures { result ≡ s_int BITS x }
{
    match BITS {
        8 => i64::from((x as u8).cast_signed()),
        16 => i64::from((x as u16).cast_signed()),
        32 => i64::from((x as u32).cast_signed()),
        _ => x.cast_signed(),
    }
}

// The product of two lanes, modulo 2 to 64.
// Kept: `x < 2 ^ LANE` and `acc < 2 ^ WIDE` in each contract: a const parameter carries no invariant; a type for such numbers would be unwrapped in each line.
fn product<const LANE: usize>(unsigned: bool, x: u64, y: u64) -> u64
    requires lane { IsLane LANE }
    requires x_bound { (x < 2 ^ LANE) × (y < 2 ^ LANE) }
    ensures { result ≡ product_paper LANE 64 unsigned x y }
{
    if unsigned {
        x * y
    } else {
        (signed::<LANE>(x) * signed::<LANE>(y)).cast_unsigned()
    }
}

// The accumulator with the low bits of a product added to it or subtracted from it, by the wrapping sum or difference of its width. No accumulator has 8
// bits, since it holds the product of two lanes.
// Kept: a `match` on a constant, as in `signed`: a trait would have an impl for each width, of one line for the sum and one for the difference.
fn accumulate<const WIDE: usize>(subtract: bool, acc: u64, product: u64) -> u64
    requires width { IsWidth WIDE × (16 ≤ WIDE) }
    requires acc_bound { acc < 2 ^ WIDE }
    ensures { (result ≡ accumulate WIDE subtract acc (product % 2 ^ WIDE)) × (result < 2 ^ WIDE) }
{
    match (WIDE, subtract) {
        (16, false) => u64::from((acc as u16).wrapping_add((product % 65536) as u16)),
        (16, true) => u64::from((acc as u16).wrapping_sub((product % 65536) as u16)),
        (32, false) => u64::from((acc as u32).wrapping_add((product % 4294967296) as u32)),
        (32, true) => u64::from((acc as u32).wrapping_sub((product % 4294967296) as u32)),
        (_, false) => acc.wrapping_add(product),
        (_, true) => acc.wrapping_sub(product),
    }
}

// One lane of A, B, D and E: the accumulator, of `WIDE` bits, after the product of x and y, of `LANE` bits, is added to it or subtracted from it,
// modulo 2 to its width.
pub fn lane_step_of<const LANE: usize, const WIDE: usize>(
    operation: Operation,
    acc: u64,
    x: u64,
    y: u64,
) -> u64
    requires widths { Widths LANE WIDE }
    requires x_bound { (x < 2 ^ LANE) × (y < 2 ^ LANE) }
    requires acc_bound { acc < 2 ^ WIDE }
    ensures { (result ≡ lane_step LANE WIDE operation.unsigned operation.subtract acc x y) × (result < 2 ^ WIDE) }
{
    let product = product::<LANE>(operation.unsigned, x, y);
    accumulate::<WIDE>(operation.subtract, acc, product)
}

// The same, for a caller that has the widths as numbers and not as constants.
// Kept: a `match` that calls `lane_step_of` at each pair of widths, since a const parameter takes no number that is known at run time only.
pub fn lane_step(lane: usize, wide: usize, operation: Operation, acc: u64, x: u64, y: u64) -> u64
    requires widths { Widths lane wide }
    requires x_bound { (x < 2 ^ lane) × (y < 2 ^ lane) }
    requires acc_bound { acc < 2 ^ wide }
    ensures { (result ≡ lane_step lane wide operation.unsigned operation.subtract acc x y) × (result < 2 ^ wide) }
{
    match (lane, wide) {
        (8, 16) => lane_step_of::<8, 16>(operation, acc, x, y),
        (8, 32) => lane_step_of::<8, 32>(operation, acc, x, y),
        (8, _) => lane_step_of::<8, 64>(operation, acc, x, y),
        (16, 32) => lane_step_of::<16, 32>(operation, acc, x, y),
        (16, _) => lane_step_of::<16, 64>(operation, acc, x, y),
        (_, _) => lane_step_of::<32, 64>(operation, acc, x, y),
    }
}

// An integer, clamped to those of so many bits.
// Kept: a `match` on a constant, as in `signed`, of which the compiler keeps one arm; a trait would have an impl of one line in place of each.
fn clamp<const BITS: usize>(z: i64) -> i64
    requires { IsWidth BITS }
    ensures { result ≡ signed_sat BITS z }
{
    match BITS {
        8 => z.clamp(i64::from(i8::MIN), i64::from(i8::MAX)),
        16 => z.clamp(i64::from(i16::MIN), i64::from(i16::MAX)),
        32 => z.clamp(i64::from(i32::MIN), i64::from(i32::MAX)),
        _ => z,
    }
}

// One lane of C, the only family that saturates: the doubled product is clamped, then the sum or difference.
pub fn sat_step_of<const LANE: usize, const WIDE: usize>(
    subtract: bool,
    acc: u64,
    x: u64,
    y: u64,
) -> u64
    requires widths { Widths LANE WIDE }
    requires x_bound { (x < 2 ^ LANE) × (y < 2 ^ LANE) }
    requires acc_bound { acc < 2 ^ WIDE }
    ensures { (result ≡ sat_step LANE WIDE subtract acc x y) × (result < 2 ^ WIDE) }
{
    let product = signed::<LANE>(x) * signed::<LANE>(y);
    let doubled = clamp::<WIDE>(product.saturating_add(product));
    let before = signed::<WIDE>(acc);
    let after = if subtract {
        before.saturating_sub(doubled)
    } else {
        before.saturating_add(doubled)
    };
    low_bits::<WIDE>(clamp::<WIDE>(after).cast_unsigned())
}

// The same, for a caller that has the widths as numbers and not as constants.
// Kept: a `match`, as in `lane_step`.
pub fn sat_step(lane: usize, wide: usize, subtract: bool, acc: u64, x: u64, y: u64) -> u64
    requires widths { Widths lane wide }
    requires x_bound { (x < 2 ^ lane) × (y < 2 ^ lane) }
    requires acc_bound { acc < 2 ^ wide }
    ensures { (result ≡ sat_step lane wide subtract acc x y) × (result < 2 ^ wide) }
{
    match (lane, wide) {
        (8, 16) => sat_step_of::<8, 16>(subtract, acc, x, y),
        (8, 32) => sat_step_of::<8, 32>(subtract, acc, x, y),
        (8, _) => sat_step_of::<8, 64>(subtract, acc, x, y),
        (16, 32) => sat_step_of::<16, 32>(subtract, acc, x, y),
        (16, _) => sat_step_of::<16, 64>(subtract, acc, x, y),
        (_, _) => sat_step_of::<32, 64>(subtract, acc, x, y),
    }
}

// An element of `WIDE` bits after a step, of the old one and of the lanes of `LANE` bits at bytes x and y. Of C, where it is saturating; then its lanes
// are signed. That, and the widths, are const parameters, so that the compiler keeps no choice of them.
// Kept: an `if` on a constant, of which the compiler keeps one arm; a trait would have two impls of one line in place of the two arms.
pub fn element<const SATURATING: bool, const LANE: usize, const WIDE: usize>(
    operation: Operation,
    old: u64,
    z: &[u8],
    x: usize,
    y: usize,
) -> u64
    requires widths { Widths LANE WIDE }
    requires bound { old < 2 ^ WIDE }
    requires lane_in_bounds { (x + LANE / 8 ≤ length z.now) × (y + LANE / 8 ≤ length z.now) }
    ensures { (result ≡ step SATURATING LANE WIDE operation.unsigned operation.subtract old (element_at (LANE / 8) x z.now) (element_at (LANE / 8) y z.now)) × (result < 2 ^ WIDE) }
{
    let a = elements::read::<LANE>(z, x);
    let b = elements::read::<LANE>(z, y);
    if SATURATING {
        sat_step_of::<LANE, WIDE>(operation.subtract, old, a, b)
    } else {
        lane_step_of::<LANE, WIDE>(operation, old, a, b)
    }
}
