#![tactic(auto)]

ghost use Rattle.std.specs.Prelude.{◌≡◌, ◌+◌, ◌/◌, ◌%◌, ◌^◌, ◌<◌, ◌≤◌, length, take, drop};
ghost use Rattle.elements.specs.Lanes.{IsLane, IsWidth};
ghost use Rattle.elements.specs.Elements.{element_at, put_at};

// So many bytes of s as an array.
fn bytes<const N: usize>(s: &[u8], at: usize) -> [u8; N]
    requires { at + N ≤ length s.now }
    ensures { result ≡ take N (drop at s.now) }
{
    *s[at..at + N].as_array().unwrap()
}

// The element of 8, 16, 32 or 64 bits at a place, low byte first. The bits are a constant, so that the compiler makes one load of it.
// Kept: a `match` on a constant, of which the compiler keeps one arm; a trait over u8 to u64 would have four impls of one line in place of the arms.
pub fn read<const BITS: usize>(s: &[u8], at: usize) -> u64
    requires width { IsWidth BITS }
    requires in_bounds { at + BITS / 8 ≤ length s.now }
    ensures { (result ≡ element_at (BITS / 8) at s.now) × (result < 2 ^ BITS) }
{
    match BITS {
        8 => u64::from(s[at]),
        16 => u64::from(u16::from_le_bytes(bytes(s, at))),
        32 => u64::from(u32::from_le_bytes(bytes(s, at))),
        _ => u64::from_le_bytes(bytes(s, at)),
    }
}

// The lane of 8, 16 or 32 bits at a place, for a caller that has its size as a number and not as a constant.
// Kept: a `match` that calls `read` at each size, since a const parameter takes no number that is known at run time only.
pub fn lane_at(s: &[u8], at: usize, lane: usize) -> u64
    requires lane { IsLane lane }
    requires lane_in_bounds { at + lane / 8 ≤ length s.now }
    ensures { (result ≡ element_at (lane / 8) at s.now) × (result < 2 ^ lane) }
{
    match lane {
        8 => read::<8>(s, at),
        16 => read::<16>(s, at),
        _ => read::<32>(s, at),
    }
}

// The element there becomes the low bits of the number: one store, likewise.
// By place: with `copy_from_slice` of `to_le_bytes()[..BITS / 8]` the goal `put_mid .. ≡ put_at (BITS / 8) at number s` stayed open.
// What is left of the number is divided in each turn, since the code has no shifts.
pub fn put<const BITS: usize>(s: &mut [u8], at: usize, number: u64)
    requires { (BITS ≤ 64) × (at + BITS / 8 ≤ length s.old) }
    ensures { s.new ≡ put_at (BITS / 8) at number s.old }
{
    let mut rest = number;
    for i in 0..BITS / 8 {
        s[at + i] = (rest % 256) as u8;
        rest /= 256;
    }
}
