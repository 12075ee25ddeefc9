// Vectors stepped eight bytes at a time, with the bits that rise and fall counted: the V register of A and B, and a ZA vector of D and E.
#![tactic(auto)]

ghost use Rattle.std.specs.Prelude.{◌≡◌, ◌⊎◌, ◌+◌, ◌*◌, ◌/◌, ◌%◌, ◌^◌, ◌<◌, ◌≤◌, length};
ghost use Rattle.elements.specs.Elements.{element_at};
ghost use Rattle.elements.specs.Lanes.{IsLane};
ghost use Rattle.lanes.specs.Lane.{lane_step};
ghost use Rattle.bits.specs.Replace.{Replaced};
ghost use Rattle.chunks.specs.Chunk.{even_bytes, Reach, chunk, Apart, OfChunk, OfArray, OfV, InPair};

use bits::Toggles;
use lanes::Operation;

// Lanes at even steps: the byte at which the first lies, and how many bytes there are from one to the next.
#[derive(Clone, Copy)]
struct Source {
    at: usize,
    step: usize,
}

// The 16 new bytes of a V register, in two words.
#[derive(Clone, Copy)]
struct Pair {
    low: u64,
    high: u64,
}

// Eight bytes of one element or of two, after a step. All that the sources hold is read before anything is written, so that the compiler may do it side
// by side.
fn step_chunk<const LANE: usize, const WIDE: usize>(
    operation: Operation,
    old: u64,
    z: &[u8],
    first: Source,
    second: Source,
) -> u64
    requires of_chunk { OfChunk LANE WIDE }
    requires apart { Apart LANE (64 / WIDE) z.now first.at first.step × Apart LANE (64 / WIDE) z.now second.at second.step }
    ensures { result ≡ chunk LANE WIDE operation.unsigned operation.subtract old z.now first.at first.step second.at second.step }
{
    if WIDE == 64 {
        return lanes::element::<false, LANE, WIDE>(operation, old, z, first.at, second.at);
    }
    let x = first.at + first.step;
    let y = second.at + second.step;
    let low = lanes::element::<false, LANE, WIDE>(
        operation,
        old % 4294967296,
        z,
        first.at,
        second.at,
    );
    let high = lanes::element::<false, LANE, WIDE>(operation, old / 4294967296, z, x, y);
    low + high * 4294967296
}

// The eight elements of 16 bits from `at` on after a step, aside: nothing is read after it is written, and the compiler may do all eight at once.
// Kept: z, at, x, y and by are the arguments of `even_bytes` in each clause; a struct of them would be taken apart in each, and be no plainer.
fn eight(operation: Operation, z: &[u8], at: usize, x: usize, y: usize, by: usize, new: &mut [u8])
    requires len { length new.old ≡ 16 }
    requires at_in_bounds { (at + 16 ≤ length z.now) × ((x + 8 ≤ length z.now) × (y + 7 * by + 1 ≤ length z.now)) }
    ensures { new.new ≡ even_bytes 8 16 operation.unsigned operation.subtract z.now at z.now x 1 y by 16 }
{
    for e in 0..8 {
        let old = elements::read::<16>(z, at + 2 * e);
        let v = lanes::element::<false, 8, 16>(operation, old, z, x + e, y + e * by);
        elements::put::<16>(new, 2 * e, v);
    }
}

// Lanes of 8 bits: the 16 new bytes of those from `at` on, in two words.
fn new_eight(operation: Operation, z: &[u8], at: usize, x: usize, y: usize, by: usize) -> Pair
    requires { (at + 16 ≤ length z.now) × ((x + 8 ≤ length z.now) × (y + 7 * by + 1 ≤ length z.now)) }
    ensures { InPair (even_bytes 8 16 operation.unsigned operation.subtract z.now at z.now x 1 y by 16) result }
{
    let mut new = [0u8; 16];
    eight(operation, z, at, x, y, by, &mut new);
    Pair {
        low: elements::read::<64>(&new, 0),
        high: elements::read::<64>(&new, 8),
    }
}

// Lanes of 16 and 32 bits: the 16 new bytes of those from `at` on, in two words.
fn new_wider<const LANE: usize, const WIDE: usize>(
    operation: Operation,
    z: &[u8],
    at: usize,
    x: usize,
    y: usize,
    by: usize,
) -> Pair
    requires of_v { OfV LANE WIDE }
    requires at_in_bounds { at + 16 ≤ length z.now }
    requires reach { Reach LANE (8 * 16 / WIDE) z.now x 1 × Reach LANE (8 * 16 / WIDE) z.now y by }
    ensures { InPair (even_bytes LANE WIDE operation.unsigned operation.subtract z.now at z.now x 1 y by 16) result }
{
    let step = LANE / 8;
    let low = step_chunk::<LANE, WIDE>(
        operation,
        elements::read::<64>(z, at),
        z,
        Source { at: x, step },
        Source {
            at: y,
            step: by * step,
        },
    );
    let high = step_chunk::<LANE, WIDE>(
        operation,
        elements::read::<64>(z, at + 8),
        z,
        Source { at: x + 4, step },
        Source {
            at: y + 4 * by,
            step: by * step,
        },
    );
    Pair { low, high }
}

// The 16 new bytes of those from `at` on, in two words.
// Kept: a `match` on the lane, here and in `renew`: a word says its lane when it runs, and a closure for each would be chosen by the same `match`.
fn new_pair(
    lane: usize,
    operation: Operation,
    z: &[u8],
    at: usize,
    x: usize,
    y: usize,
    by: usize,
) -> Pair
    requires lane { IsLane lane }
    requires at_in_bounds { at + 16 ≤ length z.now }
    requires reach { Reach lane (8 * 16 / (2 * lane)) z.now x 1 × Reach lane (8 * 16 / (2 * lane)) z.now y by }
    ensures { InPair (even_bytes lane (2 * lane) operation.unsigned operation.subtract z.now at z.now x 1 y by 16) result }
{
    match lane {
        8 => new_eight(operation, z, at, x, y, by),
        16 => new_wider::<16, 32>(operation, z, at, x, y, by),
        _ => new_wider::<32, 64>(operation, z, at, x, y, by),
    }
}

// A, B: the 16 bytes of z from `at` on become new. Element e, of twice the lane's bits, takes the product of the lanes number e from byte x on and
// number e·by from byte y on. All is read before the first byte is written, since the destination may be a source. Answers how many bits rose and fell:
// for every lane the two words are counted in one place, so that the compiler counts rises and falls side by side.
pub fn renew_v(
    lane: usize,
    operation: Operation,
    z: &mut [u8],
    at: usize,
    x: usize,
    y: usize,
    by: usize,
) -> Toggles
    requires lane { IsLane lane }
    requires at_in_bounds { at + 16 ≤ length z.old }
    requires reach { Reach lane (8 * 16 / (2 * lane)) z.old x 1 × Reach lane (8 * 16 / (2 * lane)) z.old y by }
    ensures { Replaced at result (even_bytes lane (2 * lane) operation.unsigned operation.subtract z.old at z.old x 1 y by 16)
        z.old z.new }
{
    let new = new_pair(lane, operation, z, at, x, y, by);
    let low = bits::write(z, at, new.low);
    let high = bits::write(z, at + 8, new.high);
    low + high
}

// `renew` for one lane and one width. It goes by eight bytes, and reads and counts them where it writes them.
// Kept: beside `renew`: the loop for one lane is here, and the choice of it by what a word says is there.
fn renew_by<const LANE: usize, const WIDE: usize>(
    operation: Operation,
    za: &mut [u8],
    at: usize,
    z: &[u8],
    x: usize,
    y: usize,
    bytes: usize,
) -> Toggles
    requires of_array { OfArray LANE WIDE }
    requires bytes_in_bounds { (at + bytes ≤ length za.old) × ((bytes % 8 ≡ 0) × (bytes ≤ 65536)) }
    requires reach { Reach LANE (8 * bytes / WIDE) z.now x (WIDE / LANE) × Reach LANE (8 * bytes / WIDE) z.now y (WIDE / LANE) }
    ensures { Replaced at result (even_bytes LANE WIDE operation.unsigned operation.subtract za.old at z.now x (WIDE / LANE) y (WIDE / LANE) bytes)
        za.old za.new }
{
    let step = WIDE / 8;
    let mut toggles = Toggles::default();
    for word in 0..bytes / 8 {
        let o = 8 * word;
        let old = elements::read::<64>(za, at + o);
        let new = step_chunk::<LANE, WIDE>(
            operation,
            old,
            z,
            Source { at: x + o, step },
            Source { at: y + o, step },
        );
        toggles += bits::write(za, at + o, new);
    }
    toggles
}

// D, E: `bytes` bytes of za from `at` on become new. Element e, of `wide` bits, takes the product of the lanes at the same distance from bytes x and y
// of z as it has from `at`. Answers how many bits rose and fell. The lane and the width go on as constants, so that the compiler makes a loop for each.
// It has two callers once it is compiled, and a call for each vector took 25 instructions more: hence the attribute.
#[inline(always)]
pub fn renew(
    lane: usize,
    wide: usize,
    operation: Operation,
    za: &mut [u8],
    at: usize,
    z: &[u8],
    x: usize,
    y: usize,
    bytes: usize,
) -> Toggles
    requires of_array { OfArray lane wide }
    requires bytes_in_bounds { (at + bytes ≤ length za.old) × ((bytes % 8 ≡ 0) × (bytes ≤ 65536)) }
    requires reach { Reach lane (8 * bytes / wide) z.now x (wide / lane) × Reach lane (8 * bytes / wide) z.now y (wide / lane) }
    ensures { Replaced at result (even_bytes lane wide operation.unsigned operation.subtract za.old at z.now x (wide / lane) y (wide / lane) bytes)
        za.old za.new }
{
    if wide == 64 {
        return renew_by::<16, 64>(operation, za, at, z, x, y, bytes);
    }
    if lane == 8 {
        return renew_by::<8, 32>(operation, za, at, z, x, y, bytes);
    }
    renew_by::<16, 32>(operation, za, at, z, x, y, bytes)
}
