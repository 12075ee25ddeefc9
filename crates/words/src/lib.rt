#![tactic(auto)]

ghost use Rattle.std.specs.Prelude.{◌≡◌, ◌*◌, ◌^◌, ◌<◌};
ghost use Rattle.layouts.specs.Layout.{matches, value};
ghost use Rattle.words.specs.Numbers.{family_number, FamilyOf};
ghost use Rattle.words.specs.Rows.{row_a, row_b, IsWide, IsGroup, row_c, row_d, row_e};
ghost use Rattle.words.specs.Says.{by_vector, fields_b, fields_c, into_za, fields_d, fields_e, entry_a, entry_b, table_c, table_za, says_of, says_first, describe as describe_paper};
ghost use Rattle.words.specs.Decode.{enables_family, enables as enables_paper, decoded_says, decode_paper};
ghost use Rattle.words.specs.Kinds.{fields_by, fields_as, says_as, family_as, EnabledKind};
ghost use Rattle.settings.specs.Refused.{word_says};
ghost use Rattle.words.specs.Partner.{PartnerPromise};
ghost use Rattle.words.specs.Sign.{partner_in};

use layouts::*;
use settings::{Features, Refusal, Settings};

// The families of document 01, A to E, by what they do.
#[derive(Clone, Copy, PartialEq, Eq)]
pub enum Family {
    // A: by element.
    ByElement,
    // B: vector.
    Vector,
    // C: doubled products that saturate.
    Saturating,
    // D: into four ZA vectors a source vector, four times the lane.
    LongLong,
    // E: into two ZA vectors a source vector, twice the lane.
    Long,
}

// What a word says. A field that the family lacks is 0, and the group 1.
#[derive(Clone, Copy, PartialEq, Eq)]
pub struct Fields {
    pub family: Family,
    pub unsigned: bool,
    pub subtract: bool,
    // The bits of a source element.
    pub lane: u32,
    // Q or T.
    pub part: u32,
    pub index: u32,
    pub destination: u32,
    pub first: u32,
    pub second: u32,
    // Registers a source: 1, 2 or 4.
    pub group: u32,
    // The select register, W8 to W11.
    pub select: u32,
    pub offset: u32,
}

// Which fields a word has: A and C by their lane, D and E by their group. A kind is one byte, so that a word can be refused
// before any field is read.
#[derive(Clone, Copy, PartialEq, Eq)]
pub enum Kind {
    ByElement16,
    ByElement32,
    Vector,
    Saturating16,
    Saturating32,
    LongLong2,
    LongLong4,
    Long2,
    Long4,
}

// A number that no family has.
#[derive(Clone, Copy, PartialEq, Eq)]
pub struct UnknownFamily(pub u32);

impl From<Family> for u32 {
    ghost from_gives = { λ family number. number ≡ family_number family };

    fn from(family: Family) -> u32 {
        match family {
            Family::ByElement => 1,
            Family::Vector => 2,
            Family::Saturating => 3,
            Family::LongLong => 4,
            Family::Long => 5,
        }
    }
}

impl TryFrom<u32> for Family {
    type Error = UnknownFamily;

    ghost try_from_gives = { FamilyOf };

    fn try_from(number: u32) -> Result<Family, UnknownFamily> {
        match number {
            1 => Ok(Family::ByElement),
            2 => Ok(Family::Vector),
            3 => Ok(Family::Saturating),
            4 => Ok(Family::LongLong),
            5 => Ok(Family::Long),
            _ => Err(UnknownFamily(number)),
        }
    }
}

// Whether a word has the fixed bits of a row: of each row the last are tested first, as `matches` has them.
// 0 Q U 01111 ss L M mmmm 0 S 1 0 H 0 nnnnn ddddd
fn is_a(w: u32) -> bool
    ensures { result ≡ matches row_a w }
{
    (w / BIT_10 % 2 == 0)
        & (w / BIT_12 % 4 == 0b10)
        & (w / BIT_15 % 2 == 0)
        & (w / BIT_24 % 32 == 0b01111)
        & (w / BIT_31 % 2 == 0)
}

// 0 Q U 01110 ss 1 mmmmm 1 0 S 0 0 0 nnnnn ddddd
fn is_b(w: u32) -> bool
    ensures { result ≡ matches row_b w }
{
    (w / BIT_10 % 8 == 0b000)
        & (w / BIT_14 % 4 == 0b10)
        & (w / BIT_21 % 2 == 1)
        & (w / BIT_24 % 32 == 0b01110)
        & (w / BIT_31 % 2 == 0)
}

// 01000100 10 1 ii mmm 001 S i T nnnnn ddddd
// 01000100 11 1 i mmmm 001 S i T nnnnn ddddd
fn is_c<const LANE: u32>(w: u32) -> bool
    requires { IsWide LANE }
    ensures { result ≡ matches (row_c LANE) w }
{
    (w / BIT_13 % 8 == 0b001) & (w / BIT_21 % 2048 == 0b01000100001 + (LANE / 16 + 1) * 0b10)
}

// 110000011 z 1 mmmm 0 0 vv 000 nnnn 0 U S 0 0 o
// 110000011 z 1 mmm 0 1 0 vv 000 nnn 0 0 U S 0 0 o
fn is_d<const GROUP: u32>(w: u32) -> bool
    requires { IsGroup GROUP }
    ensures { result ≡ matches (row_d GROUP) w }
{
    (w / BIT_1 % 4 == 0b00)
        & (w / BIT_5 % GROUP == 0)
        & (w / BIT_10 % 8 == 0b000)
        & (w / BIT_15 % (2 * GROUP) == GROUP / 4 * 0b010)
        & (w / BIT_21 % 2 == 1)
        & (w / BIT_23 % 512 == 0b110000011)
}

// 110000011 1 1 mmmm 0 0 vv 010 nnnn 0 U S 0 oo
// 110000011 1 1 mmm 0 1 0 vv 010 nnn 0 0 U S 0 oo
fn is_e<const GROUP: u32>(w: u32) -> bool
    requires { IsGroup GROUP }
    ensures { result ≡ matches (row_e GROUP) w }
{
    (w / BIT_2 % 2 == 0)
        & (w / BIT_5 % GROUP == 0)
        & (w / BIT_10 % 8 == 0b010)
        & (w / BIT_15 % (2 * GROUP) == GROUP / 4 * 0b010)
        & (w / BIT_21 % 2048 == 0b11000001111)
}

// Kept: `IsWide` and `IsGroup` stand in each function of a row, here and in `encoding`: a const parameter carries no invariant.

// The fields of a word of A whose lane is LANE. M is the last bit of the index where the lane is 16, and the first of the second
// source's number where it is 32.
fn fields_a<const LANE: u32>(w: u32) -> Fields
    requires { IsWide LANE }
    ensures { result ≡ fields_by LANE (value row_a w) }
{
    Fields {
        family: Family::ByElement,
        unsigned: w / BIT_29 % 2 == 1,
        subtract: w / BIT_14 % 2 == 1,
        lane: LANE,
        part: w / BIT_30 % 2,
        index: (w / BIT_11 % 2 * 4 + w / BIT_21 % 2 * 2 + w / BIT_20 % 2) / (LANE / 16),
        destination: w / BIT_0 % 32,
        first: w / BIT_5 % 32,
        second: w / BIT_16 % LANE,
        group: 1,
        select: 0,
        offset: 0,
    }
}

// The fields of a word of B, with the lane that is given.
pub fn fields_b(w: u32, lane: u32) -> Fields
    ensures { result ≡ by_vector (value row_b w) lane }
{
    Fields {
        family: Family::Vector,
        unsigned: w / BIT_29 % 2 == 1,
        subtract: w / BIT_13 % 2 == 1,
        lane,
        part: w / BIT_30 % 2,
        index: 0,
        destination: w / BIT_0 % 32,
        first: w / BIT_5 % 32,
        second: w / BIT_16 % 32,
        group: 1,
        select: 0,
        offset: 0,
    }
}

// The fields of a word of B: its lane is 8<<ss.
fn vector_fields(w: u32) -> Fields
    ensures { result ≡ fields_b (value row_b w) }
{
    let lane = match w / BIT_22 % 4 {
        0b00 => 8,
        0b01 => 16,
        0b10 => 32,
        _ => 64,
    };
    fields_b(w, lane)
}

// The fields of a word of C whose lane is LANE. The second source's number has three bits where the lane is 16, and the index two
// above them; where it is 32, that has four, and the index one.
fn fields_c<const LANE: u32>(w: u32) -> Fields
    requires { IsWide LANE }
    ensures { result ≡ fields_c LANE (value (row_c LANE) w) }
{
    Fields {
        family: Family::Saturating,
        unsigned: false,
        subtract: w / BIT_12 % 2 == 1,
        lane: LANE,
        part: w / BIT_10 % 2,
        index: w / BIT_19 % 4 / (LANE / 16) * 2 + w / BIT_11 % 2,
        destination: w / BIT_0 % 32,
        first: w / BIT_5 % 32,
        second: w / BIT_16 % (LANE / 2),
        group: 1,
        select: 0,
        offset: 0,
    }
}

// The fields of a word of D or E with groups of GROUP registers: U, S, vv and both sources stand at the same bits in the rows of the two.
// The number of a group's first register is a multiple of GROUP; of the bits below it some are fixed, so that they do not count.
fn za_fields<const GROUP: u32>(family: Family, w: u32, lane: u32, offset: u32) -> Fields
    requires { IsGroup GROUP }
    ensures { result ≡ into_za family (value (row_d GROUP) w) lane (value (row_d GROUP) w "n" * GROUP) (value (row_d GROUP) w "m" * GROUP) GROUP offset }
{
    Fields {
        family,
        unsigned: w / BIT_4 % 2 == 1,
        subtract: w / BIT_3 % 2 == 1,
        lane,
        part: 0,
        index: 0,
        destination: 0,
        first: w / BIT_5 % 32 / GROUP * GROUP,
        second: w / BIT_16 % 32 / GROUP * GROUP,
        group: GROUP,
        select: 8 + w / BIT_13 % 4,
        offset,
    }
}

fn fields_d<const GROUP: u32>(w: u32) -> Fields
    requires { IsGroup GROUP }
    ensures { result ≡ fields_d GROUP (value (row_d GROUP) w) }
{
    za_fields::<GROUP>(
        Family::LongLong,
        w,
        8 + 8 * (w / BIT_22 % 2),
        4 * (w / BIT_0 % 2),
    )
}

fn fields_e<const GROUP: u32>(w: u32) -> Fields
    requires { IsGroup GROUP }
    ensures { result ≡ fields_e GROUP (value (row_e GROUP) w) }
{
    za_fields::<GROUP>(Family::Long, w, 16, 2 * (w / BIT_0 % 4))
}

// The kind of a word of row A. Sizes 00 and 11 are reserved.
#[tactic(auto, unfolding(crate::specs::Kinds::fields_as))]
fn kind_a(w: u32) -> Option<Kind>
    ensures { says_of entry_a w ≡ says_as result w }
{
    match w / BIT_22 % 4 {
        0b01 => Some(Kind::ByElement16),
        0b10 => Some(Kind::ByElement32),
        _ => None,
    }
}

// The kind of a word of row B. Size 11 is reserved.
#[tactic(auto, unfolding(crate::specs::Kinds::fields_as))]
fn kind_b(w: u32) -> Option<Kind>
    ensures { says_of entry_b w ≡ says_as result w }
{
    match w / BIT_22 % 4 {
        0b11 => None,
        _ => Some(Kind::Vector),
    }
}

// The kind of a word by the rows of C.
#[tactic(auto, unfolding(crate::specs::Kinds::fields_as))]
fn kind_c(w: u32) -> Option<Kind>
    ensures { says_first table_c w ≡ says_as result w }
{
    if is_c::<16>(w) {
        return Some(Kind::Saturating16);
    }
    if is_c::<32>(w) {
        return Some(Kind::Saturating32);
    }
    None
}

// The kind of a word by the rows of D and E.
#[tactic(auto, unfolding(crate::specs::Kinds::fields_as))]
fn kind_za(w: u32) -> Option<Kind>
    ensures { says_first table_za w ≡ says_as result w }
{
    if is_d::<2>(w) {
        return Some(Kind::LongLong2);
    }
    if is_d::<4>(w) {
        return Some(Kind::LongLong4);
    }
    if is_e::<2>(w) {
        return Some(Kind::Long2);
    }
    if is_e::<4>(w) {
        return Some(Kind::Long4);
    }
    None
}

// The kind of a word, whatever the features: none where no layout matches, or the size is reserved. The rows of C fix all of the
// top byte, and so do those of D and E: a word with another top byte needs none of their tests.
pub fn kind_of(w: u32) -> Option<Kind>
    ensures { describe_paper w ≡ says_as result w }
{
    if is_a(w) {
        return kind_a(w);
    }
    if is_b(w) {
        return kind_b(w);
    }
    match w / BIT_24 {
        0b01000100 => kind_c(w),
        0b11000001 => kind_za(w),
        _ => None,
    }
}

impl From<Kind> for Family {
    ghost from_gives = { λ kind family. family ≡ family_as kind };

    fn from(kind: Kind) -> Family {
        match kind {
            Kind::ByElement16 | Kind::ByElement32 => Family::ByElement,
            Kind::Vector => Family::Vector,
            Kind::Saturating16 | Kind::Saturating32 => Family::Saturating,
            Kind::LongLong2 | Kind::LongLong4 => Family::LongLong,
            Kind::Long2 | Kind::Long4 => Family::Long,
        }
    }
}

// The fields of a word of the kind. Fields that pass through memory cost more than finding them: encode took 249 instructions a word
// with this function called, and takes 198.
// Kept: a `match` on the kind, which a word says; a table of functions by kind would hold function pointers, each with its own clauses.
#[inline(always)]
#[tactic(auto, unfolding(crate::specs::Kinds::fields_as))]
pub fn fields_of(kind: Kind, w: u32) -> Fields
    ensures { result ≡ fields_as kind w }
{
    match kind {
        Kind::ByElement16 => fields_a::<16>(w),
        Kind::ByElement32 => fields_a::<32>(w),
        Kind::Vector => vector_fields(w),
        Kind::Saturating16 => fields_c::<16>(w),
        Kind::Saturating32 => fields_c::<32>(w),
        Kind::LongLong2 => fields_d::<2>(w),
        Kind::LongLong4 => fields_d::<4>(w),
        Kind::Long2 => fields_e::<2>(w),
        Kind::Long4 => fields_e::<4>(w),
    }
}

// Whether the features enable a word of the family, whose source elements have `lane` bits.
fn enables_family(features: Features, family: Family, lane: u32) -> bool
    ensures { result ≡ enables_family features.0 family lane }
{
    match family {
        Family::ByElement | Family::Vector => features.contains(Features::ADV_SIMD),
        Family::Saturating => features.contains(Features::SVE2) | features.contains(Features::SME),
        Family::LongLong => {
            features.contains(Features::SME2) & ((lane == 8) | features.contains(Features::I16I64))
        }
        Family::Long => features.contains(Features::SME2),
    }
}

// Whether the features enable a word of these fields.
#[tactic(auto, unfolding(crate::specs::Decode::enables))]
pub fn enables(features: Features, f: Fields) -> bool
    ensures { result ≡ enables_paper features.0 f }
{
    enables_family(features, f.family, f.lane)
}

// Whether the features enable a word of the kind. Only D's rule reads the lane, so that the number given for it is D's
// lane for every kind.
#[tactic(auto, using(crate::proofs::ByKind::enables_as))]
pub fn enables_kind(features: Features, kind: Kind, w: u32) -> bool
    ensures { result ≡ enables_paper features.0 (fields_as kind w) }
{
    enables_family(features, Family::from(kind), 8 + 8 * (w / BIT_22 % 2))
}

// The kind of a word that the features enable. Refusal 3.
#[inline(always)]
pub fn enabled_kind(features: Features, word: u32) -> Result<Kind, Refusal>
    ensures { EnabledKind features.0 word result }
{
    match kind_of(word) {
        Some(kind) if enables_kind(features, kind, word) => Ok(kind),
        _ => Err(Refusal::UnknownWord),
    }
}

// The fields of a word. Refusals 1, 3.
pub fn decode(settings: Settings, word: u32) -> Result<Fields, Refusal>
    ensures { decoded_says result ≡ decode_paper settings word }
{
    if !settings.valid() {
        return Err(Refusal::BadSettings);
    }
    let kind = enabled_kind(settings.features, word)?;
    Ok(fields_of(kind, word))
}

// The partner of a word of the family: S stands at one bit in all layouts of a family.
fn partner_in(family: Family, word: u32) -> Result<u32, Refusal>
    ensures { word_says result ≡ partner_in family word }
{
    match family {
        Family::ByElement => Ok(word ^ BIT_14),
        Family::Vector => Ok(word ^ BIT_13),
        Family::Saturating => Err(Refusal::NoPartner),
        Family::LongLong | Family::Long => Ok(word ^ BIT_3),
    }
}

// The word with S flipped. Refusals 1, 3, 6. It needs the family of the word, and none of its fields.
pub fn partner(settings: Settings, word: u32) -> Result<u32, Refusal>
    ensures { PartnerPromise settings word result }
{
    if !settings.valid() {
        return Err(Refusal::BadSettings);
    }
    let found = enabled_kind(settings.features, word)?;
    partner_in(Family::from(found), word)
}
