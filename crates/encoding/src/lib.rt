#![tactic(auto)]

ghost use Rattle.std.specs.Prelude.{◌≡◌, ◌<◌, ◌/◌};
ghost use Rattle.settings.specs.Refused.{word_says};
ghost use Rattle.layouts.specs.Layout.{build};
ghost use Rattle.words.specs.Rows.{row_a, row_b, IsWide, IsGroup, row_c, row_d, row_e};
ghost use Rattle.encoding.specs.Encode.{Has, Encodes, TheWord};
ghost use Rattle.encoding.specs.Candidate.{values_a, values_b, values_c, low_za, values_za, values_d, values_e, kind_with, built_as};

use layouts::*;
use settings::{Refusal, Settings};
use words::{Family, Fields, Kind};

// A word of family A whose lane is LANE: of an index with two bits the place of the third is the first bit of the second source.
fn word_a<const LANE: u32>(f: Fields) -> u32
    requires { IsWide LANE }
    ensures { result ≡ build row_a (values_a LANE f) }
{
    let index = f.index % 8 * (LANE / 16);
    f.part % 2 * BIT_30
        + u32::from(f.unsigned) * BIT_29
        + 0b01111 * BIT_24
        + LANE / 16 * BIT_22
        + index / 2 % 2 * BIT_21
        + index % 2 * BIT_20
        + f.second % LANE * BIT_16
        + u32::from(f.subtract) * BIT_14
        + 0b10 * BIT_12
        + index / 4 % 2 * BIT_11
        + f.first % 32 * BIT_5
        + f.destination % 32
}

fn word_b(f: Fields) -> u32
    ensures { result ≡ build row_b (values_b f) }
{
    f.part % 2 * BIT_30
        + u32::from(f.unsigned) * BIT_29
        + 0b01110 * BIT_24
        + f.lane / 16 % 4 * BIT_22
        + BIT_21
        + f.second % 32 * BIT_16
        + 0b10 * BIT_14
        + u32::from(f.subtract) * BIT_13
        + f.first % 32 * BIT_5
        + f.destination % 32
}

// A word of family C whose lane is LANE: the wider the lane, the longer the second source, and the shorter the index above it.
fn word_c<const LANE: u32>(f: Fields) -> u32
    requires { IsWide LANE }
    ensures { result ≡ build (row_c LANE) (values_c LANE f) }
{
    0b01000100001 * BIT_21
        + (LANE / 16 + 1) * BIT_22
        + f.index / 2 % (64 / LANE) * (BIT_15 * LANE)
        + f.second % (LANE / 2) * BIT_16
        + 0b001 * BIT_13
        + u32::from(f.subtract) * BIT_12
        + f.index % 2 * BIT_11
        + f.part % 2 * BIT_10
        + f.first % 32 * BIT_5
        + f.destination % 32
}

// The low 21 bits that families D and E share, with groups of GROUP registers. Bit 16 says that there are four.
fn low_za<const GROUP: u32>(f: Fields) -> u32
    requires { IsGroup GROUP }
    ensures { (result ≡ build (low_za GROUP) (values_za GROUP f 0)) × (result < 2097152) }
{
    f.second % 32 / GROUP * GROUP * BIT_16
        + GROUP / 4 * BIT_16
        + f.select % 4 * BIT_13
        + f.first % 32 / GROUP * GROUP * BIT_5
        + u32::from(f.unsigned) * BIT_4
        + u32::from(f.subtract) * BIT_3
}

fn word_d<const GROUP: u32>(f: Fields) -> u32
    requires { IsGroup GROUP }
    ensures { result ≡ build (row_d GROUP) (values_d GROUP f) }
{
    0b110000011 * BIT_23 + f.lane / 16 % 2 * BIT_22 + BIT_21 + low_za::<GROUP>(f) + f.offset / 4 % 2
}

fn word_e<const GROUP: u32>(f: Fields) -> u32
    requires { IsGroup GROUP }
    ensures { result ≡ build (row_e GROUP) (values_e GROUP f) }
{
    0b11000001111 * BIT_21 + low_za::<GROUP>(f) + 0b010 * BIT_10 + f.offset / 2 % 4
}

// The kind of the only word that can have the fields: none has a lane of B that B lacks.
fn kind_with(f: Fields) -> Option<Kind>
    ensures { result ≡ kind_with f }
{
    match f.family {
        Family::ByElement if f.lane == 16 => Some(Kind::ByElement16),
        Family::ByElement => Some(Kind::ByElement32),
        Family::Vector if (f.lane == 8) | (f.lane == 16) | (f.lane == 32) => Some(Kind::Vector),
        Family::Vector => None,
        Family::Saturating if f.lane == 16 => Some(Kind::Saturating16),
        Family::Saturating => Some(Kind::Saturating32),
        Family::LongLong if f.group == 2 => Some(Kind::LongLong2),
        Family::LongLong => Some(Kind::LongLong4),
        Family::Long if f.group == 2 => Some(Kind::Long2),
        Family::Long => Some(Kind::Long4),
    }
}

// The only word of the kind that can have the fields.
// Kept: a `match` on the kind, as in `words::fields_of`.
fn candidate(kind: Kind, f: Fields) -> u32
    ensures { result ≡ built_as kind f }
{
    match kind {
        Kind::ByElement16 => word_a::<16>(f),
        Kind::ByElement32 => word_a::<32>(f),
        Kind::Vector => word_b(f),
        Kind::Saturating16 => word_c::<16>(f),
        Kind::Saturating32 => word_c::<32>(f),
        Kind::LongLong2 => word_d::<2>(f),
        Kind::LongLong4 => word_d::<4>(f),
        Kind::Long2 => word_e::<2>(f),
        Kind::Long4 => word_e::<4>(f),
    }
}

// The word that has exactly these fields, whatever the settings.
pub fn word_with(f: Fields) -> Option<u32>
    ensures { TheWord (Has f) result }
{
    let kind = kind_with(f)?;
    let word = candidate(kind, f);
    (words::fields_of(kind, word) == f).then_some(word)
}

// The word that has exactly these fields. Refusals 1, 5, 3.
pub fn encode(settings: Settings, fields: Fields) -> Result<u32, Refusal>
    ensures { Encodes settings fields (word_says result) }
{
    if !settings.valid() {
        return Err(Refusal::BadSettings);
    }
    let word = word_with(fields).ok_or(Refusal::NoSuchWord)?;
    if !words::enables(settings.features, fields) {
        return Err(Refusal::UnknownWord);
    }
    Ok(word)
}
