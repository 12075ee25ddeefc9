// What C passes and gets, as numbers: an answer is one number of 64 bits, a word's fields are twelve numbers, and counts and totals stand in arrays.
// Kept: numbers and places in arrays, which include/callinglamp.h fixes.
#![tactic(auto)]

ghost use Rattle.std.specs.Prelude.{◌≡◌, cond};
ghost use Rattle.settings.specs.Valid.{valid_settings};
ghost use Rattle.settings.specs.Refused.{refusal_number, word_says};
ghost use Rattle.words.specs.Decode.{decoded_says};
ghost use Rattle.spelling.specs.Print.{printed_says};
ghost use Rattle.packing.specs.Packing.{halves, field_numbers, fields_from, decoded_into, ExecutedPut, FitsHalf, RanPut, TextFits};

use numbers::Fault;
use runlist::Ran;
use settings::{Refusal, Settings};
use tally::Counts;
use words::{Family, Fields};

// What 1 in the high half of an answer counts.
const HIGH_HALF: u64 = 4294967296;

// The refusal number in the low half, and in the high half what the call gives beside it.
fn of_halves(refusal: u32, value: u32) -> u64
    ensures { halves result ≡ (refusal, value) }
{
    u64::from(value) * HIGH_HALF + u64::from(refusal)
}

fn refused(refusal: Refusal, value: u32) -> u64
    ensures { halves result ≡ (refusal_number refusal, value) }
{
    of_halves(u32::from(refusal), value)
}

// Each field at its place.
fn put_fields(f: Fields, numbers: &mut [u32; 12])
    ensures { numbers.new ≡ field_numbers f }
{
    *numbers = [
        u32::from(f.family),
        u32::from(f.unsigned),
        u32::from(f.subtract),
        f.lane,
        f.part,
        f.index,
        f.destination,
        f.first,
        f.second,
        f.group,
        f.select,
        f.offset,
    ];
}

// The fields that twelve numbers stand for, if they stand for any: each at its place, as include/callinglamp.h names them.
pub fn fields_from(numbers: &[u32; 12]) -> Option<Fields>
    ensures { result ≡ fields_from numbers.now }
{
    let [
        family,
        unsigned,
        subtract,
        lane,
        part,
        index,
        destination,
        first,
        second,
        group,
        select,
        offset,
    ] = *numbers;
    if (unsigned > 1) | (subtract > 1) {
        return None;
    }
    Some(Fields {
        family: Family::try_from(family).ok()?,
        unsigned: unsigned == 1,
        subtract: subtract == 1,
        lane,
        part,
        index,
        destination,
        first,
        second,
        group,
        select,
        offset,
    })
}

// An answer, as numbers: a word's fields go into `fields`.
pub fn decoded(answer: Result<Fields, Refusal>, fields: &mut [u32; 12]) -> u64
    ensures { (halves result, fields.new) ≡ decoded_into (decoded_says answer) fields.old }
{
    match answer {
        Err(refusal) => refused(refusal, 0),
        Ok(found) => {
            put_fields(found, fields);
            0
        }
    }
}

// The answer of a call that gives a word: of encode, of partner, of read.
pub fn word_answer(answer: Result<u32, Refusal>) -> u64
    ensures { halves result ≡ word_says answer }
{
    match answer {
        Ok(word) => of_halves(0, word),
        Err(reason) => refused(reason, 0),
    }
}

// 5 after 1, where the numbers are no fields: no word has them. Twelve zeros are such numbers, since no family has the number 0.
pub fn no_fields(settings: Settings) -> u64
    ensures { halves result ≡ cond (valid_settings settings) (5, 0) (1, 0) }
{
    if settings.valid() {
        return refused(Refusal::NoSuchWord, 0);
    }
    refused(Refusal::BadSettings, 0)
}

pub fn executed(answer: Result<Counts, Refusal>, counts: &mut [u32; 3]) -> u64
    ensures { ExecutedPut answer counts.old result counts.new }
{
    match answer {
        Err(refusal) => refused(refusal, 0),
        Ok(done) => {
            *counts = [done.rises, done.falls, done.written];
            0
        }
    }
}

pub fn ran(answer: Result<Ran, Fault>, totals: &mut [u32; 4]) -> u64
    requires { FitsHalf answer }
    ensures { RanPut answer totals.old result totals.new }
{
    match answer {
        Err(fault) => refused(fault.refusal, fault.place as u32),
        Ok(ran) => {
            let tally = ran.tally;
            *totals = [ran.words as u32, tally.rises, tally.falls, tally.written];
            0
        }
    }
}

pub fn printed(answer: Result<usize, Refusal>) -> u64
    requires { TextFits answer }
    ensures { halves result ≡ printed_says answer }
{
    match answer {
        Err(refusal) => refused(refusal, 0),
        Ok(length) => of_halves(0, length as u32),
    }
}
