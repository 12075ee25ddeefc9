// Reads the numbers of a run list. A list may end, or go wrong, at any byte: every call here answers for every list and
// every place, and says where the fault is.
#![tactic(auto)]

ghost use Rattle.std.specs.Prelude.{◌≡◌, length};
ghost use Rattle.numbers.specs.Numbers.{number_at, answer_of, place_after, numbers_at, row_of, filled};

use settings::Refusal;

// A number of a list, and the place after it.
#[derive(Clone, Copy, PartialEq, Eq)]
pub struct Number {
    pub value: u32,
    pub next: usize,
}

// What is wrong, and where: of a number, the place of its first byte.
#[derive(Clone, Copy, PartialEq, Eq)]
pub struct Fault {
    pub refusal: Refusal,
    pub place: usize,
}

// A number is in groups of seven bits, low group first, and a byte of 128 or more says that another group follows. The
// place of a fault is where the number begins, or would begin: the list's length, where the list ends just before it.
pub fn read_number(list: &[u8], at: usize) -> Result<Number, Fault>
    ensures { result ≡ number_at list.now at }
{
    let mut i = at;
    let mut groups: u32 = 0;
    // What 1 in the present group stands for.
    let mut scale: u32 = 1;
    let mut value: u32 = 0;
    // Kept: a rule of the project (docs/FORMS.md) names this form, a loop over groups that yields its answer by `break`.
    let answer = loop {
        if list.len() <= i {
            break Err(Fault {
                refusal: Refusal::ListEnds,
                place: at,
            });
        }
        let byte = list[i] as u32;
        // A fifth byte has only the bits 28 to 31 left, and no group may follow it: a greater one is wrong whatever
        // stands after it, even at the list's end.
        if groups == 4 && byte > 15 {
            break Err(Fault {
                refusal: Refusal::BadNumber,
                place: at,
            });
        }
        if byte < 128 {
            // The last of several groups is zero: the number has a shorter form.
            if byte == 0 && groups > 0 {
                break Err(Fault {
                    refusal: Refusal::BadNumber,
                    place: at,
                });
            }
            break Ok(Number {
                value: value + byte * scale,
                next: i + 1,
            });
        }
        value += (byte - 128) * scale;
        scale *= 128;
        groups += 1;
        i += 1;
    };
    answer
}

// A list, and the place of its next number. A rule of the project (docs/FORMS.md) names this form: a thin struct with the list slice and a position.
#[derive(Drop)]
struct Reader<'a> {
    list: &'a [u8],
    at: usize,
}

impl<'a> Reader<'a> {
    // The number at the reader's place, behind which it then stands. At a fault it stays where the faulty number begins.
    fn next(&mut self) -> Result<u32, Fault>
        ensures answer { result ≡ answer_of (number_at self.old.list.now self.old.at) }
        ensures place { self.new.at ≡ place_after (number_at self.old.list.now self.old.at) self.old.at }
        ensures list { self.new.list ≡ self.old.list }
    {
        let number = read_number(self.list, self.at)?;
        self.at = number.next;
        Ok(number.value)
    }
}

// Fills `out` with the numbers from a place on. At a fault it stops, and the rest of `out` stays.
pub fn read_numbers(list: &[u8], at: usize, out: &mut [u32]) -> Result<usize, Fault>
    ensures { (result ≡ row_of (numbers_at list.now at (length out.old)))
        × (out.new ≡ filled (numbers_at list.now at (length out.old)) out.old) }
{
    let mut reader = Reader { list, at };
    for slot in out.iter_mut() {
        *slot = reader.next()?;
    }
    Ok(reader.at)
}
