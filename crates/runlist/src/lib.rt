#![tactic(auto)]

ghost use Rattle.std.specs.Prelude.{◌≡◌, ◌%◌, ◌+◌, ◌*◌, ◌≤◌, ◌++◌, length, take, drop};
ghost use Rattle.machine.specs.Execute.{execute_paper};
ghost use Rattle.machine.specs.Run.{run_of};
ghost use Rattle.machine.specs.Loop.{Ready};
ghost use Rattle.machine.specs.Same.{SameMachine};
ghost use Rattle.numbers.specs.Numbers.{numbers_at, filled};
ghost use Rattle.runlist.specs.Plan.{most_words, ended_at, settings_of};
ghost use Rattle.runlist.specs.Rooms.{words_say, goes_on, CountRead, RestRead, FrontRead};
ghost use Rattle.runlist.specs.RunList.{carried_out, run_says, RunPromise, Performed};

use machine::Machine;
use numbers::{Fault, Number};
use settings::{Features, Modes, Refusal, Settings};
use tally::Counts;

// The most words that a list may have.
pub const MOST_WORDS: usize = 1024;

// As many words are read into a short room: to zero the long one costs as much as to run a word or two.
const FEW_WORDS: usize = 64;

// VL, features, modes, W8 to W11.
pub const HEAD: usize = 7;

// A list that ran: how many words it has, and their tally.
#[derive(Clone, Copy)]
pub struct Ran {
    pub words: usize,
    pub tally: Counts,
}

// How much is lent for a run: the bytes of Z and ZA, and the numbers of the report.
#[derive(Clone, Copy)]
pub struct Lengths {
    pub z: usize,
    pub za: usize,
    pub report: usize,
}

// What stands before the words of a list: the place of the Z bytes, that of the words, how many there are, and the settings. These are last:
// in a `Result<Front, Fault>` a fault has the place of what is first, and where that was the settings the compiler took them apart and put them together.
#[derive(Clone, Copy)]
pub struct Front {
    pub at: usize,
    pub from: usize,
    pub words: usize,
    pub settings: Settings,
}

// The settings of the seven numbers in front.
#[tactic(auto, unfolding(crate::specs::Plan::settings_of))]
pub fn settings_of(head: &[u32]) -> Settings
    requires { length head.now ≡ 7 }
    ensures { result ≡ settings_of head.now }
{
    Settings {
        vl: head[0],
        features: Features(head[1]),
        modes: Modes(head[2]),
        select: [head[3], head[4], head[5], head[6]],
    }
}

// The words from `at` on, as many as `words` has room for, after which the list ends.
pub fn read_to_end(list: &[u8], at: usize, words: &mut [u32]) -> Result<(), Fault>
    ensures words_after { words_say result words.new ≡ ended_at list.now (numbers_at list.now at (length words.old)) }
    ensures words_after_2 { words.new ≡ filled (numbers_at list.now at (length words.old)) words.old }
{
    let next = numbers::read_numbers(list, at, words)?;
    if next != list.len() {
        return Err(Fault {
            refusal: Refusal::ExtraBytes,
            place: next,
        });
    }
    Ok(())
}

// The count of the words, at `at`. `report` is how many numbers the report has.
fn read_count(list: &[u8], report: usize, at: usize) -> Result<Number, Fault>
    ensures { CountRead list.now report at result }
{
    let count = numbers::read_number(list, at)?;
    let n = count.value as usize;
    if n > MOST_WORDS {
        return Err(Fault {
            refusal: Refusal::TooManyWords,
            place: at,
        });
    }
    if report < 4 * n {
        return Err(Fault {
            refusal: Refusal::BadLength,
            place: 0,
        });
    }
    Ok(count)
}

// What follows the seven numbers: the settings and the lengths are tested, then come the Z bytes, from `at` on, and the count.
fn read_rest(list: &[u8], lengths: Lengths, settings: Settings, at: usize) -> Result<Front, Fault>
    requires { at ≤ length list.now }
    ensures { RestRead list.now lengths settings at result }
{
    if !settings.valid() {
        return Err(Fault {
            refusal: Refusal::BadSettings,
            place: 0,
        });
    }
    if !machine::right_lengths(settings, lengths.z, lengths.za) {
        return Err(Fault {
            refusal: Refusal::BadLength,
            place: 0,
        });
    }
    if list.len() - at < lengths.z {
        return Err(Fault {
            refusal: Refusal::ListEnds,
            place: at,
        });
    }
    let count = read_count(list, lengths.report, at + lengths.z)?;
    Ok(Front {
        settings,
        at,
        from: count.next,
        words: count.value as usize,
    })
}

// Reads a list up to its words. It writes nothing but `head`, the room for the seven numbers in front: of a refused list too it tells which
// of them stand before the fault.
pub fn read_front(list: &[u8], lengths: Lengths, head: &mut [u32]) -> Result<Front, Fault>
    requires { length head.old ≡ 7 }
    ensures front_read { FrontRead list.now lengths result }
    ensures head_after { head.new ≡ filled (numbers_at list.now 0 7) head.old }
{
    let at = numbers::read_numbers(list, 0, head)?;
    read_rest(list, lengths, settings_of(head), at)
}

// The numbers of word i.
fn put_report(report: &mut [u32], i: usize, numbers: &[u32; 4])
    requires { 4 * i + 4 ≤ length report.old }
    ensures { report.new ≡ take (4 * i) report.old ++ (numbers.now ++ drop (4 * i + 4) report.old) }
{
    report[4 * i..4 * i + 4].copy_from_slice(numbers);
}

// Executes each word in its turn, and reports it. A word that is refused changes no register, and the run goes on.
fn perform(machine: &mut Machine<'_>, words: &[u32], report: &mut [u32]) -> Counts
    requires { (length words.now ≤ most_words) × (4 * length words.now ≤ length report.old) }
    ensures performed { Performed (run_of (execute_paper machine.old.settings) words.now machine.old.z.now machine.old.za.now) (length words.now) report.old
        result machine.new.z.now machine.new.za.now report.new }
    ensures same { SameMachine machine.old machine.new }
{
    let mut tally = Counts::default();
    for (i, word) in words.iter().enumerate() {
        let answer = machine.execute(*word);
        put_report(report, i, &machine::report_of(answer));
        tally += answer.unwrap_or_default();
    }
    tally
}

// So many bytes at once go through registers: as an array, all are read before one is written. So the compiler asks neither whether the two overlap nor
// for memmove, which the archive for C would need from outside; of 512 bytes it would.
fn copy_part(from: &[u8], to: &mut [u8])
    requires { (length from.now ≡ 128) × (length to.old ≡ 128) }
    ensures { to.new ≡ from.now }
{
    if let Some(part) = to.as_mut_array::<128>() {
        *part = *from.as_array().unwrap();
    }
}

// `to` takes the bytes of `from`.
fn copy(from: &[u8], to: &mut [u8])
    requires same { length from.now ≡ length to.old }
    requires whole { length to.old % 128 ≡ 0 }
    ensures { to.new ≡ from.now }
{
    for part in 0..to.len() / 128 {
        let at = 128 * part;
        copy_part(&from[at..at + 128], &mut to[at..at + 128]);
    }
}

// Reads the words into a room for so many, and runs them from the list's Z bytes on.
fn run_words<const ROOM: usize>(
    list: &[u8],
    front: Front,
    z: &mut [u8],
    za: &mut [u8],
    report: &mut [u32],
) -> Result<Ran, Fault>
    requires ready { Ready front.settings z.old za.old × (front.at + length z.old ≤ length list.now) }
    requires few { (front.words ≤ ROOM) × (ROOM ≤ most_words) × (4 * front.words ≤ length report.old) }
    ensures { run_says result z.new za.new report.new
        ≡ carried_out (goes_on front.settings list.now front.at (length z.old) front.from front.words) z.old za.old report.old }
{
    let mut room = [0u32; ROOM];
    let words = &mut room[..front.words];
    read_to_end(list, front.from, words)?;
    let end = front.at + z.len();
    za.fill(0);
    copy(&list[front.at..end], z);
    let mut machine = Machine {
        settings: front.settings,
        z,
        za,
    };
    let tally = perform(&mut machine, words, report);
    Ok(Ran {
        words: front.words,
        tally,
    })
}

// Runs a list on Z and ZA that the caller lends, and reports four numbers for each word. A refused list changes nothing.
pub fn run(list: &[u8], z: &mut [u8], za: &mut [u8], report: &mut [u32]) -> Result<Ran, Fault>
    ensures { RunPromise list.now z.old za.old report.old result z.new za.new report.new }
{
    let lengths = Lengths {
        z: z.len(),
        za: za.len(),
        report: report.len(),
    };
    let front = read_front(list, lengths, &mut [0; HEAD])?;
    if front.words <= FEW_WORDS {
        return run_words::<FEW_WORDS>(list, front, z, za, report);
    }
    run_words::<MOST_WORDS>(list, front, z, za, report)
}
