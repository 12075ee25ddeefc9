// The list program: reads a list from standard input to its end, runs it, and prints a line for each word.
#![tactic(auto)]

ghost use Rattle.std.specs.Prelude.{◌≡◌, ◌≤◌, ◌<◌, [], length};
ghost use Rattle.std.specs.Io.KnownBytes.{Consumes};
ghost use Rattle.runlist.specs.Plan.{most_words};
ghost use Rattle.demands.specs.Lists.{longest};
ghost use Rattle.lamp.specs.Lamp.{lines_of, register_bytes, printed, WordsAgain};

use arrayvec::ArrayString;
use runlist::Lengths;
use std::io;

// How much of the input is kept.
const INPUT: usize = 8192;

// Z and ZA are at their longest at VL 512.
const MOST_Z: usize = 2048;

const MOST_ZA: usize = 4096;

const REPORT: usize = 4 * runlist::MOST_WORDS;

// Room for the lines of as many words as a list may have.
const TEXT: usize = 96 + 96 * runlist::MOST_WORDS;

// The bytes of a Z register, by the list's first number. The lengths to lend must be known before the run.
fn register_bytes(list: &[u8]) -> usize
    ensures { (result ≡ register_bytes list.now) × (result ≤ 64) }
{
    let Ok(first) = numbers::read_number(list, 0) else {
        return 0;
    };
    if settings::valid_length(first.value) {
        return (first.value / 8) as usize;
    }
    0
}

// The words of an accepted list, read again, since the report does not hold them.
fn words_again(list: &[u8], lengths: Lengths, words: &mut [u32])
    requires { length words.old ≡ most_words }
    ensures { WordsAgain list.now lengths words.new }
{
    if let Ok(front) = runlist::read_front(list, lengths, &mut [0; runlist::HEAD]) {
        let _ = runlist::read_to_end(list, front.from, &mut words[..front.words]);
    }
}

// Runs the list with what is lent, and puts the text of the answer into `out`.
fn put_answer(
    list: &[u8],
    z: &mut [u8],
    za: &mut [u8],
    report: &mut [u32],
    words: &mut [u32],
    out: &mut ArrayString<TEXT>,
)
    requires { (length words.old ≡ most_words) × (out.old.bytes ≡ []) }
    ensures { out.new.bytes ≡ lines_of list.now z.old za.old report.old }
{
    match callinglamp::run(list, z, za, report) {
        Err(fault) => {
            out.push_str(&lines::refused_line(u32::from(fault.refusal), fault.place));
        }
        Ok(ran) => {
            let lengths = Lengths {
                z: z.len(),
                za: za.len(),
                report: report.len(),
            };
            words_again(list, lengths, words);
            let toggled = ran.tally.rises + ran.tally.falls;
            lines::push_ran(out, &words[..ran.words], report, toggled, ran.tally.written);
        }
    }
}

// What is to be printed of a list, into `out`. A text that this handed out stood on the stack four times: 432 KiB in place of 144.
fn put_printed(list: &[u8], out: &mut ArrayString<TEXT>)
    requires { out.old.bytes ≡ [] }
    ensures { out.new.bytes ≡ printed list.now }
{
    let bytes = register_bytes(list);
    let mut z = [0u8; MOST_Z];
    let mut za = [0u8; MOST_ZA];
    let mut report = [0u32; REPORT];
    let mut words = [0u32; runlist::MOST_WORDS];
    put_answer(
        list,
        &mut z[..32 * bytes],
        &mut za[..bytes * bytes],
        &mut report,
        &mut words,
        out,
    )
}

// Room for more than the longest list that is accepted: of a longer one these bytes decide how it is refused (`enough_read`).
// Kept: no contract can name a constant alone, so that `longest` is below INPUT is said of what this hands out (`enough_read`).
fn input_room() -> [u8; INPUT]
    ensures { (8192 ≡ length result) × (longest < length result) }
{
    [0; INPUT]
}

// Reads until the room is full, the input ends or a read fails, and hands out what it read: just the bytes that the input lost, where it says which.
// Kept: a `while`, since only `read` says how far a turn comes.
fn read_full<'a, R: io::Read>(from: &mut R, room: &'a mut [u8]) -> &'a [u8]
    ensures fits { length result.now ≤ length room.old }
    ensures bytes { Consumes (R.remaining from.old) (R.remaining from.new) result.now }
{
    let mut done = 0;
    while done < room.len() {
        match from.read(&mut room[done..]) {
            Ok(0) | Err(_) => break,
            Ok(got) => done += got,
        }
    }
    &room[..done]
}

fn drain_some(from: &mut impl io::Read) -> bool {
    let mut buffer = [0u8; 4096];
    from.read(&mut buffer).unwrap_or(0) > 0
}

// Reads the rest of the input, so that whoever writes it is not cut off. A proved loop has to end, and nothing says that
// the input does: the turns are more than any run takes.
fn drain_input(from: &mut impl io::Read) {
    for _ in 0..u64::MAX {
        if !drain_some(from) {
            break;
        }
    }
}

fn main(rt: HostRuntime) -> io::Result<()> {
    let mut stdin = rt.stdin();
    let mut room = input_room();
    let list = read_full(&mut stdin, &mut room);
    if list.len() == INPUT {
        drain_input(&mut stdin);
    }
    let mut out = ArrayString::new();
    put_printed(list, &mut out);
    rt.write_all(out.as_bytes())
}
