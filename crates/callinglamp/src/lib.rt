// The public calls. Each answers for every input, and its promise, in specs/Promises.antt, fixes the answer and all that was lent to it.
#![tactic(auto)]

ghost use Rattle.callinglamp.specs.Promises.{DecodePromise, EncodePromise, PartnerPromise, ExecutePromise, PercentPromise, RunPromise, PrintPromise, ReadPromise};

pub use numbers::Fault;
pub use runlist::Ran;
pub use settings::{Features, Modes, Refusal, Settings};
pub use spelling::longest_text;
pub use tally::Counts;
pub use words::{Family, Fields};

// The fields of a word. Refusals 1, 3.
pub fn decode(settings: Settings, word: u32) -> Result<Fields, Refusal>
    ensures { DecodePromise settings word result }
{
    words::decode(settings, word)
}

// The word that has exactly these fields. Refusals 1, 5, 3.
pub fn encode(settings: Settings, fields: Fields) -> Result<u32, Refusal>
    ensures { EncodePromise settings fields result }
{
    encoding::encode(settings, fields)
}

// The word with S flipped. Refusals 1, 3, 6.
pub fn partner(settings: Settings, word: u32) -> Result<u32, Refusal>
    ensures { PartnerPromise settings word result }
{
    words::partner(settings, word)
}

// Executes one word on Z and ZA. Refusals 1, 2, 3, 4, which leave both as they are.
pub fn execute(
    settings: Settings,
    word: u32,
    z: &mut [u8],
    za: &mut [u8],
) -> Result<Counts, Refusal>
    ensures { ExecutePromise settings word z.old za.old result z.new za.new }
{
    machine::execute(settings, word, z, za)
}

// What share of the bits that were written toggled, in hundredths.
pub fn percent(toggled: u32, written: u32) -> u64
    ensures { PercentPromise toggled written result }
{
    rate::percent(toggled, written)
}

// Runs a list on Z and ZA, and reports four numbers for each word. Refusals 1, 2, 7 to 10, which leave all three as they are.
pub fn run(list: &[u8], z: &mut [u8], za: &mut [u8], report: &mut [u32]) -> Result<Ran, Fault>
    ensures { RunPromise list.now z.old za.old report.old result z.new za.new report.new }
{
    runlist::run(list, z, za, report)
}

// The preferred text of a word, at the start of the room, whose rest stays. Refusals 1, 3, 12, which leave the room as it is.
pub fn print_word(settings: Settings, word: u32, room: &mut [u8]) -> Result<usize, Refusal>
    ensures { PrintPromise settings word room.old result room.new }
{
    spelling::print(settings, word, room)
}

// The word of a text, with vgx or without. Refusals 1, 11, 3.
pub fn read_word(settings: Settings, text: &[u8]) -> Result<u32, Refusal>
    ensures { ReadPromise settings text.now result }
{
    spelling::read(settings, text)
}
