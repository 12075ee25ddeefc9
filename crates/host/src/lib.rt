// The public calls over numbers and arrays, as include/callinglamp.h declares them. It only unpacks what they take, and packs what they
// answer. `host_c` gives these functions to C.
#![tactic(auto)]

ghost use Rattle.host.specs.Host.{HostDecode, HostEncode, HostPartner, HostExecute, HostPercent, HostRun, HostPrint, HostRead, HostVersion};

// The fields of a word, in `fields`. Refusals 1, 3.
pub fn callinglamp_decode(settings: &[u32; 7], word: u32, fields: &mut [u32; 12]) -> u64
    ensures { HostDecode settings.now word fields.old result fields.new }
{
    packing::decoded(
        callinglamp::decode(runlist::settings_of(settings), word),
        fields,
    )
}

// The word that has exactly these fields. Refusals 1, 5, 3.
pub fn callinglamp_encode(settings: &[u32; 7], fields: &[u32; 12]) -> u64
    ensures { HostEncode settings.now fields.now result }
{
    let given = runlist::settings_of(settings);
    match packing::fields_from(fields) {
        Some(asked) => packing::word_answer(callinglamp::encode(given, asked)),
        None => packing::no_fields(given),
    }
}

// The word with S flipped. Refusals 1, 3, 6.
pub fn callinglamp_partner(settings: &[u32; 7], word: u32) -> u64
    ensures { HostPartner settings.now word result }
{
    packing::word_answer(callinglamp::partner(runlist::settings_of(settings), word))
}

// Executes one word on Z and ZA; `counts` takes rises, falls and written. Refusals 1, 2, 3, 4.
pub fn callinglamp_execute(
    settings: &[u32; 7],
    word: u32,
    z: &mut [u8],
    za: &mut [u8],
    counts: &mut [u32; 3],
) -> u64
    ensures { HostExecute settings.now word z.old za.old counts.old result z.new za.new counts.new }
{
    packing::executed(
        callinglamp::execute(runlist::settings_of(settings), word, z, za),
        counts,
    )
}

// What share of the bits that were written toggled, in hundredths: its 64 bits are that number.
pub fn callinglamp_percent(toggled: u32, written: u32) -> u64
    ensures { HostPercent toggled written result }
{
    callinglamp::percent(toggled, written)
}

// Runs a list on Z and ZA, and reports four numbers for each word; `totals` takes the count of words and their tally. Refusals 1, 2, 7 to
// 10, with the place beside the number.
pub fn callinglamp_run(
    list: &[u8],
    z: &mut [u8],
    za: &mut [u8],
    report: &mut [u32],
    totals: &mut [u32; 4],
) -> u64
    ensures { HostRun list.now z.old za.old report.old totals.old result z.new za.new report.new totals.new }
{
    packing::ran(callinglamp::run(list, z, za, report), totals)
}

// The preferred text of a word, at the start of the room, with its length beside the number. Refusals 1, 3, 12.
pub fn callinglamp_print(settings: &[u32; 7], word: u32, room: &mut [u8]) -> u64
    ensures { HostPrint settings.now word room.old result room.new }
{
    packing::printed(callinglamp::print_word(runlist::settings_of(settings), word, room))
}

// The word of a text. Refusals 1, 11, 3.
pub fn callinglamp_read(settings: &[u32; 7], text: &[u8]) -> u64
    ensures { HostRead settings.now text.now result }
{
    packing::word_answer(callinglamp::read_word(runlist::settings_of(settings), text))
}

// The version of the library that was linked, for a caller who was compiled with the header of another.
pub fn callinglamp_version() -> u32
    ensures { HostVersion result }
{
    30000
}
