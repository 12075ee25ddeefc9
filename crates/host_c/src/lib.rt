// The library for C, as include/callinglamp.h declares it: each function of `host` under its own name, with what it promises said again.
#![tactic(auto)]

ghost use Rattle.host.specs.Host.{HostDecode, HostEncode, HostPartner, HostExecute, HostPercent, HostRun, HostPrint, HostRead, HostVersion};

// The fields of a word, in `fields`. Refusals 1, 3.
#[unsafe(no_mangle)]
pub extern "C" fn callinglamp_decode(settings: &[u32; 7], word: u32, fields: &mut [u32; 12]) -> u64
    ensures { HostDecode settings.now word fields.old result fields.new }
{
    host::callinglamp_decode(settings, word, fields)
}

// The word that has exactly these fields. Refusals 1, 5, 3.
#[unsafe(no_mangle)]
pub extern "C" fn callinglamp_encode(settings: &[u32; 7], fields: &[u32; 12]) -> u64
    ensures { HostEncode settings.now fields.now result }
{
    host::callinglamp_encode(settings, fields)
}

// The word with S flipped. Refusals 1, 3, 6.
#[unsafe(no_mangle)]
pub extern "C" fn callinglamp_partner(settings: &[u32; 7], word: u32) -> u64
    ensures { HostPartner settings.now word result }
{
    host::callinglamp_partner(settings, word)
}

// Executes one word on Z and ZA; `counts` takes rises, falls and written. Refusals 1, 2, 3, 4.
#[unsafe(no_mangle)]
pub extern "C" fn callinglamp_execute(
    settings: &[u32; 7],
    word: u32,
    z: &mut [u8],
    za: &mut [u8],
    counts: &mut [u32; 3],
) -> u64
    ensures { HostExecute settings.now word z.old za.old counts.old result z.new za.new counts.new }
{
    host::callinglamp_execute(settings, word, z, za, counts)
}

// What share of the bits that were written toggled, in hundredths: its 64 bits are that number.
#[unsafe(no_mangle)]
pub extern "C" fn callinglamp_percent(toggled: u32, written: u32) -> u64
    ensures { HostPercent toggled written result }
{
    host::callinglamp_percent(toggled, written)
}

// Runs a list on Z and ZA, and reports four numbers for each word; `totals` takes the count of words and their tally. Refusals 1, 2, 7 to
// 10, with the place beside the number.
#[unsafe(no_mangle)]
pub extern "C" fn callinglamp_run(
    list: &[u8],
    z: &mut [u8],
    za: &mut [u8],
    report: &mut [u32],
    totals: &mut [u32; 4],
) -> u64
    ensures { HostRun list.now z.old za.old report.old totals.old result z.new za.new report.new totals.new }
{
    host::callinglamp_run(list, z, za, report, totals)
}

// The preferred text of a word, at the start of the room, with its length beside the number. Refusals 1, 3, 12.
#[unsafe(no_mangle)]
pub extern "C" fn callinglamp_print(settings: &[u32; 7], word: u32, room: &mut [u8]) -> u64
    ensures { HostPrint settings.now word room.old result room.new }
{
    host::callinglamp_print(settings, word, room)
}

// The word of a text. Refusals 1, 11, 3.
#[unsafe(no_mangle)]
pub extern "C" fn callinglamp_read(settings: &[u32; 7], text: &[u8]) -> u64
    ensures { HostRead settings.now text.now result }
{
    host::callinglamp_read(settings, text)
}

// The version of the library that was linked, for a caller who was compiled with the header of another.
#[unsafe(no_mangle)]
pub extern "C" fn callinglamp_version() -> u32
    ensures { HostVersion result }
{
    host::callinglamp_version()
}
