#![tactic(auto)]

ghost use Rattle.std.specs.Prelude.{◌≡◌, ◌⊎◌, true, [], Ok, ◌+◌, ◌*◌, ◌/◌, ◌%◌, ◌≤◌, ◌<◌};
ghost use Rattle.settings.specs.Valid.{valid_settings, vector_bytes, array_bytes};
ghost use Rattle.elements.specs.Files.{replaced};
ghost use Rattle.bits.specs.Bits.{toggles};
ghost use Rattle.bits.specs.Replace.{Replaced};
ghost use Rattle.recipes.specs.Recipe.{per_source};
ghost use Rattle.machine.specs.Modes.{permits};
ghost use Rattle.machine.specs.Step.{za_after};
ghost use Rattle.machine.specs.Loop.{made, RegisterRenewed, RegisterWritten, Grid, place, becomes, IntoV, Sources, Places, Ready};
ghost use Rattle.machine.specs.Execute.{executed_says, written, stepped, Stepped, right_lengths, ExecutePromise};
ghost use Rattle.machine.specs.Run.{report_of, four};
ghost use Rattle.words.specs.declared.Family.TheVariants.{Saturating};
ghost use Rattle.words.specs.Ranges.{Ranges};
ghost use Rattle.words.specs.Decode.{decode_paper};
ghost use Rattle.words.specs.Kinds.{fields_as};

use bits::Toggles;
use lanes::Operation;
use settings::{Features, Modes, Refusal, Settings};
pub use tally::Counts;
use words::{Family, Fields, Kind};

// A machine that stands ready: its settings are valid, and Z and ZA, which it was lent, have the lengths that they ask for.
#[derive(Drop)]
pub struct Machine<'a> {
    pub settings: Settings,
    pub z: &'a mut [u8],
    pub za: &'a mut [u8],
    pub ghost ready: { Ready settings z.now za.now },
}

// Kept: fields, w, z and za go on under `Sources` or `Places`, in three functions each; a struct of them would owe in each that the rest stays the same,
// as `same` in the four methods of `Machine`: as many clauses as there are now.

// A, B: the V register, the low 16 bytes of the destination, becomes new; registers have w bytes. In A each element takes the one lane at the index of
// the second source, and in B its own. Answers how many bits rose and fell.
fn step_v(fields: Fields, w: usize, z: &mut [u8]) -> Toggles
    requires sources { Sources fields w z.old }
    requires into_v { IntoV fields }
    ensures { RegisterRenewed fields w result z.old z.new }
{
    let lane = fields.lane as usize;
    let part = fields.part as usize * 8;
    let at = fields.destination as usize * w;
    let x = fields.first as usize * w + part;
    let y = fields.second as usize * w;
    let operation = Operation {
        unsigned: fields.unsigned,
        subtract: fields.subtract,
    };
    // Kept: a `match` on the family, as in `step_files`.
    match fields.family {
        Family::ByElement => {
            let index = fields.index as usize * (lane / 8);
            chunks::renew_v(lane, operation, z, at, x, y + index, 0)
        }
        _ => chunks::renew_v(lane, operation, z, at, x, y + part, 1),
    }
}

// A, B: the V register is written, which sets the rest of its Z register to zero; where registers have 16 bytes there is none. The zeros come last, so
// that a destination that is a source has been read; and of a source no word reads more than the low 16 bytes. Answers how many bits rose and fell.
fn write_v(fields: Fields, w: usize, z: &mut [u8]) -> Toggles
    requires sources { Sources fields w z.old }
    requires into_v { IntoV fields }
    ensures { RegisterWritten fields w result z.old z.new }
{
    let toggles = step_v(fields, w, z);
    if w == 16 {
        return toggles;
    }
    let above = fields.destination as usize * w + 16;
    let cleared = bits::clear(z, above, w - 16);
    toggles + cleared
}

// C: the destination becomes new. It is built aside, in room for the longest register, since it may be a source. Answers how many bits rose and fell.
fn step_saturating(fields: Fields, w: usize, z: &mut [u8]) -> Toggles
    requires sources { Sources fields w z.old }
    requires family_value { (fields.family ≡ Saturating) × (w ≤ 64) }
    ensures { RegisterRenewed fields w result z.old z.new }
{
    let mut room = [0u8; 64];
    let out = &mut room[..w];
    let at = fields.destination as usize * w;
    let n = fields.first as usize * w;
    let m = fields.second as usize * w;
    recipes::build(fields, z, at, n, m, out);
    bits::replace(z, at, out)
}

// D, E, with K vectors for a source register: vector v of ZA, which is first + r·stride + i, becomes new. Answers how many bits rose and fell.
fn step_vector<const K: usize>(
    fields: Fields,
    w: usize,
    v: usize,
    r: usize,
    i: usize,
    z: &[u8],
    za: &mut [u8],
) -> Toggles
    requires places { Places fields w z.now za.old }
    requires k_value { K ≡ per_source fields.family }
    requires v_lt_w { (v < w) × (r < fields.group) × (i < K) }
    ensures { Replaced (v * w) result
        (made fields i w w v za.old (fields.first + r) (fields.second + r) z.now)
        za.old za.new }
{
    let lane = fields.lane as usize;
    let wide = K * lane;
    let at = v * w;
    let from = i * (lane / 8);
    let x = (fields.first as usize + r) * w + from;
    let y = (fields.second as usize + r) * w + from;
    let operation = Operation {
        unsigned: fields.unsigned,
        subtract: fields.subtract,
    };
    chunks::renew(lane, wide, operation, za, at, z, x, y, w)
}

// D, E: the vectors first + r·stride + i of ZA become new, for r below the group and i below K. Answers how many bits rose and fell.
fn step_vectors<const K: usize>(
    fields: Fields,
    w: usize,
    first: usize,
    stride: usize,
    z: &[u8],
    za: &mut [u8],
) -> Toggles
    requires places { Places fields w z.now za.old }
    requires grid { Grid w fields.group stride K first × (K ≡ per_source fields.family) }
    ensures { (za.new ≡ replaced (place first stride K) (becomes fields w first stride K z.now za.old) w (fields.group * K) za.old) × (result ≡ toggles za.old za.new) }
{
    let count = fields.group as usize * K;
    let mut toggles = Toggles::default();
    for q in 0..count {
        let r = q / K;
        let i = q % K;
        toggles += step_vector::<K>(fields, w, first + r * stride + i, r, i, z, za);
    }
    toggles
}

// D, E, with K vectors for a source register: ZA after the step. Answers how many bits rose and fell.
fn step_array<const K: usize>(
    settings: Settings,
    fields: Fields,
    z: &[u8],
    za: &mut [u8],
) -> Toggles
    requires places { Places fields (array_bytes settings) z.now za.old }
    requires k_value { K ≡ per_source fields.family }
    ensures { (za.new ≡ za_after settings fields z.now za.old) × (result ≡ toggles za.old za.new) }
{
    let w = settings.array_bytes() as usize;
    let stride = w / fields.group as usize;
    let number = settings.select_register(fields.select) as usize;
    let selected = (number + fields.offset as usize) % stride;
    let first = selected - selected % K;
    step_vectors::<K>(fields, w, first, stride, z, za)
}

pub fn right_lengths(settings: Settings, z: usize, za: usize) -> bool
    requires { valid_settings settings ≡ true }
    ensures { result ≡ right_lengths settings z za }
{
    let register = settings.vector_bytes() as usize;
    let vector = settings.array_bytes() as usize;
    (z == 32 * register) & (za == vector * vector)
}

// Kept: of settings and fields alone, as `written` says it; an arm for each family, since the edits `written_128` and `written_of_d_for_e` turn one each.
fn written_bits(settings: Settings, fields: Fields) -> u32
    requires { (settings.vl ≤ 2048) × (fields.group ≤ 32) }
    ensures { result ≡ written settings fields }
{
    let vl = settings.vl;
    let group = fields.group;
    match fields.family {
        Family::ByElement => vl,
        Family::Vector => vl,
        Family::Saturating => vl,
        Family::LongLong => vl * group * 4,
        Family::Long => vl * group * 2,
    }
}

impl<'a> Machine<'a> {
    ghost use Rattle.machine.specs.Same.{SameMachine};

    // The registers after the step. Answers how many bits rose and fell.
    // Kept: a `match` on the family, which a word says. A closure for each family would need the same `match` to be chosen by.
    fn step_files(&mut self, fields: Fields) -> Toggles
        requires { Ranges fields }
        ensures stepped { Stepped self.old.settings fields result self.old.z.now self.old.za.now self.new.z.now self.new.za.now }
        ensures same { SameMachine self.old self.new }
    {
        let settings = self.settings;
        let w = settings.vector_bytes() as usize;
        let z = &mut *self.z;
        let za = &mut *self.za;
        match fields.family {
            Family::ByElement | Family::Vector => write_v(fields, w, z),
            Family::Saturating => step_saturating(fields, w, z),
            Family::LongLong => step_array::<4>(settings, fields, z, za),
            Family::Long => step_array::<2>(settings, fields, z, za),
        }
    }

    // The step, with its counts.
    fn step(&mut self, fields: Fields) -> Counts
        requires { Ranges fields }
        ensures stepped { executed_says (Ok result) self.new.z.now self.new.za.now ≡ stepped self.old.settings fields self.old.z.now self.old.za.now }
        ensures same { SameMachine self.old self.new }
    {
        let written = written_bits(self.settings, fields);
        let toggles = self.step_files(fields);
        Counts {
            rises: toggles.rises as u32,
            falls: toggles.falls as u32,
            written,
        }
    }

    // A, B need SM off. C needs SM on, or SVE2. D, E need SM and ZA on.
    fn permits(&self, family: Family) -> bool
        ensures { result ≡ permits self.now.settings.features.0 self.now.settings.modes.0 family }
    {
        let features = self.settings.features;
        let modes = self.settings.modes;
        match family {
            Family::ByElement | Family::Vector => !modes.contains(Modes::SM),
            Family::Saturating => modes.contains(Modes::SM) | features.contains(Features::SVE2),
            Family::LongLong | Family::Long => modes.contains(Modes::SM)
                & modes.contains(Modes::ZA),
        }
    }

    // 4, or the step. The fields are read last: a word that is refused needs none.
    fn execute_kind(&mut self, kind: Kind, word: u32) -> Result<Counts, Refusal>
        requires { decode_paper self.old.settings word ≡ (0, fields_as kind word) }
        ensures executed { ExecutePromise self.old.settings word self.old.z.now self.old.za.now result self.new.z.now self.new.za.now }
        ensures same { SameMachine self.old self.new }
    {
        if !self.permits(Family::from(kind)) {
            return Err(Refusal::WrongMode);
        }
        Ok(self.step(words::fields_of(kind, word)))
    }

    // 3, 4, or the step.
    pub fn execute(&mut self, word: u32) -> Result<Counts, Refusal>
        ensures executed { ExecutePromise self.old.settings word self.old.z.now self.old.za.now result self.new.z.now self.new.za.now }
        ensures same { SameMachine self.old self.new }
    {
        let kind = words::enabled_kind(self.settings.features, word)?;
        self.execute_kind(kind, word)
    }
}

// 3, 4, or the step, where the settings and the lengths are tested.
pub fn execute_word(
    settings: Settings,
    word: u32,
    z: &mut [u8],
    za: &mut [u8],
) -> Result<Counts, Refusal>
    requires { Ready settings z.old za.old }
    ensures { ExecutePromise settings word z.old za.old result z.new za.new }
{
    let mut machine = Machine { settings, z, za };
    machine.execute(word)
}

// Executes one word. Z has 32 registers of VL/8 bytes, and ZA VL/8 vectors of VL/8 bytes. A refusal leaves both as they are.
pub fn execute(
    settings: Settings,
    word: u32,
    z: &mut [u8],
    za: &mut [u8],
) -> Result<Counts, Refusal>
    ensures { ExecutePromise settings word z.old za.old result z.new za.new }
{
    if !settings.valid() {
        return Err(Refusal::BadSettings);
    }
    if !right_lengths(settings, z.len(), za.len()) {
        return Err(Refusal::BadLength);
    }
    execute_word(settings, word, z, za)
}

// The four numbers of a word in the report: a refusal's number or 0, and the counts.
pub fn report_of(answer: Result<Counts, Refusal>) -> [u32; 4]
    ensures { result ≡ four (report_of (executed_says answer [] [])) }
{
    match answer {
        Ok(counts) => [0, counts.rises, counts.falls, counts.written],
        Err(refusal) => [u32::from(refusal), 0, 0, 0],
    }
}
