#![tactic(auto)]

ghost use Rattle.std.specs.Prelude.{◌≡◌, ◌-◌, ◌≤◌, ◌<◌, get_or};
ghost use Rattle.settings.specs.Sets.{has_features, has_modes, named_numbers};
ghost use Rattle.settings.specs.Valid.{valid_length, valid_features, valid_modes, valid_settings, vector_bytes, array_bytes};
ghost use Rattle.settings.specs.Refused.{refusal_number};

// A set of features: the sum of the numbers of those that are there. Any number of 32 bits may be given, and the settings refuse what is no sum.
// Kept: a rule of the project (docs/FORMS.md) names this form, a type with associated constants and a `contains` function, also for `Modes`.
#[derive(Clone, Copy)]
pub struct Features(pub u32);

impl Features {
    pub const ADV_SIMD: Features = Features(1);

    pub const SVE2: Features = Features(2);

    pub const SME: Features = Features(4);

    pub const SME2: Features = Features(8);

    pub const I16I64: Features = Features(16);

    // Whether each feature of `named` is among these. A number that is no sum of the five is contained in nothing.
    pub fn contains(self, named: Features) -> bool
        ensures { result ≡ has_features self.0 named.0 }
    {
        (named.0 < 32)
            & (named.0 % 2 <= self.0 % 2)
            & (named.0 / 2 % 2 <= self.0 / 2 % 2)
            & (named.0 / 4 % 2 <= self.0 / 4 % 2)
            & (named.0 / 8 % 2 <= self.0 / 8 % 2)
            & (named.0 / 16 % 2 <= self.0 / 16 % 2)
    }
}

// A set of modes: the sum of the numbers of those that are on.
#[derive(Clone, Copy)]
pub struct Modes(pub u32);

impl Modes {
    pub const SM: Modes = Modes(1);

    pub const ZA: Modes = Modes(2);

    // Whether each mode of `named` is among these. A number that is no sum of the two is contained in nothing.
    // Kept: docs/FORMS.md names a `contains` of each set, and the tests are by `/` and `%`, since a mask does not close (docs/PROOFS.md, 2).
    pub fn contains(self, named: Modes) -> bool
        ensures { result ≡ has_modes self.0 named.0 }
    {
        (named.0 < 4) & (named.0 % 2 <= self.0 % 2) & (named.0 / 2 % 2 <= self.0 / 2 % 2)
    }
}

// The constants, handed out: no contract can name a constant, so that they are the paper's numbers is said of this function.
pub fn named_numbers() -> [u32; 7]
    ensures { result ≡ named_numbers }
{
    [
        Features::ADV_SIMD.0,
        Features::SVE2.0,
        Features::SME.0,
        Features::SME2.0,
        Features::I16I64.0,
        Modes::SM.0,
        Modes::ZA.0,
    ]
}

// What holds while words are decoded and executed. `select` has W8 to W11.
#[derive(Clone, Copy)]
pub struct Settings {
    pub vl: u32,
    pub features: Features,
    pub modes: Modes,
    pub select: [u32; 4],
}

// Why a call gave no answer.
#[derive(Clone, Copy, PartialEq, Eq)]
pub enum Refusal {
    // 1: VL, features or modes outside the rules.
    BadSettings,
    // 2: the length of Z, ZA or the report is wrong.
    BadLength,
    // 3: no layout matches, a reserved size, or a feature missing.
    UnknownWord,
    // 4: the mode does not permit the family.
    WrongMode,
    // 5: no word has exactly these fields.
    NoSuchWord,
    // 6: the word is of family C.
    NoPartner,
    // 7: the list ends inside a number or the Z bytes, or before one that is due.
    ListEnds,
    // 8: a number whose last of several groups is zero, or whose fifth byte is above 15.
    BadNumber,
    // 9: more words than a list may have.
    TooManyWords,
    // 10: bytes after the last word.
    ExtraBytes,
    // 11: the text is not of the language.
    NotText,
    // 12: the room is shorter than the text.
    ShortRoom,
}

// The number that document 01 gives the refusal, or request One of document 02.
impl From<Refusal> for u32 {
    ghost from_gives = { λ refusal number. number ≡ refusal_number refusal };

    fn from(refusal: Refusal) -> u32 {
        match refusal {
            Refusal::BadSettings => 1,
            Refusal::BadLength => 2,
            Refusal::UnknownWord => 3,
            Refusal::WrongMode => 4,
            Refusal::NoSuchWord => 5,
            Refusal::NoPartner => 6,
            Refusal::ListEnds => 7,
            Refusal::BadNumber => 8,
            Refusal::TooManyWords => 9,
            Refusal::ExtraBytes => 10,
            Refusal::NotText => 11,
            Refusal::ShortRoom => 12,
        }
    }
}

pub fn valid_length(vl: u32) -> bool
    ensures { result ≡ valid_length vl }
{
    (vl == 128) | (vl == 256) | (vl == 512)
}

// Every sum of the five with SME is valid. Without SME there is neither SME2 nor I16I64, so that the sum is below 4.
fn valid_features(features: Features) -> bool
    ensures { result ≡ valid_features features.0 }
{
    if features.contains(Features::SME) {
        return features.0 < 32;
    }
    features.0 < 4
}

// With SME every sum of the two is valid, and without it no mode is on.
// Kept: it differs from `valid_features` in what it tests and in both limits; a function of both would take all that each line says.
fn valid_modes(features: Features, modes: Modes) -> bool
    ensures { result ≡ valid_modes features.0 modes.0 }
{
    if features.contains(Features::SME) {
        return modes.0 < 4;
    }
    modes.0 == 0
}

impl Settings {
    // Whether the settings keep the rules: where they do not, every call refuses them with 1.
    #[tactic(auto, unfolding(crate::specs::Valid::valid_settings))]
    pub fn valid(self) -> bool
        ensures { result ≡ valid_settings self }
    {
        valid_length(self.vl)
            & valid_features(self.features)
            & valid_modes(self.features, self.modes)
    }

    // The bytes of a Z register.
    #[tactic(auto, unfolding(crate::specs::Valid::vector_bytes))]
    pub fn vector_bytes(self) -> u32
        ensures { result ≡ vector_bytes self }
    {
        self.vl / 8
    }

    // The bytes of a ZA vector, and the number of ZA vectors.
    // Kept: the same as `vector_bytes` where there is one length; docs/ARCHITECTURE.md keeps the two apart for cores with two.
    #[tactic(auto, unfolding(crate::specs::Valid::array_bytes))]
    pub fn array_bytes(self) -> u32
        ensures { result ≡ array_bytes self }
    {
        self.vl / 8
    }

    // The select register W8 to W11 of a number from 8 to 11.
    pub fn select_register(self, number: u32) -> u32
        requires { (8 ≤ number) × (number < 12) }
        ensures { result ≡ get_or self.select (number - 8) 0 }
    {
        let select = self.select;
        let at = (number - 8) as usize;
        select[at]
    }
}
