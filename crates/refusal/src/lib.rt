// Why a call refuses, and at which place. A reason stands for its number in the table of refusals.
#![tactic(auto)]

ghost use Rattle.std.specs.Prelude.{◌≡◌};
ghost use Rattle.refusal.specs.Told.{Numbers};

// The rows of the table, by what is wrong.
#[derive(Clone, Copy, Debug, PartialEq, Eq)]
pub enum Reason {
    ShortHeader,
    MessageLength,
    ShortMessage,
    OlderOpcode,
    CompressedOpcode,
    UnknownOpcode,
    NoFlags,
    UnknownFlag,
    Checksum,
    UnknownSection,
    SecondBody,
    SectionSize,
    Identifier,
    TooManySequences,
    DocumentLength,
    DocumentEnd,
    UnknownType,
    NameEnd,
    Value,
    TooDeep,
    TooManyElements,
    NoBody,
    RepeatedName,
    RepeatedIdentifier,
    ShortOutput,
    NotUtf8,
    TooFewSequences,
}

// A refusal: its reason, and the place in the message. The place stands first: in a `Result` it lies where a size would, and a size that
// is read then stays in one register.
#[derive(Clone, Copy, Debug, PartialEq, Eq)]
pub struct Refusal {
    pub place: usize,
    pub reason: Reason,
}

impl From<Reason> for u32 {
    ghost from_gives = { Numbers };

    fn from(reason: Reason) -> u32 {
        match reason {
            Reason::ShortHeader => 1,
            Reason::MessageLength => 2,
            Reason::ShortMessage => 3,
            Reason::OlderOpcode => 4,
            Reason::CompressedOpcode => 5,
            Reason::UnknownOpcode => 6,
            Reason::NoFlags => 7,
            Reason::UnknownFlag => 8,
            Reason::Checksum => 9,
            Reason::UnknownSection => 10,
            Reason::SecondBody => 11,
            Reason::SectionSize => 12,
            Reason::Identifier => 13,
            Reason::TooManySequences => 14,
            Reason::DocumentLength => 15,
            Reason::DocumentEnd => 16,
            Reason::UnknownType => 17,
            Reason::NameEnd => 18,
            Reason::Value => 19,
            Reason::TooDeep => 20,
            Reason::TooManyElements => 21,
            Reason::NoBody => 22,
            Reason::RepeatedName => 23,
            Reason::RepeatedIdentifier => 24,
            Reason::ShortOutput => 25,
            Reason::NotUtf8 => 27,
            Reason::TooFewSequences => 28,
        }
    }
}

impl Reason {
    // A refusal for this reason, at a place.
    pub fn at(self, place: usize) -> Refusal
        ensures { result ≡ record { reason = self; place = place } }
    {
        let reason = self;
        Refusal { reason, place }
    }
}
