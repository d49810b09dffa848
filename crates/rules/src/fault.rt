// What can be wrong with a file. The contracts cite specs/Fault.antt.
ghost use Rattle.std.specs.Prelude.{◌≡◌};
ghost use Rattle.rules.specs.Fault.{number_of};

// What is wrong with the first field of a file that is not sound.
#[derive(Clone, Copy, PartialEq, Eq, Debug)]
pub enum Fault {
    // The input ends within a tag and length, or before the bytes that a length announces.
    CutOff,
    // The input is empty, or its first tag is not that of a header.
    NoHeader,
    // A second header.
    SecondHeader,
    // A tag that is not known.
    UnknownTag,
    // A length that is wrong for the tag.
    WrongLength,
    // A number of channels that is not 1 to 64, or a number of relays that is not 1 to 32.
    WrongLimits,
    // A position that is 0 or above the number of channels.
    WrongPosition,
    // A set with a value above the number of relays.
    WrongSet,
    // A starting set that is empty.
    EmptyStart,
    // A second starting set for its position.
    SecondStart,
    // A position that is named twice.
    NamedTwice,
}

// 01's number of a fault.
impl From<Fault> for u32 {
    ghost from_gives = { λ fault number. number ≡ number_of fault };

    #[tactic(auto, unfolding(crate::specs::Fault::number_of))]
    fn from(fault: Fault) -> u32 {
        match fault {
            Fault::CutOff => 13,
            Fault::NoHeader => 14,
            Fault::SecondHeader => 15,
            Fault::UnknownTag => 16,
            Fault::WrongLength => 17,
            Fault::WrongLimits => 18,
            Fault::WrongPosition => 19,
            Fault::WrongSet => 20,
            Fault::EmptyStart => 26,
            Fault::SecondStart => 27,
            Fault::NamedTwice => 36,
        }
    }
}
