// Why a call is refused.
ghost use Rattle.std.specs.Prelude.{◌≡◌};
ghost use Rattle.cube.specs.Refusals.{fault_of};

/// Every refusal of the product; a fault of a text has the offset of its byte.
#[derive(Clone, Copy, Debug, PartialEq, Eq)]
pub enum Refusal {
    NoSuchRegister,
    NoSuchVariable,
    ShapeBeyondRange,
    TableTooShort,
    OutputTooShort,
    ByteNotAllowed { at: usize },
    SixthDigit { at: usize },
    MinusWithoutDigit { at: usize },
    TextTooLong,
    NotTheVariables { at: usize },
    CubesBeyondRange { at: usize },
    LiteralsBeyondRange { at: usize },
    LiteralBeyondRange { at: usize },
    LiteralNotRising { at: usize },
    NumberTooMany { at: usize },
    EndsTooEarly { at: usize },
    NoSuchCommand { at: usize },
    WrongNumberCount,
    NoSuchFile,
}

// Two numbers of one refusal, each by its name: a `From` could give one of them, and would hide which.
impl Refusal {
    /// The number that is returned to the host and printed.
    pub fn number(self) -> u8
        ensures { result ≡ (fault_of self).number }
    {
        match self {
            Refusal::NoSuchRegister => 1,
            Refusal::NoSuchVariable => 2,
            Refusal::ShapeBeyondRange => 3,
            Refusal::TableTooShort => 4,
            Refusal::OutputTooShort => 8,
            Refusal::ByteNotAllowed { .. } => 20,
            Refusal::SixthDigit { .. } => 21,
            Refusal::MinusWithoutDigit { .. } => 22,
            Refusal::TextTooLong => 23,
            Refusal::NotTheVariables { .. } => 30,
            Refusal::CubesBeyondRange { .. } => 31,
            Refusal::LiteralsBeyondRange { .. } => 32,
            Refusal::LiteralBeyondRange { .. } => 33,
            Refusal::LiteralNotRising { .. } => 34,
            Refusal::NumberTooMany { .. } => 35,
            Refusal::EndsTooEarly { .. } => 36,
            Refusal::NoSuchCommand { .. } => 50,
            Refusal::WrongNumberCount => 51,
            Refusal::NoSuchFile => 52,
        }
    }

    /// The offset of the fault in its text; 0 where none is named, since that is what a host is told and a console prints.
    pub fn offset(self) -> usize
        ensures { result ≡ (fault_of self).offset }
    {
        match self {
            Refusal::ByteNotAllowed { at }
            | Refusal::SixthDigit { at }
            | Refusal::MinusWithoutDigit { at }
            | Refusal::NotTheVariables { at }
            | Refusal::CubesBeyondRange { at }
            | Refusal::LiteralsBeyondRange { at }
            | Refusal::LiteralBeyondRange { at }
            | Refusal::LiteralNotRising { at }
            | Refusal::NumberTooMany { at }
            | Refusal::EndsTooEarly { at }
            | Refusal::NoSuchCommand { at } => at,
            _ => 0,
        }
    }
}
