// Why an address, or a whole block, came to nothing: each case has its number in the rules.
ghost use Rattle.std.specs.Prelude.{◌≡◌};
ghost use Rattle.access.specs.Address.{error_number};
ghost use Rattle.access.specs.Work.{refused_number};

// The error of an address, as its error block tells it.
#[derive(Clone, Copy, Debug, PartialEq, Eq)]
pub enum ParameterError {
    NoSuchParameter,
    ReadOnly,
    OutsideLimits,
    PastTheEnd,
    NoArray,
    WrongType,
    NoDescription,
    NoText,
    NoRoom,
    BadAddress,
    WrongCount,
}

impl From<ParameterError> for u16 {
    ghost from_gives = { λ e n. n ≡ error_number e };

    fn from(error: ParameterError) -> u16 {
        match error {
            ParameterError::NoSuchParameter => 0x00,
            ParameterError::ReadOnly => 0x01,
            ParameterError::OutsideLimits => 0x02,
            ParameterError::PastTheEnd => 0x03,
            ParameterError::NoArray => 0x04,
            ParameterError::WrongType => 0x05,
            ParameterError::NoDescription => 0x09,
            ParameterError::NoText => 0x0F,
            ParameterError::NoRoom => 0x15,
            ParameterError::BadAddress => 0x16,
            ParameterError::WrongCount => 0x18,
        }
    }
}

// Why a block was refused: nothing is stored, and nothing waits.
#[derive(Clone, Copy, Debug, PartialEq, Eq)]
pub enum Refused {
    Unreadable,
    ForeignAxis,
    UsedUp,
}

impl From<Refused> for u8 {
    ghost from_gives = { λ r n. n ≡ refused_number r };

    fn from(refused: Refused) -> u8 {
        match refused {
            Refused::Unreadable => 10,
            Refused::ForeignAxis => 11,
            Refused::UsedUp => 15,
        }
    }
}
