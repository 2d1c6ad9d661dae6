// The refusals of a call, and what a refused call answers: its number, and zeros.
ghost use Rattle.std.specs.Prelude.{◌≡◌, []};
ghost use Rattle.access.specs.Work.{refused_number};
ghost use Rattle.station.specs.Refusal.{refusal_number};
ghost use Rattle.station.specs.Cycle.{refused_cycle};
ghost use Rattle.station.specs.Versions.{refused_list, refused_return};
ghost use Rattle.station.specs.Inner.{framed};

use super::{CycleDone, Cycled, Framed, Listed, Returned};

// Each with its number, in the order in which they are tested. 13 ends a season report, and is no call's.
#[derive(Clone, Copy, PartialEq, Eq, Debug)]
pub enum Refusal {
    NoSuchFarm = 1,
    NotWellFormed = 2,
    ShortReply = 3,
    NoFrame = 4,
    WrongSlot = 5,
    WrongIndex = 6,
    WrongLength = 7,
    OutOfTurn = 8,
    WantsFewer = 9,
    Unreadable = 10,
    ForeignAxis = 11,
    UnknownFlags = 12,
    NotKept = 14,
    UsedUp = 15,
}

impl From<Refusal> for u8 {
    ghost from_gives = { λ refusal n. n ≡ refusal_number refusal };

    fn from(refusal: Refusal) -> u8 {
        refusal as u8
    }
}

impl From<access::Refused> for Refusal {
    ghost from_gives = { λ refused refusal. refusal_number refusal ≡ refused_number refused };

    fn from(refused: access::Refused) -> Refusal {
        match refused {
            access::Refused::Unreadable => Refusal::Unreadable,
            access::Refused::ForeignAxis => Refusal::ForeignAxis,
            access::Refused::UsedUp => Refusal::UsedUp,
        }
    }
}

// A refused cycle did nothing.
impl From<Refusal> for CycleDone {
    ghost from_gives = { λ refusal done. done ≡ refused_cycle (refusal_number refusal) };

    fn from(refusal: Refusal) -> CycleDone {
        let told = Cycled {
            number: refusal.into(),
            ..Cycled::default()
        };
        CycleDone {
            told,
            ..CycleDone::default()
        }
    }
}

// With an empty reply.
impl From<Refusal> for Framed {
    ghost from_gives = { λ refusal answer. answer ≡ framed [] 0 (refusal_number refusal) };

    fn from(refusal: Refusal) -> Framed {
        Framed {
            number: refusal.into(),
            ..Framed::default()
        }
    }
}

impl From<Refusal> for Listed {
    ghost from_gives = { λ refusal answer. answer ≡ refused_list (refusal_number refusal) };

    fn from(refusal: Refusal) -> Listed {
        Listed {
            number: refusal.into(),
            ..Listed::default()
        }
    }
}

impl From<Refusal> for Returned {
    ghost from_gives = { λ refusal answer. answer ≡ refused_return (refusal_number refusal) };

    fn from(refusal: Refusal) -> Returned {
        Returned {
            number: refusal.into(),
            ..Returned::default()
        }
    }
}
