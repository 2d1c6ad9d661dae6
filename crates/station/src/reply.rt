// What is written in the reply memory.
ghost use Rattle.std.specs.Prelude.{◌≡◌};
ghost use Rattle.codes.specs.Number.{put};
ghost use Rattle.station.specs.Refusal.{refusal_number};
ghost use Rattle.station.specs.Frame.{code_of, refused_reply};
ghost use Rattle.station.specs.Inner.{framed};

use super::{Framed, Refusal, judge};

// The code of a refusal that is put in a reply.
fn code_of(refusal: Refusal) -> u8
    ensures { result ≡ code_of (refusal_number refusal) }
{
    match refusal {
        Refusal::WrongSlot => 0xB2,
        Refusal::WrongIndex => 0xB0,
        Refusal::WrongLength => 0xB1,
        Refusal::OutOfTurn => 0xB5,
        Refusal::WantsFewer => 0xB7,
        Refusal::Unreadable => 0xB8,
        Refusal::UsedUp => 0xA1,
        _ => 0xB6,
    }
}

// A refusal of a frame; nothing is put for numbers 1 to 4.
#[tactic(auto, using(codes::proofs::Put::put_none))]
pub(crate) fn refuse(f: &[u8], reply: &mut [u8], refusal: Refusal) -> Framed
    ensures value { result ≡ framed (refused_reply f.now (refusal_number refusal)) 0 (refusal_number refusal) }
    ensures reply_after { reply.new ≡ put reply.old 0 (refused_reply f.now (refusal_number refusal)) }
{
    let empty = Framed::from(refusal);
    // By their numbers, as the rule says it.
    if empty.number < 5 {
        return empty;
    }
    let denial = if matches!(f, [judge::WRITE, ..]) {
        0xDF
    } else {
        0xDE
    };
    codes::put_bytes(reply, 0, &[denial, 0x80, code_of(refusal), 0]);
    Framed { length: 4, ..empty }
}
