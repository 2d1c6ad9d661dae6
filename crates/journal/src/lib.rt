// One record of a journal, played on a station: what it did, and its line.
#![tactic(auto)]

ghost use Rattle.std.specs.Prelude.{◌≡◌, ◌++◌, ◌≤◌, length, drop};
ghost use Rattle.journal.specs.Written.{room, Wrote};
ghost use Rattle.journal.specs.Line.{is_record, record_line, record_after};
ghost use Rattle.journal.specs.Kinds.{kind_of};
ghost use Rattle.journal.specs.History.{acted_of};

use record::Kind;
use station::{CycleDone, Framed, Returned};

mod call; // call.rt: the call of a record
mod line; // line.rt: the lines
mod record; // record.rt: which bytes are a record, and of which kind
mod writing; // writing.rt: text, written in memory that is lent

pub use record::{longest_record, next_length, record_length};
pub use writing::{Text, put_spaced_number};

// Room for any line: a letter, two numbers of at most ten digits, three spaces, 244 bytes in hex, and the line's end.
pub const LINE: usize = 513;

// How long the line is, and whether the bytes were a record. Bytes that are none have a line too, so that this is no `Result`.
#[derive(Clone, Copy, Debug, PartialEq, Eq)]
pub struct Played {
    pub length: usize,
    pub good: bool,
}

// What a record did: a cycle of an axis, a frame of a farm, by itself or merged, or its going back.
#[derive(Clone, Copy)]
pub enum Acted {
    Cycle(u8, CycleDone),
    Frame(u8, Framed),
    Return(u8, Returned),
}

// Plays a record of a kind, and writes its line; what is of none is bad.
fn put_played(station: &mut [u8], bytes: &[u8], kind: Option<Kind>, text: &mut Text)
    requires { (kind ≡ kind_of bytes.now) × room 513 text.old }
    ensures text_after { Wrote 513 (record_line bytes.now station.old) text.old text.new }
    ensures station_after { station.new ≡ record_after bytes.now station.old }
{
    match kind {
        Some(Kind::Cycle) => {
            let done = call::cycle(station, bytes);
            line::put_cycle(text, bytes[1], done.told)
        }
        Some(Kind::Frame { merged }) => {
            let mut reply = [0u8; record::FRAME_ROOM];
            let f = call::frame(station, bytes, merged, &mut reply);
            line::put_frame(text, merged, bytes[1], f, &reply)
        }
        Some(Kind::Return) => {
            let r = call::go_back(station, bytes);
            line::put_return(text, bytes[1], r)
        }
        None => line::put_bad(text),
    }
}

// Plays a record on the station, and writes its line; anything else is bad. It answers the line's length: the rest of the memory stays as it
// was, which `line_after` promises.
#[tactic(auto, using(crate::proofs::Records::record_kinds))]
pub fn play(station: &mut [u8], bytes: &[u8], line: &mut [u8; LINE]) -> Played
    ensures line_after { line.new ≡ record_line bytes.now station.old ++ drop result.length line.old }
    ensures length_value { (result.length ≡ length (record_line bytes.now station.old)) × (result.length ≤ 513) }
    ensures good_value { result.good ≡ is_record bytes.now }
    ensures station_after { station.new ≡ record_after bytes.now station.old }
{
    let kind = record::kind_of(bytes);
    let mut text = Text::new(line);
    put_played(station, bytes, kind, &mut text);
    Played {
        length: text.len(),
        good: kind.is_some(),
    }
}

// Makes the call of a record on the station and answers what it did, with no line; nothing, where the bytes are no record. It hands on no
// reply, which a line has, so that `play` does not go through it.
pub fn act(station: &mut [u8], bytes: &[u8]) -> Option<Acted>
    ensures value { result ≡ acted_of bytes.now station.old }
    ensures station_after { station.new ≡ record_after bytes.now station.old }
{
    match record::kind_of(bytes)? {
        Kind::Cycle => Some(Acted::Cycle(bytes[1], call::cycle(station, bytes))),
        Kind::Frame { merged } => {
            let mut reply = [0u8; record::FRAME_ROOM];
            let f = call::frame(station, bytes, merged, &mut reply);
            Some(Acted::Frame(bytes[1], f))
        }
        Kind::Return => Some(Acted::Return(bytes[1], call::go_back(station, bytes))),
    }
}
