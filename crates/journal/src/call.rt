// The call of a record, made on the station.
ghost use Rattle.std.specs.Prelude.{◌≡◌, ◌≤◌, length};
ghost use Rattle.station.specs.Isolation.{answer, after};
ghost use Rattle.station.specs.Calls.{kinds, to_cycle, to_frame, to_return};
ghost use Rattle.journal.specs.Line.{cycle_record, frame_record, return_record, frame_length, is_merged, cycle_call, frame_call, return_call, reply_room};

use super::record;
use station::{CycleDone, Framed, Returned, Sent};

// The cycle of a record.
pub(crate) fn cycle(station: &mut [u8], bytes: &[u8]) -> CycleDone
    requires { length bytes.now ≡ cycle_record }
    ensures result_value { to_cycle result ≡ answer kinds (cycle_call bytes.now) station.old }
    ensures station_after { station.new ≡ after kinds (cycle_call bytes.now) station.old }
{
    let sent = Sent {
        flags: u32::from(bytes[2]),
        stw1: codes::word_at(bytes, 3),
        nsoll: codes::word_at(bytes, 5).cast_signed(),
        nist: codes::word_at(bytes, 7).cast_signed(),
        fault: codes::word_at(bytes, 9),
    };
    station::cycle(station, u32::from(bytes[1]), sent)
}

// The frame of a record, by itself or as the merged call, answered in a reply memory of zeros.
pub(crate) fn frame(station: &mut [u8], bytes: &[u8], merged: bool, reply: &mut [u8]) -> Framed
    requires { (length bytes.now ≡ frame_record) × ((frame_length bytes.now ≤ 244) × ((merged ≡ is_merged bytes.now) × (reply.old ≡ reply_room))) }
    ensures reply_after { to_frame result reply.new ≡ answer kinds (frame_call bytes.now) station.old }
    ensures length_bound { result.length ≤ 244 }
    ensures station_after { station.new ≡ after kinds (frame_call bytes.now) station.old }
{
    let farm = u32::from(bytes[1]);
    let end = record::FRAME_HEAD + usize::from(bytes[2]);
    let f = &bytes[record::FRAME_HEAD..end];
    if merged {
        station::exchange(station, farm, f, reply)
    } else {
        station::frame(station, farm, f, reply)
    }
}

// The going back of a record.
pub(crate) fn go_back(station: &mut [u8], bytes: &[u8]) -> Returned
    requires { length bytes.now ≡ return_record }
    ensures result_value { to_return result ≡ answer kinds (return_call bytes.now) station.old }
    ensures station_after { station.new ≡ after kinds (return_call bytes.now) station.old }
{
    let version = codes::word_at(bytes, 2);
    station::go_back(station, u32::from(bytes[1]), u32::from(version))
}
