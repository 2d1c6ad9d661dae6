// The station: 16 parts in memory that the caller lends, and the calls on them.
#![tactic(auto)]

ghost use Rattle.std.specs.Prelude.{◌≡◌, ◌≤◌, length, IfOk, IsOk};
ghost use Rattle.station.specs.Refusal.{answered_number};
ghost use Rattle.station.specs.Parts.{farms, station_size, station_refusal, fresh_number, fresh_station};
ghost use Rattle.station.specs.Cycle.{refused_cycle};
ghost use Rattle.station.specs.Versions.{refused_list, refused_return};
ghost use Rattle.station.specs.Isolation.{answer, after};
ghost use Rattle.station.specs.Calls.{kinds, cycle, frame, exchange, list, go_back, to_cycle, to_frame, to_list, to_return};
ghost use Rattle.station.specs.Inner.{Place, Lent, told, denied, reply_told};

use std::ops::Range;

mod part_cycle; // part_cycle.rt: a control cycle on the part of its axis
mod part_frame; // part_frame.rt: a frame on the part of its farm
mod part_versions; // part_versions.rt: a list and a going back on the part of their farm
mod judge; // judge.rt: the tests 2 to 9 of a frame
mod reply; // reply.rt: what is written in the reply memory
mod refusal; // refusal.rt: the refusals of a call

pub use refusal::Refusal;

// What a host is told of a cycle. This and the next three are laid out as in C, since exported calls hand them on.
#[repr(C)]
#[derive(Clone, Copy, Default)]
pub struct Cycled {
    pub rpm: i32,
    pub status: u16,
    pub state: u8,
    pub number: u8,
}

// What a frame or a merged call answers beside its reply: the reply's length, and how many elements were stored.
#[repr(C)]
#[derive(Clone, Copy, Default)]
pub struct Framed {
    pub length: u16,
    pub stored: u16,
    pub number: u8,
}

// The versions of a farm that are kept: the numbers oldest to oldest + kept - 1.
#[repr(C)]
#[derive(Clone, Copy, Default)]
pub struct Listed {
    pub oldest: u16,
    pub kept: u16,
    pub number: u8,
}

// What a going back answers: how many elements were stored, and the number of the new version.
#[repr(C)]
#[derive(Clone, Copy, Default)]
pub struct Returned {
    pub stored: u16,
    pub version: u16,
    pub number: u8,
}

// A cycle's answer: what a host is told, and of what the cycle did that it acknowledged a situation, and that it came into S4.
#[derive(Clone, Copy, Default)]
pub struct CycleDone {
    pub told: Cycled,
    pub acknowledged: bool,
    pub entered: bool,
}

// What a cycle of an axis is sent: the flags, the control word, setpoint and actual speed, and a fault code.
#[derive(Clone, Copy)]
pub struct Sent {
    pub flags: u32,
    pub stw1: u16,
    pub nsoll: i16,
    pub nist: i16,
    pub fault: u16,
}

// Farms, and axes.
pub const FARMS: usize = 16;

// Bytes of a station's memory.
pub const STATION: usize = FARMS * part::SIZE;

#[tactic(auto, unfolding(catalogue::specs::Table::parameter_bytes, catalogue::specs::Table::rows, versions::specs::Layout::last_at))]
pub fn size() -> usize
    ensures { result ≡ station_size }
{
    STATION
}

// Where the part of a farm or axis lies in a station's memory.
#[tactic(auto, unfolding(catalogue::specs::Table::parameter_bytes, catalogue::specs::Table::rows, versions::specs::Layout::last_at))]
fn place_of(k: u32) -> Range<usize>
    requires { (1 ≤ k) × (k ≤ farms) }
    ensures { Place k result }
{
    let start = (k as usize - 1) * part::SIZE;
    start..start + part::SIZE
}

// The same, of any farm or axis and the bytes of the memory that is lent, unless one of them is refused.
#[tactic(auto, using(crate::proofs::Answers::lends), unfolding(crate::specs::Parts::station_refusal, catalogue::specs::Table::parameter_bytes, catalogue::specs::Table::rows, versions::specs::Layout::last_at))]
fn place_in(k: u32, size: usize) -> Result<Range<usize>, Refusal>
    ensures number { answered_number result ≡ station_refusal k size }
    ensures place { IfOk result (λ place. Lent k size place) }
{
    if k == 0 || FARMS < k as usize {
        return Err(Refusal::NoSuchFarm);
    }
    if size != STATION {
        return Err(Refusal::NotWellFormed);
    }
    Ok(place_of(k))
}

// Makes a fresh station.
pub fn fresh(station: &mut [u8]) -> Result<(), Refusal>
    ensures value { answered_number result ≡ fresh_number station.old }
    ensures done { length station.old ≡ STATION → IsOk result }
    ensures station_after { station.new ≡ fresh_station station.old }
{
    if station.len() != STATION {
        return Err(Refusal::NotWellFormed);
    }
    // By number: of the chunks that the library lends no proof knows the bytes afterwards.
    for i in 0..FARMS {
        let start = i * part::SIZE;
        part::fresh(&mut station[start..start + part::SIZE]);
    }
    Ok(())
}

// A control cycle of an axis.
pub fn cycle(station: &mut [u8], axis: u32, sent: Sent) -> CycleDone
    ensures result_value { to_cycle result ≡ answer kinds (cycle axis sent) station.old }
    ensures station_after { station.new ≡ after kinds (cycle axis sent) station.old }
{
    cycle_of(station, axis, sent).unwrap_or_else(CycleDone::from)
}

// This and the three like it stand apart for `?`. Each promises another answer, so that one function of all would take its promise and its
// work as parameters.
fn cycle_of(station: &mut [u8], axis: u32, sent: Sent) -> Result<CycleDone, Refusal>
    ensures value { to_cycle (told refused_cycle result) ≡ answer kinds (cycle axis sent) station.old }
    ensures station_after { station.new ≡ after kinds (cycle axis sent) station.old }
{
    let place = place_in(axis, station.len())?;
    part_cycle::cycle_on(&mut station[place], axis as u8, sent)
}

// A frame of a farm, answered in the reply memory. Station, farm, frame and reply stand one by one, here and below, as C hands them.
pub fn frame(station: &mut [u8], farm: u32, f: &[u8], reply: &mut [u8]) -> Framed
    ensures reply_after { to_frame result reply.new ≡ answer kinds (frame farm f.now reply.old) station.old }
    ensures station_after { station.new ≡ after kinds (frame farm f.now reply.old) station.old }
{
    match frame_of(station, farm, f, reply) {
        Ok(done) => done,
        Err(refusal) => reply::refuse(f, reply, refusal),
    }
}

fn frame_of(station: &mut [u8], farm: u32, f: &[u8], reply: &mut [u8]) -> Result<Framed, Refusal>
    ensures reply_after { to_frame (told (denied f.now) result) (reply_told f.now reply.new result) ≡ answer kinds (frame farm f.now reply.old) station.old }
    ensures station_after { station.new ≡ after kinds (frame farm f.now reply.old) station.old }
{
    let place = place_in(farm, station.len())?;
    part_frame::frame_on(&mut station[place], farm as u8, f, reply)
}

// A merged call of a farm: a write and, where it is done, the fetch of its response, which no test can refuse.
pub fn exchange(station: &mut [u8], farm: u32, f: &[u8], reply: &mut [u8]) -> Framed
    ensures reply_after { to_frame result reply.new ≡ answer kinds (exchange farm f.now reply.old) station.old }
    ensures station_after { station.new ≡ after kinds (exchange farm f.now reply.old) station.old }
{
    let written = frame(station, farm, judge::without_read(f), reply);
    // By C's number: what `frame` hands on is C's struct.
    if written.number != 0 {
        return written;
    }
    let fetched = part_frame::read_on(&mut station[place_of(farm)], reply);
    // The write's own answer: one put together anew costs more (decision 97).
    let mut answer = written;
    answer.length = fetched.length;
    answer
}

// The versions of a farm that are kept.
pub fn list(station: &[u8], farm: u32) -> Listed
    ensures { to_list result ≡ answer kinds (list farm) station.now }
{
    list_of(station, farm).unwrap_or_else(Listed::from)
}

fn list_of(station: &[u8], farm: u32) -> Result<Listed, Refusal>
    ensures { to_list (told refused_list result) ≡ answer kinds (list farm) station.now }
{
    let place = place_in(farm, station.len())?;
    part_versions::list_on(&station[place], farm as u8)
}

// Goes back to a version of a farm.
pub fn go_back(station: &mut [u8], farm: u32, version: u32) -> Returned
    ensures result_value { to_return result ≡ answer kinds (go_back farm version) station.old }
    ensures station_after { station.new ≡ after kinds (go_back farm version) station.old }
{
    return_of(station, farm, version).unwrap_or_else(Returned::from)
}

fn return_of(station: &mut [u8], farm: u32, version: u32) -> Result<Returned, Refusal>
    ensures value { to_return (told refused_return result) ≡ answer kinds (go_back farm version) station.old }
    ensures station_after { station.new ≡ after kinds (go_back farm version) station.old }
{
    let place = place_in(farm, station.len())?;
    part_versions::go_back_on(&mut station[place], farm as u8, version)
}
