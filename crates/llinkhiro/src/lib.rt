// The calls of a host, exported as one library: each is one call of a crate below, and promises what a host is handed of it. No other
// crate exports.
#![tactic(auto)]

ghost use Rattle.std.specs.Prelude.{◌≡◌};
ghost use Rattle.checker.specs.Check.{check_of};
ghost use Rattle.station.specs.Parts.{station_size, fresh_number, fresh_station};
ghost use Rattle.station.specs.Isolation.{answer, after};
ghost use Rattle.station.specs.Calls.{kinds, cycle, frame, exchange, list, go_back};
ghost use Rattle.llinkhiro.specs.Host.{of_cycle, of_frame, of_list, of_return, handed};

use station::{Cycled, Framed, Listed, Returned, Sent};

// Bytes of a station's memory.
#[unsafe(no_mangle)]
pub extern "C" fn llinkhiro_size() -> usize
    ensures { result ≡ station_size }
{
    station::size()
}

// Makes a fresh station.
#[unsafe(no_mangle)]
pub extern "C" fn llinkhiro_fresh(station: &mut [u8]) -> u8
    ensures value { result ≡ fresh_number station.old }
    ensures station_after { station.new ≡ fresh_station station.old }
{
    match station::fresh(station) {
        Ok(()) => 0,
        Err(refusal) => u8::from(refusal),
    }
}

// A control cycle of an axis.
#[unsafe(no_mangle)]
pub extern "C" fn llinkhiro_cycle(
    station: &mut [u8],
    axis: u32,
    flags: u32,
    stw1: u16,
    nsoll: i16,
    nist: i16,
    fault: u16,
) -> Cycled
    ensures result_value { of_cycle result ≡ handed (answer kinds (cycle axis (record { flags = flags; stw1 = stw1; nsoll = nsoll; nist = nist; fault = fault })) station.old) }
    ensures station_after { station.new ≡ after kinds (cycle axis (record { flags = flags; stw1 = stw1; nsoll = nsoll; nist = nist; fault = fault })) station.old }
{
    let sent = Sent {
        flags,
        stw1,
        nsoll,
        nist,
        fault,
    };
    station::cycle(station, axis, sent).told
}

// A frame of a farm, answered in the reply memory.
#[unsafe(no_mangle)]
pub extern "C" fn llinkhiro_frame(
    station: &mut [u8],
    farm: u32,
    f: &[u8],
    reply: &mut [u8],
) -> Framed
    ensures reply_after { of_frame result reply.new ≡ handed (answer kinds (frame farm f.now reply.old) station.old) }
    ensures station_after { station.new ≡ after kinds (frame farm f.now reply.old) station.old }
{
    station::frame(station, farm, f, reply)
}

// A merged call of a farm: a write and the fetch of its response, answered in the reply memory.
#[unsafe(no_mangle)]
pub extern "C" fn llinkhiro_exchange(
    station: &mut [u8],
    farm: u32,
    f: &[u8],
    reply: &mut [u8],
) -> Framed
    ensures reply_after { of_frame result reply.new ≡ handed (answer kinds (exchange farm f.now reply.old) station.old) }
    ensures station_after { station.new ≡ after kinds (exchange farm f.now reply.old) station.old }
{
    station::exchange(station, farm, f, reply)
}

// The versions of a farm that are kept.
#[unsafe(no_mangle)]
pub extern "C" fn llinkhiro_versions(station: &[u8], farm: u32) -> Listed
    ensures { of_list result ≡ handed (answer kinds (list farm) station.now) }
{
    station::list(station, farm)
}

// Goes back to a version of a farm.
#[unsafe(no_mangle)]
pub extern "C" fn llinkhiro_go_back(station: &mut [u8], farm: u32, version: u32) -> Returned
    ensures result_value { of_return result ≡ handed (answer kinds (go_back farm version) station.old) }
    ensures station_after { station.new ≡ after kinds (go_back farm version) station.old }
{
    station::go_back(station, farm, version)
}

// A response block held against the request block that it answers, apart from all stations.
#[unsafe(no_mangle)]
pub extern "C" fn llinkhiro_check(request: &[u8], response: &[u8]) -> u8
    ensures { result ≡ check_of request.now response.now }
{
    checker::check(request, response) as u8
}
