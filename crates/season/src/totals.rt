// What a record counts, added to the totals.
ghost use Rattle.std.specs.Prelude.{◌≡◌, true, false, [], length, MatchOption};
ghost use Rattle.station.specs.Calls.{to_cycle, to_frame, to_return};
ghost use Rattle.season.specs.Season.{answer_counts, plus, reaches, added};

use super::{COUNTS, EACH, Stop};
use station::{CycleDone, FARMS, Framed, Returned};

// What a cycle counts. State and number are numbers in what the C interface hands on, here and below.
pub(crate) fn of_cycle(c: CycleDone) -> [u64; EACH]
    ensures { result ≡ answer_counts (to_cycle c) }
{
    let state = c.told.state;
    [
        u64::from(state == 1),
        u64::from(state == 2),
        u64::from(state == 3),
        u64::from(state == 4),
        u64::from(state == 51),
        u64::from(state == 52),
        u64::from(c.entered),
        u64::from(c.acknowledged),
        0,
        0,
    ]
}

// What a frame counts.
pub(crate) fn of_frame(f: Framed) -> [u64; EACH]
    ensures { result ≡ answer_counts (to_frame f []) }
{
    let denied = u64::from(f.number == 11);
    [0, 0, 0, 0, 0, 0, 0, 0, denied, u64::from(f.stored)]
}

// What a going back counts.
pub(crate) fn of_return(r: Returned) -> [u64; EACH]
    ensures { result ≡ answer_counts (to_return r) }
{
    [0, 0, 0, 0, 0, 0, 0, 0, 0, u64::from(r.stored)]
}

// Each total with its count added; none where one would reach 2^64. The totals are a window of those of all farms, and so a slice.
fn sums(totals: &[u64], counts: &[u64; EACH]) -> Option<[u64; EACH]>
    requires { length totals.now ≡ 10 }
    ensures { MatchOption result (reaches (plus totals.now counts.now) ≡ true) (λ s. (reaches (plus totals.now counts.now) ≡ false) × (s ≡ plus totals.now counts.now)) }
{
    let mut sums = [0u64; EACH];
    for (i, sum) in sums.iter_mut().enumerate() {
        *sum = totals[i].checked_add(counts[i])?;
    }
    Some(sums)
}

// Adds counts to those of farm k: all of them, or none.
pub(crate) fn add(totals: &mut [u64; COUNTS], k: u8, counts: &[u64; EACH]) -> Result<(), Stop>
    ensures value { result ≡ (added k counts.now totals.old).last }
    ensures totals_after { totals.new ≡ (added k counts.now totals.old).totals }
{
    let k = usize::from(k);
    if k == 0 || FARMS < k {
        return Ok(());
    }
    let first = (k - 1) * EACH;
    let own = &mut totals[first..first + EACH];
    let Some(sums) = sums(own, counts) else {
        return Err(Stop::Over);
    };
    own.copy_from_slice(&sums);
    Ok(())
}
