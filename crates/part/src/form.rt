// Whether a part is well-formed: each part of the rule is looked at once, in its order.
ghost use Rattle.std.specs.Prelude.{◌≡◌, true, ◌&&◌, ◌+◌, ◌*◌, ◌≤◌, length, drop};
ghost use Rattle.drive.specs.Faults.{situation_codes, is_in, zeros, proper, proper_faults};
ghost use Rattle.catalogue.specs.Table.{rows};
ghost use Rattle.part.specs.Layout.{part_size};
ghost use Rattle.part.specs.Record.{words_at, faults_of};
ghost use Rattle.catalogue.specs.Element.{every_row};
ghost use Rattle.part.specs.WellFormed.{limits_fit, fixed_fit, waiting_fits, unused_fit, well_formed};
ghost use Rattle.drive.specs.States.{is_state};

use super::record::words_at;
use super::runs;
use catalogue::Row;
use drive::State;

// Memory of the size of a part.
type Part = [u8; super::SIZE];

// The elements of a writable row are inside its limits.
fn limits_fit(part: &[u8], r: Row) -> bool
    ensures { result ≡ limits_fit part.now r }
{
    !r.writable || (0..r.count).all(|i| catalogue::is_inside(r, catalogue::element(part, r, i)))
}

// The elements of 930 and 965 are as fresh.
fn fixed_fits(part: &[u8], r: Row) -> bool
    ensures { result ≡ fixed_fit part.now r }
{
    let is_fixed = r.pnu == 930 || r.pnu == 965;
    !is_fixed || (0..r.count).all(|i| catalogue::element(part, r, i) == catalogue::fresh_of(r, i))
}

// The writable rows whose limits leave something out, each by its name: what a row allows is then known when this is compiled.
fn limited_rows_fit(part: &[u8]) -> bool
    ensures { result ≡ every_row (limits_fit part.now) rows }
{
    limits_fit(part, catalogue::ROW_10111)
        && limits_fit(part, catalogue::ROW_30001)
        && limits_fit(part, catalogue::ROW_30002)
        && limits_fit(part, catalogue::ROW_30003)
        && limits_fit(part, catalogue::ROW_30004)
}

fn fixed_rows_fit(part: &[u8]) -> bool
    ensures { result ≡ every_row (fixed_fit part.now) rows }
{
    fixed_fits(part, catalogue::ROW_930) && fixed_fits(part, catalogue::ROW_965)
}

// In a situation no code stands after a 0 or twice.
fn situation_fits(s: &[u16]) -> bool
    ensures { result ≡ proper s.now }
{
    for (i, code) in s.iter().enumerate() {
        let others = &s[i + 1..];
        if *code == 0 {
            return others.iter().all(|x| *x == 0);
        }
        if others.contains(code) {
            return false;
        }
    }
    true
}

// Each situation by itself, by its place, as `words_at` takes it. A function of its own, since few parts come to it, and `well_formed` then saves
// fewer registers.
#[inline(never)]
fn situations_fit(part: &Part) -> bool
    ensures { result ≡ proper_faults (faults_of part.now) }
{
    (0..drive::faults::SITUATIONS).all(|k| {
        let at = catalogue::AT_947 as usize + k * (drive::faults::CODES * 2);
        let codes: [u16; drive::faults::CODES] = words_at(part, at);
        situation_fits(&codes)
    })
}

// Whether no situation has a second code: mostly so, and then all are in order. No early exit, as in `join_all`, and by places: of a
// chunk for each the first code would be cut off again.
fn are_single(part: &Part) -> bool
    ensures { result ≡ true → proper_faults (faults_of part.now) ≡ true }
{
    let mut seen: u8 = 0;
    for k in 0..drive::faults::SITUATIONS {
        let at = catalogue::AT_947 as usize + k * (drive::faults::CODES * 2) + 2;
        let end = at + (drive::faults::CODES - 1) * 2;
        seen |= runs::join_all(&part[at..end]);
    }
    seen == 0
}

// Mostly no code stands in the buffer, and one look at its bytes settles it.
fn faults_fit(part: &Part) -> bool
    ensures { result ≡ proper_faults (faults_of part.now) }
{
    let buffer = &part[catalogue::AT_947 as usize..catalogue::AT_965 as usize];
    runs::is_clear(buffer) || are_single(part) || situations_fit(part)
}

// The waiting response is none or a readable block of that axis.
#[tactic(auto, unfolding(crate::specs::WellFormed::waiting_fits))]
fn waiting_fits(part: &Part, axis: u8) -> bool
    ensures { result ≡ waiting_fits axis part.now }
{
    let n = super::waiting_length(part);
    if n == 0 {
        return true;
    }
    let block = super::response::waiting(part);
    usize::from(n) <= blocks::BLOCK_LIMIT
        && blocks::response_readable(block)
        && blocks::header_of(block).axis == axis
}

// Unused response bytes are 0.
fn unused_fits(part: &Part) -> bool
    ensures { result ≡ unused_fit part.now }
{
    // Mostly none waits, and where they start is then known when this is compiled.
    if super::waiting_length(part) == 0 {
        return runs::is_clear(&part[super::RESPONSE..super::VERSIONS]);
    }
    let start = super::RESPONSE + super::response::waiting(part).len();
    runs::is_clear(&part[start..super::VERSIONS])
}

// The tests of the rule in its order, on memory of the right size.
fn fits(part: &Part, axis: u8) -> bool
    ensures { result ≡ well_formed axis part.now }
{
    State::try_from(codes::byte_at(part, super::STATE)).is_ok()
        && limited_rows_fit(part)
        && fixed_rows_fit(part)
        && faults_fit(part)
        && waiting_fits(part, axis)
        && unused_fits(part)
        && versions::fit(&part[super::VERSIONS..])
}

// Whether the part of an axis is well-formed.
pub fn well_formed(part: &[u8], axis: u8) -> bool
    ensures { result ≡ well_formed axis part.now }
{
    match <&Part>::try_from(part) {
        Ok(part) => fits(part, axis),
        Err(_) => false,
    }
}
