// A block worked on an axis's part.
#![tactic(auto)]

ghost use Rattle.std.specs.Prelude.{◌≡◌};
ghost use Rattle.access.specs.Work.{outcome_of, number_in, stored_in};

pub mod address;
mod change;
mod copies;
mod error;
mod read;
mod reply;

pub use error::{ParameterError, Refused};

// Works a block that was sent to an axis, and answers how many elements were stored: refused where it is not readable, names another axis, or would store something where the
// numbers of the versions are used up; else its response waits.
pub fn work(part: &mut [u8], axis: u8, block: &[u8]) -> Result<u16, Refused>
    ensures { (number_in result ≡ (outcome_of axis block.now part.old).number) × (stored_in result ≡ (outcome_of axis block.now part.old).stored) × (part.new ≡ (outcome_of axis block.now part.old).part) }
{
    if !blocks::request_readable(block) {
        return Err(Refused::Unreadable);
    }
    let h = blocks::header_of(block);
    if h.axis != axis {
        return Err(Refused::ForeignAxis);
    }
    if h.identifier == 1 {
        read::answer(part, block, h);
        return Ok(0);
    }
    change::answer(part, block, h)
}
