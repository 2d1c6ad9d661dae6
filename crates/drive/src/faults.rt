// Steps 2 and 3: the fault buffer, situations of eight codes with the newest first, and the fault counter.
ghost use Rattle.std.specs.Prelude.{◌≡◌, ◌<◌, eqb, take};
ghost use Rattle.std.specs.List.{position};
ghost use Rattle.drive.specs.Faults.{situation_codes, no_faults, is_empty_of, acknowledged_of, put_of};
ghost use Rattle.drive.specs.Cycle.{acknowledges, after_ack, after_code};

use super::word::Word;

// How many situations the buffer holds.
pub const SITUATIONS: usize = 4;

// How many codes a situation holds.
pub const CODES: usize = 8;

// How many codes the buffer holds.
pub const BUFFER: usize = SITUATIONS * CODES;

// The buffer is one list and not four of eight: so PNU 947 counts its elements, and KeepsProper and KeepsLength speak of that list.
#[derive(Clone, Copy)]
pub struct Faults {
    pub counter: u16, // PNU 944
    pub buffer: [u16; BUFFER], // PNU 947
}

impl Faults {
    pub(crate) fn none() -> Faults
        ensures { result ≡ no_faults }
    {
        Faults {
            counter: 0,
            buffer: [0u16; BUFFER],
        }
    }

    // Whether situation 0 holds no code.
    pub fn is_empty(&self) -> bool
        ensures { result ≡ is_empty_of self.now }
    {
        self.buffer[0] == 0
    }

    // Where a code first stands in situation 0.
    fn place_of(&self, code: u16) -> Option<usize>
        ensures { result ≡ position (λ c. eqb c code) (take situation_codes self.now.buffer) }
    {
        self.buffer[..CODES].iter().position(|&c| c == code)
    }

    // Every situation moves down by one, the oldest is lost, situation 0 is empty. The counter goes from 65535 to 0.
    fn acknowledged(self) -> Faults
        ensures { result ≡ acknowledged_of self }
    {
        let mut buffer = [0u16; BUFFER];
        buffer[CODES..].copy_from_slice(&self.buffer[..BUFFER - CODES]);
        Faults {
            counter: self.counter.wrapping_add(1),
            buffer,
        }
    }

    // With a code at a place of situation 0.
    fn put(self, at: usize, code: u16) -> Faults
        requires { at < situation_codes }
        ensures { result ≡ put_of self at code }
    {
        let mut buffer = self.buffer;
        buffer[at] = code;
        Faults {
            counter: self.counter.wrapping_add(1),
            buffer,
        }
    }
}

// Step 2: only a rising bit 7 acknowledges.
#[tactic(auto, unfolding(crate::specs::Cycle::acknowledges))]
pub(crate) fn acknowledges(b: Word, last: Word, code: u16, f: Faults) -> bool
    ensures { result ≡ acknowledges b last code f }
{
    b.b7 && !last.b7 && code == 0 && !f.is_empty()
}

#[tactic(auto, unfolding(crate::specs::Cycle::after_ack))]
pub(crate) fn after_ack(acknowledges: bool, f: Faults) -> Faults
    ensures { result ≡ after_ack acknowledges f }
{
    if acknowledges { f.acknowledged() } else { f }
}

// Step 3: a code that situation 0 lacks goes to its end.
#[tactic(auto, unfolding(crate::specs::Cycle::after_code))]
pub(crate) fn after_code(code: u16, f: Faults) -> Faults
    ensures { result ≡ after_code code f }
{
    if code == 0 || f.place_of(code).is_some() {
        return f;
    }
    match f.place_of(0) {
        Some(end) => f.put(end, code),
        None => f, // a ninth code is dropped
    }
}
