// The drive record of an axis, in and out of its part.
ghost use Rattle.std.specs.Prelude.{◌≡◌, ◌+◌, ◌*◌, ◌^◌, ◌<◌};
ghost use Rattle.codes.specs.Code.{word, write_all};
ghost use Rattle.codes.specs.Number.{put};
ghost use Rattle.drive.specs.Faults.{buffer_codes, is_empty_of};
ghost use Rattle.drive.specs.Motion.{motion_of};
ghost use Rattle.catalogue.specs.Table.{offset_of};
ghost use Rattle.part.specs.Record.{words_at, speed_at, faults_of, drive_of, put_word, put_speed, put_faults, put_motion, put_drive};
ghost use Rattle.drive.specs.States.{number_of, state_of};

use drive::faults::BUFFER;
use drive::{Drive, Faults, Motion, N2, State};

fn speed_at(part: &[u8], at: usize) -> N2
    ensures { result ≡ speed_at part.now at }
{
    N2(codes::word_at(part, at).cast_signed())
}

// N words, one after the other from `at` on.
pub(crate) fn words_at<const N: usize>(part: &[u8], at: usize) -> [u16; N]
    requires { at + N * 2 < 2 ^ 64 }
    ensures { result ≡ words_at N part.now at }
{
    std::array::from_fn(|i| codes::word_at(part, at + i * 2))
}

// The faults that a part holds.
pub fn load_faults(part: &[u8]) -> Faults
    ensures { result ≡ faults_of part.now }
{
    Faults {
        counter: codes::word_at(part, catalogue::AT_944 as usize),
        buffer: words_at(part, catalogue::AT_947 as usize),
    }
}

// Whether situation 0 holds no code.
pub fn has_no_fault(part: &[u8]) -> bool
    ensures { result ≡ is_empty_of (faults_of part.now) }
{
    codes::word_at(part, catalogue::AT_947 as usize) == 0
}

// The drive record that a part holds, but for its faults.
pub fn load_motion(part: &[u8]) -> Motion
    ensures { result ≡ motion_of (drive_of part.now) }
{
    Motion {
        state: State::try_from(codes::byte_at(part, super::STATE)).unwrap_or(State::S1),
        word: codes::word_at(part, catalogue::AT_10100 as usize),
        setpoint: speed_at(part, catalogue::AT_10101 as usize),
        effective: speed_at(part, super::EFFECTIVE),
        status: codes::word_at(part, catalogue::AT_10102 as usize),
        actual: speed_at(part, catalogue::AT_10103 as usize),
    }
}

fn put_word(part: &mut [u8], at: usize, x: u16)
    ensures { part.new ≡ put_word at x part.old }
{
    codes::put_number(part, at, 2, u32::from(x));
}

fn put_speed(part: &mut [u8], at: usize, v: N2)
    ensures { part.new ≡ put_speed at v part.old }
{
    put_word(part, at, v.0.cast_unsigned());
}

// The codes of every situation; nothing where they do not all fit.
fn put_codes(part: &mut [u8], b: [u16; BUFFER])
    ensures { part.new ≡ put part.old (offset_of 947) (write_all (word 2).write b) }
{
    if part.len() < catalogue::AT_965 as usize {
        return;
    }
    for (i, code) in b.iter().enumerate() {
        put_word(part, catalogue::AT_947 as usize + i * 2, *code);
    }
}

fn put_faults(part: &mut [u8], f: Faults)
    ensures { part.new ≡ put_faults f part.old }
{
    put_word(part, catalogue::AT_944 as usize, f.counter);
    put_codes(part, f.buffer);
}

// The part with another drive record, but for its faults.
pub fn store_motion(part: &mut [u8], m: Motion)
    ensures { part.new ≡ put_motion m part.old }
{
    codes::put_number(part, super::STATE, 1, u32::from(u8::from(m.state)));
    put_word(part, catalogue::AT_10100 as usize, m.word);
    put_speed(part, catalogue::AT_10101 as usize, m.setpoint);
    put_speed(part, super::EFFECTIVE, m.effective);
    put_word(part, catalogue::AT_10102 as usize, m.status);
    put_speed(part, catalogue::AT_10103 as usize, m.actual);
}

// The part with another drive record.
pub fn store(part: &mut [u8], d: Drive)
    ensures { part.new ≡ put_drive d part.old }
{
    store_motion(part, drive::motion_of(d));
    put_faults(part, d.faults);
}
