// The lines of a journal.
ghost use Rattle.std.specs.Prelude.{◌≡◌, [], ◌∷◌, ◌++◌, ◌≤◌, length};
ghost use Rattle.journal.specs.Text.{decimal, signed, hex_word};
ghost use Rattle.journal.specs.Written.{room, Wrote};
ghost use Rattle.journal.specs.Line.{space, state_name, refused_line, cycle_line, reply_text, frame_letter, frame_line, return_line, bad_line};

use super::writing::{SPACE, Text};
use station::{Cycled, Framed, Returned};

// What a line begins with: a letter and a number.
fn put_head(text: &mut Text, letter: u8, x: u32)
    requires { room 12 text.old }
    ensures { Wrote 12 (letter ∷ space ∷ decimal x) text.old text.new }
{
    text.put_byte(letter);
    text.put_byte(SPACE);
    text.put_decimal(x);
}

// The line of a refusal.
fn put_refused(text: &mut Text, number: u8)
    requires { room 13 text.old }
    ensures { Wrote 13 (refused_line number ++ (0x0A ∷ [])) text.old text.new }
{
    put_head(text, b'x', u32::from(number));
    text.put_byte(b'\n');
}

// A state's name, after a space.
fn put_state(text: &mut Text, state: u8)
    requires { room 12 text.old }
    ensures { Wrote 12 (space ∷ state_name state) text.old text.new }
{
    text.put_byte(SPACE);
    text.put_byte(b'S');
    text.put_decimal(u32::from(state));
}

// A status word, after a space.
fn put_status(text: &mut Text, status: u16)
    requires { room 5 text.old }
    ensures { Wrote 5 (space ∷ hex_word status) text.old text.new }
{
    text.put_byte(SPACE);
    text.put_hex_word(status);
}

// Revolutions, after a space.
fn put_speed(text: &mut Text, rpm: i32)
    requires { room 12 text.old }
    ensures { Wrote 12 (space ∷ signed rpm) text.old text.new }
{
    text.put_byte(SPACE);
    text.put_signed(rpm);
}

// What a cycle answered, by `c`, or by `x` where it was refused: by the number that the C interface hands on, here and below.
pub(crate) fn put_cycle(text: &mut Text, axis: u8, c: Cycled)
    requires { room 42 text.old }
    ensures { Wrote 42 (cycle_line axis c ++ (0x0A ∷ [])) text.old text.new }
{
    if c.number != 0 {
        return put_refused(text, c.number);
    }
    put_head(text, b'c', u32::from(axis));
    put_state(text, c.state);
    put_status(text, c.status);
    put_speed(text, c.rpm);
    text.put_byte(b'\n');
}

// A number of 16 bits, after a space: how many elements were stored, or that of a version.
fn put_count(text: &mut Text, stored: u16)
    requires { room 11 text.old }
    ensures { Wrote 11 (space ∷ decimal stored) text.old text.new }
{
    text.put_byte(SPACE);
    text.put_decimal(u32::from(stored));
}

// A reply in hex, after a space; an empty one is `-`.
fn put_reply(text: &mut Text, reply: &[u8])
    requires { (length reply.now ≤ 244) × room 489 text.old }
    ensures { Wrote 489 (space ∷ reply_text reply.now) text.old text.new }
{
    text.put_byte(SPACE);
    if reply.is_empty() {
        return text.put_byte(b'-');
    }
    text.put_hex_bytes(reply);
}

// What the line of a frame, by itself or as the merged call, begins with.
fn frame_letter(merged: bool) -> u8
    ensures { result ≡ frame_letter merged }
{
    if merged { b'e' } else { b'f' }
}

// What a frame answered; the reply stands at the start of its memory.
pub(crate) fn put_frame(text: &mut Text, merged: bool, farm: u8, f: Framed, reply: &[u8])
    requires { (f.length ≤ 244) × ((length reply.now ≡ 244) × room 513 text.old) }
    ensures { Wrote 513 (frame_line merged farm f reply.now ++ (0x0A ∷ [])) text.old text.new }
{
    let n = usize::from(f.length);
    put_head(text, frame_letter(merged), u32::from(farm));
    put_count(text, f.stored);
    put_reply(text, &reply[..n]);
    text.put_byte(b'\n');
}

// What a going back answered, by `g`, or by `x` where it was refused.
pub(crate) fn put_return(text: &mut Text, farm: u8, r: Returned)
    requires { room 35 text.old }
    ensures { Wrote 35 (return_line farm r ++ (0x0A ∷ [])) text.old text.new }
{
    if r.number != 0 {
        return put_refused(text, r.number);
    }
    put_head(text, b'g', u32::from(farm));
    put_count(text, r.stored);
    put_count(text, r.version);
    text.put_byte(b'\n');
}

// What is written of bytes that are no record.
pub(crate) fn put_bad(text: &mut Text)
    requires { room 4 text.old }
    ensures { Wrote 4 bad_line text.old text.new }
{
    text.put_bytes(b"bad\n");
}
