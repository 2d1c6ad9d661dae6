// The text of a report.
ghost use Rattle.std.specs.Prelude.{◌≡◌, ◌++◌, ◌*◌, ◌≤◌, length, drop};
ghost use Rattle.journal.specs.Written.{room, Wrote};
ghost use Rattle.season.specs.Report.{spaced, farm_line, lines_to, last_line, report_text};

use super::{COUNTS, EACH, Stop, TEXT};
use journal::Text;
use station::FARMS;

// Numbers, each after a space.
fn put_spaced(text: &mut Text, numbers: &[u64])
    requires { room (21 * length numbers.now) text.old }
    ensures { Wrote (21 * length numbers.now) (spaced numbers.now) text.old text.new }
{
    for &number in numbers {
        text.put_spaced_number(number);
    }
}

// The line of a farm.
fn put_line(text: &mut Text, totals: &[u64; COUNTS], farm: usize)
    requires { (1 ≤ farm) × ((farm ≤ 16) × room 233 text.old) }
    ensures { Wrote 233 (farm_line farm totals.now) text.old text.new }
{
    let first = (farm - 1) * EACH;
    text.put_bytes(b"r");
    text.put_spaced_number(farm as u64);
    put_spaced(text, &totals[first..first + EACH]);
    text.put_bytes(b"\n");
}

// The lines of all farms, in farm order.
fn put_lines(text: &mut Text, totals: &[u64; COUNTS])
    requires { room 3728 text.old }
    ensures { Wrote 3728 (lines_to 16 totals.now) text.old text.new }
{
    for farm in 1..=FARMS {
        put_line(text, totals, farm);
    }
}

// What ends a report.
fn put_end(text: &mut Text, last: Result<(), Stop>)
    requires { room 5 text.old }
    ensures { Wrote 5 (last_line last) text.old text.new }
{
    match last {
        Ok(()) => {}
        Err(Stop::Bad) => text.put_bytes(b"bad\n"),
        Err(Stop::Over) => text.put_bytes(b"x 13\n"),
    }
}

// A report's text, by the totals and by how the last record came out. Answers how long it is: the rest of the memory stays as it was, which
// `text_after` promises.
pub fn put_report(totals: &[u64; COUNTS], last: Result<(), Stop>, text: &mut [u8; TEXT]) -> usize
    ensures text_after { text.new ≡ report_text totals.now last ++ drop result text.old }
    ensures value { (result ≡ length (report_text totals.now last)) × (result ≤ 3733) }
{
    let mut report = Text::new(text);
    put_lines(&mut report, totals);
    put_end(&mut report, last);
    report.len()
}
