// Text, written in memory that is lent. Digits are put one by one: the library promises what it prints only where that is Ok, and never that it
// is, and a line is promised of every record (`record_line`).
ghost use Rattle.std.specs.Prelude.{◌≡◌, ◌∷◌, ◌++◌, ◌*◌, ◌≤◌, ◌<◌, length, drop};
ghost use Rattle.journal.specs.Text.{digit, decimal, hex_bytes};
ghost use Rattle.journal.specs.Line.{space};
ghost use Rattle.codes.specs.Number.{put};

// The most digits of a number of 32 bits, and of 64, less one.
const DIGITS_32: usize = 9;

const DIGITS_64: usize = 19;

// Bytes of a space and of a number of 64 bits.
const NUMBER: usize = 21;

pub(crate) const SPACE: u8 = b' ';

// The memory that is lent, and how many bytes of it are written.
#[derive(Drop)]
pub struct Text<'a> {
    memory: &'a mut [u8],
    written: usize,
    ghost within: { written ≤ length memory.now },
}

// A digit, below 16.
fn digit(d: u8) -> u8
    requires { d < 16 }
    ensures { result ≡ digit d }
{
    if d < 10 { b'0' + d } else { b'A' + (d - 10) }
}

// Bytes in two digits each. By places, in a slice of their own: byte by byte at the end of a text, long replies took more than twice as long.
fn put_hex(digits: &mut [u8], bytes: &[u8])
    requires { length digits.old ≡ 2 * length bytes.now }
    ensures { digits.new ≡ hex_bytes bytes.now }
{
    for (i, &b) in bytes.iter().enumerate() {
        let high = digit(b / 16);
        let low = digit(b % 16);
        digits[2 * i] = high;
        digits[2 * i + 1] = low;
    }
}

impl<'a> Text<'a> {
    ghost use Rattle.std.specs.Prelude.{◌≡◌, [], ◌∷◌, ◌+◌, ◌*◌, ◌≤◌, ◌<◌, length};
    ghost use Rattle.journal.specs.Text.{decimal_in, decimal, signed, hex_byte, hex_word, hex_bytes};
    ghost use Rattle.journal.specs.Line.{space};
    ghost use Rattle.journal.specs.Written.{room, Wrote, WroteIfFits};

    // No text yet.
    pub fn new(memory: &'a mut [u8]) -> Text<'a>
        ensures same_memory { result.memory.ghost_name ≡ memory.entry.ghost_name }
        ensures memory_value { result.memory.now ≡ memory.old }
        ensures none { result.written ≡ 0 }
    {
        Text { memory, written: 0 }
    }

    // How long it is.
    pub fn len(&self) -> usize
        ensures value { result ≡ self.now.written }
        ensures bound { result ≤ length self.now.memory.now }
    {
        self.written // the text's length, not the memory's
    }

    pub(crate) fn put_byte(&mut self, b: u8)
        requires { room 1 self.old }
        ensures { Wrote 1 (b ∷ []) self.old self.new }
    {
        self.memory[self.written] = b;
        self.written += 1;
    }

    // Nothing where they do not all fit.
    pub fn put_bytes(&mut self, bytes: &[u8])
        ensures { WroteIfFits bytes.now self.old self.new }
    {
        if self.memory.len() - self.written < bytes.len() {
            return;
        }
        let end = self.written + bytes.len();
        self.memory[self.written..end].copy_from_slice(bytes);
        self.written = end;
    }

    // At most n + 1 digits of x.
    fn put_decimal_in(&mut self, n: usize, x: u64)
        requires { room (n + 1) self.old }
        ensures { Wrote (n + 1) (decimal_in n x) self.old self.new }
    {
        if n == 0 {
            return self.put_byte(digit((x % 10) as u8));
        }
        if x < 10 {
            return self.put_byte(digit(x as u8));
        }
        self.put_decimal_in(n - 1, x / 10);
        self.put_byte(digit((x % 10) as u8));
    }

    pub(crate) fn put_decimal(&mut self, x: u32)
        requires { room 10 self.old }
        ensures { Wrote 10 (decimal x) self.old self.new }
    {
        self.put_decimal_in(DIGITS_32, u64::from(x));
    }

    pub(crate) fn put_signed(&mut self, v: i32)
        requires { room 11 self.old }
        ensures { Wrote 11 (signed v) self.old self.new }
    {
        if v < 0 {
            self.put_byte(b'-');
        }
        self.put_decimal(v.unsigned_abs());
    }

    fn put_hex_byte(&mut self, b: u8)
        requires { room 2 self.old }
        ensures { Wrote 2 (hex_byte b) self.old self.new }
    {
        self.put_byte(digit(b / 16));
        self.put_byte(digit(b % 16));
    }

    pub(crate) fn put_hex_word(&mut self, w: u16)
        requires { room 4 self.old }
        ensures { Wrote 4 (hex_word w) self.old self.new }
    {
        let [high, low] = w.to_be_bytes();
        self.put_hex_byte(high);
        self.put_hex_byte(low);
    }

    pub(crate) fn put_hex_bytes(&mut self, bytes: &[u8])
        requires { room (2 * length bytes.now) self.old }
        ensures { Wrote (2 * length bytes.now) (hex_bytes bytes.now) self.old self.new }
    {
        let end = self.written + 2 * bytes.len();
        put_hex(&mut self.memory[self.written..end], bytes);
        self.written = end;
    }

    // A space and a number; nothing where they do not all fit. Answers how many bytes they are.
    pub fn put_spaced_number(&mut self, x: u64) -> usize
        ensures text_after { WroteIfFits (space ∷ decimal x) self.old self.new }
        ensures value { (result ≡ length (space ∷ decimal x)) × (result ≤ 21) }
    {
        let mut piece = [0u8; NUMBER];
        let n = spaced_number(&mut piece, x);
        self.put_bytes(&piece[..n]);
        n
    }
}

// A space and a number, in a memory of its own. Answers how many bytes they are.
fn spaced_number(memory: &mut [u8; NUMBER], x: u64) -> usize
    ensures memory_after { memory.new ≡ (space ∷ decimal x) ++ drop result memory.old }
    ensures value { (result ≡ length (space ∷ decimal x)) × (result ≤ 21) }
{
    let mut text = Text::new(memory);
    text.put_byte(SPACE);
    text.put_decimal_in(DIGITS_64, x);
    text.len()
}

// The same at a place of a line of any kind. No crate calls it any more; it stays as public and promises what it did.
pub fn put_spaced_number(line: &mut [u8], at: usize, x: u64) -> usize
    ensures line_after { line.new ≡ put line.old at (space ∷ decimal x) }
    ensures value { (result ≡ length (space ∷ decimal x)) × (result ≤ 21) }
{
    let mut piece = [0u8; NUMBER];
    let n = spaced_number(&mut piece, x);
    codes::put_bytes(line, at, &piece[..n]);
    n
}
