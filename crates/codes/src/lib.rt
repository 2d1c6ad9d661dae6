// Numbers in byte slices, high byte first.
#![tactic(auto)]

ghost use Rattle.std.specs.Prelude.{◌≡◌, [], ◌↔◌, ◌+◌, ◌≤◌, IsTrue, length};
ghost use Rattle.codes.specs.Code.{got, word};
ghost use Rattle.codes.specs.Number.{number_at, put};

// Whether w bytes stand at `at` in a slice of `len` bytes.
pub fn stands(len: usize, at: usize, w: usize) -> bool
    ensures { IsTrue result ↔ (at + w ≤ len) }
{
    w <= len && at <= len - w
}

// The number that at most four bytes are, high byte first.
fn number_of(bytes: &[u8]) -> u32
    requires { length bytes.now ≤ 4 }
    ensures { (word (length bytes.now)).read bytes.now ≡ got result [] }
{
    let mut x: u32 = 0;
    for b in bytes {
        x = x * 256 + u32::from(*b);
    }
    x
}

// The number in the w bytes at `at`; 0 where they do not all stand in the slice, or are more than four: as `number_at` of specs/ promises, which
// the tables, addresses and records above are read by. The two after it differ in what they answer, a line each.
pub fn number_at(s: &[u8], at: usize, w: usize) -> u32
    ensures { result ≡ number_at w s.now at }
{
    if w <= 4 && stands(s.len(), at, w) {
        number_of(&s[at..at + w])
    } else {
        0
    }
}

#[tactic(auto, using(crate::proofs::Number::number_small))]
pub fn byte_at(s: &[u8], at: usize) -> u8
    ensures { result ≡ number_at 1 s.now at }
{
    number_at(s, at, 1) as u8
}

#[tactic(auto, using(crate::proofs::Number::number_small))]
pub fn word_at(s: &[u8], at: usize) -> u16
    ensures { result ≡ number_at 2 s.now at }
{
    number_at(s, at, 2) as u16
}

// Writes the low w bytes of x at `at`; nothing where they do not all fit.
pub fn put_number(out: &mut [u8], at: usize, w: usize, x: u32)
    ensures { out.new ≡ put out.old at ((word w).write x) }
{
    if !stands(out.len(), at, w) {
        return;
    }
    let mut rest = x;
    for i in (at..at + w).rev() {
        out[i] = (rest % 256) as u8;
        rest /= 256;
    }
}

// Writes `from` at `at`; nothing where it does not all fit.
pub fn put_bytes(out: &mut [u8], at: usize, from: &[u8])
    ensures { out.new ≡ put out.old at from.now }
{
    if !stands(out.len(), at, from.len()) {
        return;
    }
    // By places: copied by the library, the archive would want `memmove` of its host.
    for (i, &b) in from.iter().enumerate() {
        out[at + i] = b;
    }
}
