// Numbers low byte first: the compiler makes one load of their bytes, and compares many at a time.
ghost use Rattle.std.specs.Prelude.{◌≡◌, ◌≤◌, length};
ghost use Rattle.versions.specs.Low.{low_number, low_bytes};

// The number in the bytes, which are four at most.
pub(crate) fn number_of(bytes: &[u8]) -> u32
    requires { length bytes.now ≤ 4 }
    ensures { result ≡ low_number (length bytes.now) bytes.now 0 }
{
    let n = bytes.len();
    let mut whole = [0u8; 4];
    whole[..n].copy_from_slice(bytes);
    u32::from_le_bytes(whole)
}

// Fills the bytes, which are four at most, with the low ones of x.
pub(crate) fn put_number(bytes: &mut [u8], x: u32)
    requires { length bytes.old ≤ 4 }
    ensures { bytes.new ≡ low_bytes (length bytes.old) x }
{
    let n = bytes.len();
    let whole = x.to_le_bytes();
    bytes.copy_from_slice(&whole[..n]);
}
