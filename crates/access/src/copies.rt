// Bytes copied from slice to slice.
ghost use Rattle.std.specs.Prelude.{◌≡◌, ◌+◌, ◌≤◌, length, take, drop};
ghost use Rattle.codes.specs.Number.{put};

// Copies two bytes. Both are read before one is written, so that they go as one word: by put_bytes a write of one element took 9 more
// instructions.
fn copy_two(out: &mut [u8], at: usize, s: &[u8], from: usize)
    requires { (at + 2 ≤ length out.old) × (from + 2 ≤ length s.now) }
    ensures { out.new ≡ put out.old at (take 2 (drop from s.now)) }
{
    let x = s[from];
    let y = s[from + 1];
    out[at] = x;
    out[at + 1] = y;
}

// Copies n bytes that stand in `s` and fit in `out`. Two, the bytes of one word, are by far the most frequent; by places, so that they are told
// apart before a slice is cut.
pub(crate) fn copy(out: &mut [u8], at: usize, s: &[u8], from: usize, n: usize)
    requires { (at + n ≤ length out.old) × (from + n ≤ length s.now) }
    ensures { out.new ≡ put out.old at (take n (drop from s.now)) }
{
    if n == 2 {
        copy_two(out, at, s, from);
    } else {
        codes::put_bytes(out, at, &s[from..from + n]);
    }
}
