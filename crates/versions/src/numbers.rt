// The numbers of the versions that are kept.
ghost use Rattle.std.specs.Prelude.{◌≡◌};
ghost use Rattle.versions.specs.Layout.{last_used, kept_count, oldest};
ghost use Rattle.versions.specs.Version.{is_kept};

const MOST: u16 = super::SLOTS as u16;

// The kept numbers are `oldest` .. `oldest + count - 1`. Both are promised of every list, an empty one too, and C is handed both.
#[derive(Clone, Copy)]
pub struct Kept {
    pub oldest: u16,
    pub count: u16,
}

// The last number used; 0 where none is, or in a slice of another size: the promise is `last_used`, from which the next number is one more.
pub fn last_used(v: &[u8]) -> u16
    ensures { result ≡ last_used v.now }
{
    if v.len() != super::SIZE {
        return 0;
    }
    u16::from_le_bytes([v[super::LAST], v[super::LAST + 1]])
}

pub fn list(v: &[u8]) -> Kept
    ensures { (result.oldest ≡ oldest v.now) × (result.count ≡ kept_count v.now) }
{
    let last = last_used(v);
    let count = last.min(MOST);
    Kept {
        oldest: last - count + 1,
        count,
    }
}

// Whether version n is kept; a number of any width, so that none is cut to one that is.
pub fn is_kept(v: &[u8], n: u32) -> bool
    ensures { result ≡ is_kept n v.now }
{
    let k = list(v);
    u32::from(k.oldest) <= n && n <= u32::from(last_used(v))
}
