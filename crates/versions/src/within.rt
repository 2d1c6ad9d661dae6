// Versions that stand in the part itself, from `at` to its end. The promises hold for every `at`, also for one inside the elements, so the
// two are not lent side by side: what is read is copied first. Of these three each is its own definition, and what they share has a name.
ghost use Rattle.std.specs.Prelude.{◌≡◌, ◌+◌, ◌≤◌, eqb, length, take};
ghost use Rattle.catalogue.specs.Table.{parameter_bytes};
ghost use Rattle.versions.specs.Layout.{version_bytes};
ghost use Rattle.versions.specs.Keep.{taken_within, filled_within, restored_within};

const PARAMETERS: usize = catalogue::PARAMETER_BYTES as usize;

// Whether versions stand from `at` on.
fn stand_from(part: &[u8], at: usize) -> bool
    ensures { result ≡ eqb (length part.now) (at + version_bytes) }
{
    part.len().checked_sub(at) == Some(super::SIZE)
}

// The part's elements.
fn elements_of(part: &[u8]) -> [u8; PARAMETERS]
    requires { parameter_bytes ≤ length part.now }
    ensures { result ≡ take parameter_bytes part.now }
{
    let mut elements = [0u8; PARAMETERS];
    elements.copy_from_slice(&part[..PARAMETERS]);
    elements
}

// The part's settings become its next version; nothing changes where no versions stand from `at` on.
pub fn take_within(part: &mut [u8], at: usize)
    ensures { part.new ≡ taken_within at part.old }
{
    if stand_from(part, at) {
        let elements = elements_of(part);
        super::keep::take(&mut part[at..], &elements);
    }
}

// No version: every slot holds the part's settings; nothing changes where no versions stand from `at` on.
pub fn fill_within(part: &mut [u8], at: usize)
    ensures { part.new ≡ filled_within at part.old }
{
    if stand_from(part, at) {
        let elements = elements_of(part);
        super::keep::fill(&mut part[at..], &elements);
    }
}

// The part's settings become those of its version n, which is kept.
pub fn restore_within(part: &mut [u8], at: usize, n: u16)
    ensures { part.new ≡ restored_within at n part.old }
{
    if stand_from(part, at) {
        let mut v = [0u8; super::SIZE];
        v.copy_from_slice(&part[at..]);
        super::keep::restore(&v, part, n);
    }
}
