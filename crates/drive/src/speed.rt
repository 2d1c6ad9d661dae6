// Speeds in two units, normalised figures and revolutions per minute.
ghost use Rattle.std.specs.Prelude.{◌≡◌, nat_abs};
ghost use Rattle.drive.specs.Speed.{scale_of};

// A normalised figure: FULL is 100 %.
#[derive(Clone, Copy)]
pub struct N2(pub i16);

// Revolutions per minute.
#[derive(Clone, Copy)]
pub struct Rpm(pub i32);

const FULL: i32 = 16384;

// A number without its sign. No crate calls it any more; it stays as public and promises what it did.
pub fn size(z: i32) -> u32
    ensures { result ≡ nat_abs z }
{
    z.unsigned_abs()
}

// Only this function goes from normalised figures to revolutions.
pub fn scale(e: N2, reference: u16) -> Rpm
    ensures { result ≡ scale_of e reference }
{
    let z = i32::from(e.0) * i32::from(reference);
    Rpm(z / FULL) // cut toward zero
}
