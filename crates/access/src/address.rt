// What an address names: the elements of a parameter, or its error. Widening is written `as`: a proof reads on through it (decision 126).
ghost use Rattle.std.specs.Prelude.{◌≡◌, true, false, cond, eqb, Some};
ghost use Rattle.access.specs.declared.error.ParameterError.TheVariants.{NoDescription, NoText, BadAddress};
ghost use Rattle.access.specs.Address.{checked_in, checked};

use super::ParameterError;
use blocks::reader::Address;
use catalogue::Row;

// A simple parameter, where its values are asked for.
fn of_simple(a: Address, r: Row) -> Result<(Row, u16), ParameterError>
    requires { (a.attribute ≡ 0x10) × (r.simple ≡ true) }
    ensures { result ≡ checked_in a (Some r) }
{
    if a.subindex == 0 && a.elements <= 1 {
        Ok((r, 1))
    } else {
        Err(ParameterError::NoArray)
    }
}

// An array, where its values are asked for.
fn of_array(a: Address, r: Row) -> Result<(Row, u16), ParameterError>
    requires { (a.attribute ≡ 0x10) × (r.simple ≡ false) }
    ensures { result ≡ checked_in a (Some r) }
{
    if a.elements == 0 {
        return Err(ParameterError::BadAddress);
    }
    if (r.count as usize) < (a.subindex as usize) + (a.elements as usize) {
        return Err(ParameterError::PastTheEnd);
    }
    Ok((r, a.elements as u16))
}

// What asks for no values.
fn of_attribute(attribute: u8) -> ParameterError
    ensures { result ≡ cond (eqb attribute 0x20) NoDescription (cond (eqb attribute 0x30) NoText BadAddress) }
{
    match attribute {
        0x20 => ParameterError::NoDescription,
        0x30 => ParameterError::NoText,
        _ => ParameterError::BadAddress,
    }
}

fn of_row(a: Address, r: Row) -> Result<(Row, u16), ParameterError>
    ensures { result ≡ checked_in a (Some r) }
{
    if a.attribute != 0x10 {
        return Err(of_attribute(a.attribute));
    }
    if r.simple {
        of_simple(a, r)
    } else {
        of_array(a, r)
    }
}

// The row whose elements an address names, from its sub-index on, and how many they are; or its error. It stands in the place of its calls:
// a call would hand a whole row over in memory.
#[inline(always)]
pub fn check(a: Address) -> Result<(Row, u16), ParameterError>
    ensures { result ≡ checked a }
{
    let Some(r) = catalogue::find(a.pnu) else {
        return Err(ParameterError::NoSuchParameter);
    };
    of_row(a, r)
}
