// A part's settings into a slot, and a slot's into the part's elements.
ghost use Rattle.std.specs.Prelude.{◌≡◌, ◌+◌, ◌≤◌, ◌<◌};
ghost use Rattle.catalogue.specs.Table.{element_size};
ghost use Rattle.versions.specs.Layout.{columns, columns_of, place_in, slot_of};
ghost use Rattle.versions.specs.Keep.{take_elements, take_columns, taken, give_elements, give_columns, restored, filled};

use super::slot::Slot;
use super::{Columns, SIZE, Versions};

impl Columns {
    // Where element e of a slot stands.
    fn place_of(self, e: u16, slot: Slot) -> usize
        requires { (e < self.row.count) × (self.at + columns_of self.row ≤ SIZE) }
        ensures { (result ≡ place_in self e slot.at) × (result + element_size self.row.kind ≤ self.at + columns_of self.row) }
    {
        self.at + (usize::from(e) * super::SLOTS + slot.at) * catalogue::element_size(self.row.kind)
    }

    // The elements of the row into a slot.
    fn take(self, v: &mut Versions, part: &[u8], slot: Slot)
        requires { self.at + columns_of self.row ≤ SIZE }
        ensures { v.new ≡ take_elements self slot.at part.now self.row.count v.old }
    {
        let size = catalogue::element_size(self.row.kind);
        for e in 0..self.row.count {
            let at = self.place_of(e, slot);
            super::low::put_number(&mut v[at..at + size], catalogue::element(part, self.row, e));
        }
    }

    // A slot's numbers into the elements of the row.
    fn give(self, part: &mut [u8], v: &Versions, slot: Slot)
        requires { self.at + columns_of self.row ≤ SIZE }
        ensures { part.new ≡ give_elements self slot.at v.now self.row.count part.old }
    {
        let size = catalogue::element_size(self.row.kind);
        for e in 0..self.row.count {
            let at = self.place_of(e, slot);
            catalogue::put_element(part, self.row, e, super::low::number_of(&v[at..at + size]));
        }
    }
}

// Each row by its name, since then the compiler knows what stands where: by a loop over them a change takes some 1,250 instructions more,
// and a going back three times as many.
fn take_rows(v: &mut Versions, part: &[u8], slot: Slot)
    ensures { v.new ≡ take_columns columns slot.at part.now v.old }
{
    super::COLUMNS_9900.take(v, part, slot);
    super::COLUMNS_9901.take(v, part, slot);
    super::COLUMNS_10111.take(v, part, slot);
    super::COLUMNS_30001.take(v, part, slot);
    super::COLUMNS_30002.take(v, part, slot);
    super::COLUMNS_30003.take(v, part, slot);
    super::COLUMNS_30004.take(v, part, slot);
}

// Each by its name here too.
fn give_rows(part: &mut [u8], v: &Versions, slot: Slot)
    ensures { part.new ≡ give_columns columns slot.at v.now part.old }
{
    super::COLUMNS_9900.give(part, v, slot);
    super::COLUMNS_9901.give(part, v, slot);
    super::COLUMNS_10111.give(part, v, slot);
    super::COLUMNS_30001.give(part, v, slot);
    super::COLUMNS_30002.give(part, v, slot);
    super::COLUMNS_30003.give(part, v, slot);
    super::COLUMNS_30004.give(part, v, slot);
}

// The part's settings become the next version; a slice of another size is left as it is. The caller has seen that the last number is
// below 65535.
pub(crate) fn take(v: &mut [u8], part: &[u8])
    ensures { v.new ≡ taken part.now v.old }
{
    let Some(v) = v.as_mut_array::<SIZE>() else {
        return;
    };
    let last = super::last_used(v);
    let slot = Slot {
        at: usize::from(last) % super::SLOTS,
    };
    take_rows(v, part, slot);
    super::low::put_number(&mut v[super::LAST..], u32::from(last) + 1);
}

// The slot of version n.
fn slot_of(n: u16) -> Slot
    ensures { result.at ≡ slot_of n }
{
    Slot {
        at: usize::from(n.saturating_sub(1)) % super::SLOTS,
    }
}

// The part's settings become those of version n, which is kept; where v has another size, nothing changes.
pub(crate) fn restore(v: &[u8], part: &mut [u8], n: u16)
    ensures { part.new ≡ restored v.now n part.old }
{
    if let Some(v) = v.as_array::<SIZE>() {
        give_rows(part, v, slot_of(n));
    }
}

// No version: every slot holds the part's settings.
pub(crate) fn fill(v: &mut [u8], part: &[u8])
    ensures { v.new ≡ filled part.now v.old }
{
    let Some(v) = v.as_mut_array::<SIZE>() else {
        return;
    };
    for at in 0..super::SLOTS {
        take_rows(v, part, Slot { at });
    }
    super::low::put_number(&mut v[super::LAST..], 0);
}
