// A fresh part: every byte 0 but for the state, the fresh values of the table, and the slots of the versions, which hold these too.
ghost use Rattle.std.specs.Prelude.{◌≡◌};
ghost use Rattle.catalogue.specs.Table.{rows};
ghost use Rattle.part.specs.Fresh.{fresh_elements, fresh_rows, fresh_over};

use catalogue::Row;
use drive::State;

fn fresh_row(part: &mut [u8], r: Row)
    ensures { part.new ≡ fresh_elements r r.count part.old }
{
    for i in 0..r.count {
        catalogue::put_element(part, r, i, catalogue::fresh_of(r, i));
    }
}

fn fresh_rows(part: &mut [u8])
    ensures { part.new ≡ fresh_rows rows part.old }
{
    // By number: the table is the catalogue's own, and `row_at` is what it promises.
    for i in 0..catalogue::ROWS {
        fresh_row(part, catalogue::row_at(i));
    }
}

// Makes a part fresh; memory of another size is left as it is.
pub fn fresh(part: &mut [u8])
    ensures { part.new ≡ fresh_over part.old }
{
    if part.len() != super::SIZE {
        return;
    }
    part.fill(0);
    codes::put_number(part, super::STATE, 1, u32::from(u8::from(State::S1)));
    fresh_rows(part);
    versions::fill_within(part, super::VERSIONS);
}
