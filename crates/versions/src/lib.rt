// One farm's versions: the last 16 of its settings, in the bytes of its part.
#![tactic(auto)]

mod keep; // keep.rt: settings into a slot and back
mod limits; // limits.rt: whether they lie inside the limits
mod low; // low.rt: numbers low byte first
mod numbers; // numbers.rt: which numbers are kept
mod slot; // slot.rt: a slot by its number
mod within; // within.rt: versions that stand in the part itself

use catalogue::Row;
pub use limits::fit;
pub use numbers::{Kept, is_kept, last_used, list};
pub use within::{fill_within, restore_within, take_within};

// How many versions are kept.
const SLOTS: usize = 16;

// Where the columns of each parameter stand: after those of the one before it.
const AT_9900: usize = 0;

const AT_9901: usize = AT_9900 + SLOTS * 2;

const AT_10111: usize = AT_9901 + SLOTS * 2 * 8;

const AT_30001: usize = AT_10111 + SLOTS * 2;

const AT_30002: usize = AT_30001 + SLOTS * 2 * 4;

const AT_30003: usize = AT_30002 + SLOTS * 2;

const AT_30004: usize = AT_30003 + SLOTS * 2;

// After them stands the last number used.
const LAST: usize = AT_30004 + SLOTS * 4 * 2;

// A row of settings, and where its columns stand.
// That they end inside the versions is asked by each method, not kept here: `columns_from` builds such rows at any place.
#[derive(Clone, Copy)]
struct Columns {
    row: Row,
    at: usize,
}

// The rows that are settings, by their names and in the order of the table.
const COLUMNS_9900: Columns = Columns {
    row: catalogue::ROW_9900,
    at: AT_9900,
};

const COLUMNS_9901: Columns = Columns {
    row: catalogue::ROW_9901,
    at: AT_9901,
};

const COLUMNS_10111: Columns = Columns {
    row: catalogue::ROW_10111,
    at: AT_10111,
};

const COLUMNS_30001: Columns = Columns {
    row: catalogue::ROW_30001,
    at: AT_30001,
};

const COLUMNS_30002: Columns = Columns {
    row: catalogue::ROW_30002,
    at: AT_30002,
};

const COLUMNS_30003: Columns = Columns {
    row: catalogue::ROW_30003,
    at: AT_30003,
};

const COLUMNS_30004: Columns = Columns {
    row: catalogue::ROW_30004,
    at: AT_30004,
};

const COLUMNS: [Columns; 7] = [
    COLUMNS_9900,
    COLUMNS_9901,
    COLUMNS_10111,
    COLUMNS_30001,
    COLUMNS_30002,
    COLUMNS_30003,
    COLUMNS_30004,
];

// Bytes of a farm's versions.
pub const SIZE: usize = LAST + 2;

// Memory of the size of a farm's versions.
type Versions = [u8; SIZE];

// How many settings there are.
pub const SETTINGS: u16 = catalogue::ROW_9900.count
    + catalogue::ROW_9901.count
    + catalogue::ROW_10111.count
    + catalogue::ROW_30001.count
    + catalogue::ROW_30002.count
    + catalogue::ROW_30003.count
    + catalogue::ROW_30004.count;
