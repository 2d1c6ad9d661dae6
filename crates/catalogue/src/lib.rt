// The catalogue of an axis's parameters, and their elements in the bytes of a part.
#![tactic(auto)]

ghost use Rattle.std.specs.Prelude.{◌≡◌, ◌&&◌, take, drop};
ghost use Rattle.std.specs.Int.Signed.{le_z};
ghost use Rattle.catalogue.specs.Table.{element_size, rows, row_at, find_in, find_of};
ghost use Rattle.catalogue.specs.Element.{size_code, type_code, value_of, inside, element_place, element_of, put_element, fresh_of};

// The type of a parameter's elements.
#[derive(Clone, Copy)]
pub enum Kind {
    U8,
    U16,
    I16,
    I32,
}

// A parameter: its limits, its fresh values (of the first element and of each other), its type, its elements, and where they stand.
#[derive(Clone, Copy)]
pub struct Row {
    pub low: i32,
    pub high: i32,
    pub fresh: u32,
    pub others: u32,
    pub pnu: u16,
    pub kind: Kind,
    pub simple: bool,
    pub count: u16,
    pub writable: bool,
    pub offset: u16,
}

// Every fault situation.
const COUNT_947: u16 = drive::faults::BUFFER as u16;

// Where the elements of each parameter stand: after those of the one before it.
pub const AT_930: u16 = 0;

pub const AT_944: u16 = AT_930 + 2;

pub const AT_947: u16 = AT_944 + 2;

pub const AT_965: u16 = AT_947 + COUNT_947 * 2;

pub const AT_9900: u16 = AT_965 + 2;

pub const AT_9901: u16 = AT_9900 + 2;

pub const AT_10100: u16 = AT_9901 + 8 * 2;

pub const AT_10101: u16 = AT_10100 + 2;

pub const AT_10102: u16 = AT_10101 + 2;

pub const AT_10103: u16 = AT_10102 + 2;

pub const AT_10111: u16 = AT_10103 + 2;

pub const AT_30001: u16 = AT_10111 + 2;

pub const AT_30002: u16 = AT_30001 + 4 * 2;

pub const AT_30003: u16 = AT_30002 + 2;

pub const AT_30004: u16 = AT_30003 + 2;

pub const PARAMETER_BYTES: u16 = AT_30004 + 2 * 4;

// How many parameters there are.
pub const ROWS: usize = 15;

pub const ROW_930: Row = Row {
    low: 0,
    high: 0,
    fresh: 1,
    others: 1,
    pnu: 930,
    kind: Kind::U16,
    simple: true,
    count: 1,
    writable: false,
    offset: AT_930,
};

const ROW_944: Row = Row {
    low: 0,
    high: 0,
    fresh: 0,
    others: 0,
    pnu: 944,
    kind: Kind::U16,
    simple: true,
    count: 1,
    writable: false,
    offset: AT_944,
};

const ROW_947: Row = Row {
    low: 0,
    high: 0,
    fresh: 0,
    others: 0,
    pnu: 947,
    kind: Kind::U16,
    simple: false,
    count: COUNT_947,
    writable: false,
    offset: AT_947,
};

pub const ROW_965: Row = Row {
    low: 0,
    high: 0,
    fresh: 3,
    others: 41,
    pnu: 965,
    kind: Kind::U8,
    simple: false,
    count: 2,
    writable: false,
    offset: AT_965,
};

pub const ROW_9900: Row = Row {
    low: 0,
    high: 65535,
    fresh: 0,
    others: 0,
    pnu: 9900,
    kind: Kind::U16,
    simple: true,
    count: 1,
    writable: true,
    offset: AT_9900,
};

pub const ROW_9901: Row = Row {
    low: 0,
    high: 65535,
    fresh: 0,
    others: 0,
    pnu: 9901,
    kind: Kind::U16,
    simple: false,
    count: 8,
    writable: true,
    offset: AT_9901,
};

const ROW_10100: Row = Row {
    low: 0,
    high: 0,
    fresh: 0,
    others: 0,
    pnu: 10100,
    kind: Kind::U16,
    simple: true,
    count: 1,
    writable: false,
    offset: AT_10100,
};

const ROW_10101: Row = Row {
    low: 0,
    high: 0,
    fresh: 0,
    others: 0,
    pnu: 10101,
    kind: Kind::I16,
    simple: true,
    count: 1,
    writable: false,
    offset: AT_10101,
};

const ROW_10102: Row = Row {
    low: 0,
    high: 0,
    fresh: 0x0340,
    others: 0x0340,
    pnu: 10102,
    kind: Kind::U16,
    simple: true,
    count: 1,
    writable: false,
    offset: AT_10102,
};

const ROW_10103: Row = Row {
    low: 0,
    high: 0,
    fresh: 0,
    others: 0,
    pnu: 10103,
    kind: Kind::I16,
    simple: true,
    count: 1,
    writable: false,
    offset: AT_10103,
};

pub const ROW_10111: Row = Row {
    low: 1,
    high: 60000,
    fresh: 1500,
    others: 1500,
    pnu: 10111,
    kind: Kind::U16,
    simple: true,
    count: 1,
    writable: true,
    offset: AT_10111,
};

pub const ROW_30001: Row = Row {
    low: 0,
    high: 3000,
    fresh: 0,
    others: 0,
    pnu: 30001,
    kind: Kind::U16,
    simple: false,
    count: 4,
    writable: true,
    offset: AT_30001,
};

pub const ROW_30002: Row = Row {
    low: 0,
    high: 16384,
    fresh: 164,
    others: 164,
    pnu: 30002,
    kind: Kind::U16,
    simple: true,
    count: 1,
    writable: true,
    offset: AT_30002,
};

pub const ROW_30003: Row = Row {
    low: 0,
    high: 32767,
    fresh: 16384,
    others: 16384,
    pnu: 30003,
    kind: Kind::U16,
    simple: true,
    count: 1,
    writable: true,
    offset: AT_30003,
};

pub const ROW_30004: Row = Row {
    low: -100000,
    high: 100000,
    fresh: 0,
    others: 0,
    pnu: 30004,
    kind: Kind::I32,
    simple: false,
    count: 2,
    writable: true,
    offset: AT_30004,
};

// What stands past the end of the table: `row_at` of specs/ answers it for every number, so that it is no Option.
const NO_ROW: Row = Row {
    low: 0,
    high: 0,
    fresh: 0,
    others: 0,
    pnu: 0,
    kind: Kind::U8,
    simple: false,
    count: 0,
    writable: false,
    offset: 0,
};

// The rows, sorted by their numbers. A static: a constant of rows is built anew at every look-up.
static TABLE: [Row; ROWS] = [
    ROW_930, ROW_944, ROW_947, ROW_965, ROW_9900, ROW_9901, ROW_10100, ROW_10101, ROW_10102,
    ROW_10103, ROW_10111, ROW_30001, ROW_30002, ROW_30003, ROW_30004,
];

// Row number i of the table.
#[tactic(auto, unfolding(crate::specs::Table::row_at, crate::specs::Table::rows))]
pub fn row_at(i: usize) -> Row
    ensures { result ≡ row_at i }
{
    if i < ROWS { TABLE[i] } else { NO_ROW }
}

// What the first quarter of the table, from 930 on, has of a parameter number. Each quarter is written out, with the upper of two rows
// first: by a loop, by one function that is handed the rows, or with the lower row first, some numbers cost more than by a walk.
#[tactic(auto, unfolding(crate::specs::Table::rows))]
fn first_quarter(pnu: u16) -> Option<Row>
    ensures { result ≡ find_in (take 3 rows) pnu }
{
    if pnu < 944 {
        if pnu == 930 { Some(ROW_930) } else { None }
    } else {
        if pnu == 947 {
            Some(ROW_947)
        } else if pnu == 944 {
            Some(ROW_944)
        } else {
            None
        }
    }
}

// From 965 on.
#[tactic(auto, unfolding(crate::specs::Table::rows))]
fn second_quarter(pnu: u16) -> Option<Row>
    ensures { result ≡ find_in (take 4 (drop 3 rows)) pnu }
{
    if pnu < 9901 {
        if pnu == 9900 {
            Some(ROW_9900)
        } else if pnu == 965 {
            Some(ROW_965)
        } else {
            None
        }
    } else {
        if pnu == 10100 {
            Some(ROW_10100)
        } else if pnu == 9901 {
            Some(ROW_9901)
        } else {
            None
        }
    }
}

// From 10101 on.
#[tactic(auto, unfolding(crate::specs::Table::rows))]
fn third_quarter(pnu: u16) -> Option<Row>
    ensures { result ≡ find_in (take 4 (drop 7 rows)) pnu }
{
    if pnu < 10103 {
        if pnu == 10102 {
            Some(ROW_10102)
        } else if pnu == 10101 {
            Some(ROW_10101)
        } else {
            None
        }
    } else {
        if pnu == 10111 {
            Some(ROW_10111)
        } else if pnu == 10103 {
            Some(ROW_10103)
        } else {
            None
        }
    }
}

// From 30001 on.
#[tactic(auto, unfolding(crate::specs::Table::rows))]
fn last_quarter(pnu: u16) -> Option<Row>
    ensures { result ≡ find_in (drop 11 rows) pnu }
{
    if pnu < 30003 {
        if pnu == 30002 {
            Some(ROW_30002)
        } else if pnu == 30001 {
            Some(ROW_30001)
        } else {
            None
        }
    } else {
        if pnu == 30004 {
            Some(ROW_30004)
        } else if pnu == 30003 {
            Some(ROW_30003)
        } else {
            None
        }
    }
}

// The row of a parameter number, by halving the sorted table.
pub fn find(pnu: u16) -> Option<Row>
    ensures { result ≡ find_of pnu }
{
    if pnu < 10101 {
        if pnu < 965 {
            first_quarter(pnu)
        } else {
            second_quarter(pnu)
        }
    } else {
        if pnu < 30001 {
            third_quarter(pnu)
        } else {
            last_quarter(pnu)
        }
    }
}

// Bytes of an element. This and the next two are three tables, each promised by its own definition: one table of all would be taken apart at
// each use.
pub fn element_size(k: Kind) -> usize
    ensures { result ≡ element_size k }
{
    match k {
        Kind::U8 => 1,
        Kind::U16 => 2,
        Kind::I16 => 2,
        Kind::I32 => 4,
    }
}

pub fn size_code(k: Kind) -> u8
    ensures { result ≡ size_code k }
{
    match k {
        Kind::U8 => 0x41,
        Kind::U16 => 0x42,
        Kind::I16 => 0x42,
        Kind::I32 => 0x43,
    }
}

pub fn type_code(k: Kind) -> u8
    ensures { result ≡ type_code k }
{
    match k {
        Kind::U8 => 5,
        Kind::U16 => 6,
        Kind::I16 => 3,
        Kind::I32 => 4,
    }
}

// The value that an element's bytes stand for. Cut to its bytes by `%` and widened by `as`: by From it would name two more types.
pub fn value_of(k: Kind, x: u32) -> i32
    ensures { result ≡ value_of k x }
{
    match k {
        Kind::U8 => (x % 256) as i32,
        Kind::U16 => (x % 65536) as i32,
        Kind::I16 => ((x % 65536) as u16).cast_signed() as i32,
        Kind::I32 => x.cast_signed(),
    }
}

// Whether a value lies inside a parameter's limits.
pub fn is_within(r: Row, v: i32) -> bool
    ensures { result ≡ (le_z r.low v && le_z v r.high) }
{
    r.low <= v && v <= r.high
}

// The same of the value that an element's bytes stand for.
#[tactic(auto, unfolding(crate::specs::Element::inside))]
pub fn is_inside(r: Row, x: u32) -> bool
    ensures { result ≡ inside r x }
{
    is_within(r, value_of(r.kind, x))
}

// Where element i of a row stands.
fn place_of(r: Row, i: u16) -> usize
    ensures { result ≡ element_place r i }
{
    usize::from(r.offset) + usize::from(i) * element_size(r.kind)
}

// What element i of a row holds.
#[tactic(auto, unfolding(crate::specs::Element::element_of))]
pub fn element(part: &[u8], r: Row, i: u16) -> u32
    ensures { result ≡ element_of r i part.now }
{
    codes::number_at(part, place_of(r, i), element_size(r.kind))
}

// Stores x as element i of a row.
#[tactic(auto, unfolding(crate::specs::Element::put_element))]
pub fn put_element(part: &mut [u8], r: Row, i: u16, x: u32)
    ensures { part.new ≡ put_element r i x part.old }
{
    codes::put_number(part, place_of(r, i), element_size(r.kind), x);
}

// The fresh value of element i of a row.
pub fn fresh_of(r: Row, i: u16) -> u32
    ensures { result ≡ fresh_of r i }
{
    if i == 0 { r.fresh } else { r.others }
}
