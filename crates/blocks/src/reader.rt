// The address walk of a request: a struct that keeps the block and the place together, and thin functions that give the next address.
ghost use Rattle.std.specs.Prelude.{◌≡◌, ◌+◌, ◌≤◌, length, drop};
ghost use Rattle.codes.specs.Code.{got};
ghost use Rattle.blocks.specs.Request.{address};
ghost use Rattle.blocks.specs.Place.{address_in, step_at, addresses_from};
ghost use Rattle.blocks.specs.Reader.{Steps};
ghost use Rattle.std.specs.Iterator.{YieldsFirst, item_count};

// Where the first address stands.
pub const FIRST: usize = 4;

// Bytes of an address.
pub const SIZE: usize = 6;

#[derive(Clone, Copy)]
pub struct Address {
    pub attribute: u8,
    pub elements: u8,
    pub pnu: u16,
    pub subindex: u16,
}

#[derive(Drop)]
pub struct Reader<'a> {
    pub block: &'a [u8],
    pub at: usize,
}

fn address_here(s: &[u8], at: usize) -> Address
    requires { at + 6 ≤ length s.now }
    ensures { address.read (drop at s.now) ≡ got result (drop (at + 6) s.now) }
{
    Address {
        attribute: codes::byte_at(s, at),
        elements: codes::byte_at(s, at + 1),
        pnu: codes::word_at(s, at + 2),
        subindex: codes::word_at(s, at + 4),
    }
}

// The address whose six bytes stand at a place, for who knows that it is one of the block's; zeros where they do not stand
// there: an Option would cost each address some 20 instructions more.
pub fn address_of(block: &[u8], at: usize) -> Address
    ensures { result ≡ address_in block.now at }
{
    if !codes::stands(block.len(), at, SIZE) {
        return Address {
            attribute: 0,
            elements: 0,
            pnu: 0,
            subindex: 0,
        };
    }
    address_here(block, at)
}

// The address that stands at a place of a block, and the place after it.
pub fn address_at(block: &[u8], at: usize) -> Option<(Address, usize)>
    ensures { result ≡ step_at block.now at }
{
    if !codes::stands(block.len(), at, 6) {
        return None;
    }
    if FIRST + usize::from(codes::byte_at(block, 3)) * 6 < at + 6 {
        return None;
    }
    Some((address_here(block, at), at + 6))
}

impl<'a> Reader<'a> {
    // A reader of the block, at its first address.
    pub fn new(block: &'a [u8]) -> Self
        ensures { (result.block ≡ block.entry) × (result.at ≡ 4) }
    {
        Reader { block, at: FIRST }
    }

    // The reader at another place.
    pub fn moved(self, at: usize) -> Self
        ensures { (result.block ≡ self.entry.block) × (result.at ≡ at) }
    {
        Reader {
            block: self.block,
            at,
        }
    }
}

// The addresses from where the reader stands on.
impl<'a> Iterator for Reader<'a> {
    type Item = Address;

    ghost next_gives = { λ before item after. YieldsFirst (λ r. addresses_from r.block.now r.at) before item after × Steps before item after };

    ghost remaining = { item_count (λ r. addresses_from r.block.now r.at) };

    fn next(&mut self) -> Option<Address> {
        let (address, after) = address_at(self.block, self.at)?;
        self.at = after;
        Some(address)
    }
}
