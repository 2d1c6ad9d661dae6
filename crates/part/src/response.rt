// The response that waits: its length before its bytes, unused bytes 0.
ghost use Rattle.std.specs.Prelude.{◌≡◌, ◌≤◌, [], length, take};
ghost use Rattle.blocks.specs.Block.{block_limit};
ghost use Rattle.part.specs.Layout.{versions_at, waiting_length, waiting, with_response};

// How many bytes of a response wait; 0: none waits. It is the length byte of the documents, and promised so.
pub fn waiting_length(part: &[u8]) -> u8
    ensures { result ≡ waiting_length part.now }
{
    codes::byte_at(part, super::LENGTH)
}

// The bytes that wait.
pub(crate) fn waiting(part: &[u8]) -> &[u8]
    requires { versions_at ≤ length part.now }
    ensures { result.now ≡ waiting part.now }
{
    let n = usize::from(waiting_length(part)).min(blocks::BLOCK_LIMIT);
    &part[super::RESPONSE..super::RESPONSE + n]
}

// These bytes wait: no response is longer than a block.
pub fn put_response(part: &mut [u8], bytes: &[u8])
    ensures { part.new ≡ with_response (take block_limit bytes.now) part.old }
{
    let n = bytes.len().min(blocks::BLOCK_LIMIT);
    codes::put_number(part, super::LENGTH, 1, n as u32);
    if part.len() < super::VERSIONS {
        return;
    }
    codes::put_bytes(part, super::RESPONSE, &bytes[..n]);
    part[super::RESPONSE + n..super::VERSIONS].fill(0);
}

// None waits.
pub fn clear_response(part: &mut [u8])
    ensures { part.new ≡ with_response [] part.old }
{
    put_response(part, &[]);
}
