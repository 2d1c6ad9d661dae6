// The numbers of the versions that a part holds.
ghost use Rattle.std.specs.Prelude.{◌≡◌};
ghost use Rattle.part.specs.Layout.{used_up};

// Whether the last number is used; a part of another size has used none.
pub fn is_used_up(part: &[u8]) -> bool
    ensures { result ≡ used_up part.now }
{
    if part.len() != super::SIZE {
        return false;
    }
    versions::last_used(&part[super::VERSIONS..]) == u16::MAX
}
