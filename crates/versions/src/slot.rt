// A slot of a farm's versions, by its number.
ghost use Rattle.std.specs.Prelude.{◌<◌};
ghost use Rattle.versions.specs.declared.TheConstants.{SLOTS};

// Slots are counted from 0, so each is below how many there are.
#[derive(Clone, Copy)]
pub(crate) struct Slot {
    pub(crate) at: usize,
    ghost inside: { at < SLOTS },
}
