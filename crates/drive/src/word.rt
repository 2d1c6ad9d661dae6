// The control word STW1, as the bits that the cycle looks at.
ghost use Rattle.std.specs.Prelude.{◌≡◌, ◌<◌};
ghost use Rattle.drive.specs.Cycle.{bit, word_of};

#[derive(Clone, Copy)]
pub(crate) struct Word {
    pub(crate) b0: bool,
    pub(crate) b1: bool,
    pub(crate) b2: bool,
    pub(crate) b3: bool,
    pub(crate) b4: bool,
    pub(crate) b5: bool,
    pub(crate) b6: bool,
    pub(crate) b7: bool,
    pub(crate) b10: bool,
}

impl From<u16> for Word {
    ghost from_gives = { λ w b. b ≡ word_of w };

    #[tactic(auto, unfolding(crate::specs::Cycle::word_of))]
    fn from(w: u16) -> Word {
        let bit = |k: u32| -> bool
            requires { k < 16 }
            ensures { result ≡ bit k w }
        { w >> k & 1 == 1 };
        Word {
            b0: bit(0),
            b1: bit(1),
            b2: bit(2),
            b3: bit(3),
            b4: bit(4),
            b5: bit(5),
            b6: bit(6),
            b7: bit(7),
            b10: bit(10),
        }
    }
}
