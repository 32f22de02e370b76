//! The first words of the bus's lines.

ghost use Rattle.std.specs.Prelude.{◌≡◌};

/// The first words of the bus's lines.
#[derive(Clone, Copy)]
pub enum VhostWord {
    Poke,
    Peek,
    SetMap,
    Load,
    Store,
    Lookup,
    Recv,
    Answer,
    Lost,
    Tick,
    Take,
}

impl VhostWord {
    ghost use Rattle.vd_vhost_model.specs.VhostLines.{vhost_word_text};

    /// The word as it is written.
    #[tactic(auto, unfolding(crate::specs::VhostLines::vhost_word_text))]
    pub fn text(self) -> &'static [u8]
        ensures { result.now ≡ vhost_word_text self }
    {
        match self {
            VhostWord::Poke => b"poke",
            VhostWord::Peek => b"peek",
            VhostWord::SetMap => b"setmap",
            VhostWord::Load => b"load",
            VhostWord::Store => b"store",
            VhostWord::Lookup => b"lookup",
            VhostWord::Recv => b"recv",
            VhostWord::Answer => b"answer",
            VhostWord::Lost => b"lost",
            VhostWord::Tick => b"tick",
            VhostWord::Take => b"take",
        }
    }
}

/// All first words of the bus's lines; those that move bytes are found first.
pub const ALL_VHOST_WORDS: [VhostWord; 11] = [
    VhostWord::Load,
    VhostWord::Store,
    VhostWord::Poke,
    VhostWord::Peek,
    VhostWord::Recv,
    VhostWord::Answer,
    VhostWord::Take,
    VhostWord::Tick,
    VhostWord::Lookup,
    VhostWord::SetMap,
    VhostWord::Lost,
];
