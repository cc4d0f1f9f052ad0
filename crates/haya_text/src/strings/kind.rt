//! What a chunk is for.
ghost use Rattle.std.specs.Prelude.{◌≡◌};

/// What a chunk of a text is for.
#[derive(Clone, Copy, Debug, Default, PartialEq, Eq, Hash)]
pub enum ChunkKind {
    /// Plain text, whose case may be folded.
    #[default]
    Normal,
    /// Text that keeps its case.
    Verbatim,
    /// Math, which is printed between dollars.
    Math,
}

/// What a chunk is for whose case may be folded: no math.
#[derive(Clone, Copy, Debug, Default, PartialEq, Eq, Hash)]
pub enum FoldableKind {
    /// Plain text, whose case may be folded.
    #[default]
    Normal,
    /// Text that keeps its case.
    Verbatim,
}

impl From<FoldableKind> for ChunkKind {
    ghost use Rattle.haya_text.specs.Foldable.{unfolded_kind};

    ghost from_gives = { λ folded kind. kind ≡ unfolded_kind folded };

    /// The kind of the same name.
    fn from(kind: FoldableKind) -> ChunkKind {
        match kind {
            FoldableKind::Normal => ChunkKind::Normal,
            FoldableKind::Verbatim => ChunkKind::Verbatim,
        }
    }
}

impl TryFrom<ChunkKind> for FoldableKind {
    type Error = ();

    ghost use Rattle.haya_text.specs.Foldable.{FoldsKind};

    ghost try_from_gives = { FoldsKind };

    /// The kind of the same name. Math has none, and is refused.
    fn try_from(kind: ChunkKind) -> Result<FoldableKind, ()> {
        match kind {
            ChunkKind::Normal => Ok(FoldableKind::Normal),
            ChunkKind::Verbatim => Ok(FoldableKind::Verbatim),
            ChunkKind::Math => Err(()),
        }
    }
}
