//! In which form a text is wanted.

/// In which form a text is wanted.
#[derive(Clone, Copy, Debug, PartialEq, Eq, Hash)]
pub enum TextForm {
    /// The long form, with the signs that tell its chunks apart.
    MarkedUp,
    /// The long form as it is shown: math between dollars, and no other signs.
    Plain,
    /// The short form as it is shown, or the long one where there is none.
    Short,
}
