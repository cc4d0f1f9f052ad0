//! What the text of a field says.

/// What the text of a field says.
#[derive(Drop)]
pub struct Reading<T> {
    /// The value. There is none where nothing is left of the text.
    pub value: Option<T>,
    /// The commands of LaTeX that aren't known, in order, without their backslashes.
    pub unknown: Vec<String>,
}
