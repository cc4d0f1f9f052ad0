//! Which entry of a library is meant.

/// Which entry of a library is meant: one of its own, or an ancestor of one. It is good as long as
/// the library isn't changed.
#[repr(C)]
#[derive(Clone, Copy)]
pub struct EntryId {
    /// The place of an entry in the library, from 0 on.
    pub place: usize,
    /// 0 for that entry itself, otherwise the number of its ancestor: they are counted from 1 on, a
    /// parent before its own parents, and all of these before the next parent.
    pub step: usize,
}
