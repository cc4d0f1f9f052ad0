//! For readers of other formats that are written as JSON: faults with their place, the errors of a
//! text, whether names come twice, what members and texts read as, and lists of what is lost.
pub use crate::alone::{ELEMENT_DEPTH, read_alone};
pub use crate::fault::ValueError;
pub use crate::from_json::{
    FromJson, member, needed, optional, read_by, read_items, read_text, text_in,
};
pub use crate::losts::{
    add_in_item, add_in_member, add_lost, all_in_item, all_in_member, only, only_named, only_unread,
};
pub use crate::parse_errors::{name_twice, name_twice_in_line, no_item, not_json};
pub use crate::told::{Reading, push_reading, take_entry};
pub use crate::unique::has_unique_names;
pub use crate::values::{read_typed, whole_read};
