//! The library for programs in C, Python and Rust: `include/hayagriva.h` declares what it exports.
//!
//! What C has pointers to is a `Content` behind a `Held`: a library, a selector, or words. A call
//! that reads takes it by a pointer that is lent, and writes nothing there; one that changes a
//! library by a pointer that is the caller's own.
#![tactic(auto)]

mod answers;
mod asking;
mod changes;
mod changing;
mod codes;
mod content;
mod exports;
mod fault;
mod held;
mod hits;
mod lending;
mod making;
mod notes;
mod parts;
mod reading;
mod reasons;
mod room;
mod texts;
mod told;
mod values;
mod writing;
