//! Laws of the definitions. A call of one gives its statement to the caller's proof.
pub mod dates;
pub mod durations;
