//! Scalars and values in brackets of a text in YAML, read to JSON.
#![tactic(auto)]

pub mod fault;
pub mod flow;
pub mod key;
pub mod output;
pub mod resolved;
pub mod scalar;
pub mod sign;
pub mod white;
