//! Why a source and a stimulus are refused: the faults of the passes over them, each with its number and its place.
//!
//! A pass hands its own on, as `lexer::Fault`.
#![tactic(auto)]

pub mod elaborate;
pub mod lexer;
pub mod parser;
pub mod sharing_check;
pub mod types;
