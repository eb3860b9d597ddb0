//! A run as waves over logical time: a value change dump (IEEE 1364), as GTKWave and others read it.
//!
//! An event of depth d takes the times 10 d to 10 d + 8. A variable changes when the event that writes it ends. A
//! channel has its value while it is active, and is else z; one without data is 1, and else 0. Beside each channel C
//! stand C_A and C_B, which are 1 from when the action that sends or takes has come to its place until the event ends:
//! an action that waits is a lone 1.
#![tactic(auto)]

mod changes;
mod declared;
mod numbers;
mod signals;
mod waves;

pub use waves::waves_text;
