//! The procedures of a program in its declared modes, or the rules of modes and of determinism that they break.
#![tactic(auto)]

mod analysis;
mod asked;
mod determinisms;
mod goals;
mod premises;
mod rules;
mod signatures;
mod typed;
mod untidy;

pub use rules::{AnalysisResult, procedures};
