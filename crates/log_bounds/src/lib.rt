//! Bounds on what requests tell and show by their bytes, and on what a log opens to a participant; their laws.
#![tactic(auto)]

pub mod laws;
