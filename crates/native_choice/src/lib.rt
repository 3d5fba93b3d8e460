//! Choices of the built-in package that are written in Rattle.
#![tactic(auto)]

mod flash;
mod flash_native;

pub use flash_native::FlashNative;
