#![tactic(auto)]
// A store of bit rows over lent words that keeps its puts.
mod mark;
mod runs;

pub use runs::RunRows;
