#![tactic(auto)]
// A store of bit rows over lent words that keeps its bits.
mod plain;

pub use plain::PlainRows;
