#![tactic(auto)]
// The profile: requests are noted, each as a record of its class and its count.
mod calls;
mod noting;
mod pending;
mod profile;
mod refusal;
mod room;
mod table;

pub use profile::Profile;
pub use refusal::Refusal;
