#![tactic(auto)]
// Size classes: the trait that a plan of size classes keeps, and the two plans.
mod common;
mod formula;
mod plan;
mod quarters;
mod refusal;
mod sixteens;

pub use plan::SizeClasses;
pub use quarters::Quarters;
pub use refusal::ClassRefusal;
pub use sixteens::Sixteens;
