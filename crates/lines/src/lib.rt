#![tactic(auto)]
// The text of the line program: a line read as a call, an answer shown as a line, a whole input as a whole output.
mod answering;
mod call;
mod error;
mod reading;
mod refusal;
mod showing;
mod whole;

pub use answering::answer;
pub use call::{Answer, Call};
pub use error::TextError;
pub use reading::read;
pub use refusal::LineRefusal;
pub use whole::transcript;
