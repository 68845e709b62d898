// What a plan is wanted for, in words: a few on a line.
#![tactic(auto)]

mod decimal;
mod filling;
mod places;
mod wanted;
mod words;

pub use filling::{Filling, filled};
pub use places::{line_of, word_of};
pub use wanted::{detect_peak, floats, from_pq, source, target, version};
