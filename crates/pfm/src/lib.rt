// Portable float maps (PFM): the header, and samples from bytes and to bytes; and the pixels of a portable pixmap (PPM).
#![tactic(auto)]

mod headers;
mod pixmap;
mod samples;

pub use headers::{Header, Numbers, Stage, read};
pub use pixmap::pixels_to;
pub use samples::{Unfit, channels_from, one_from, one_to, three_from, three_to};
