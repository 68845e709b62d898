// The stages of planning, after `with_builder` of src/convert.rs: each appends its ops to a list.
// The encodings and the settings stay parameters, as the Rust has them: the contracts go by each.
#![tactic(auto)]

mod conversion;
mod curve;
mod decoding;
mod params;
mod tone;

pub use conversion::{convert, converted};
pub use curve::target_curve;
pub use decoding::{decode, decoded};
pub use tone::{pq_to_hlg, tone_map};
