// The steps of a run that are not XYB, after `ColorTransformOp::run` of src/convert.rs.
// Each stands alone, as `clip_samples`, and with its report, as `clip`. Kept as pairs: a closure that is lent three channels is no plainer than the two calls.
#![tactic(auto)]

mod clipping;
mod curves;
mod matrices;
mod to_luma;
mod to_xyz;

pub use clipping::{clip, clip_samples, clipped};
pub use curves::{unchanged, unchanged_samples};
pub use matrices::{matrix, matrix_samples};
pub use to_luma::{xyz_to_luma, xyz_to_luma_samples};
pub use to_xyz::{luma_to_xyz, luma_to_xyz_samples};
