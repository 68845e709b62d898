// Encodings and settings: their ranges, their comparison as named values, equivalence; and the channel count of an ICC profile.
#![tactic(auto)]

ghost use Rattle.std.specs.Prelude.{◌≡◌};
ghost use Rattle.encoding.specs.Encodings.{channels_of, is_hdr};

mod custom; // custom.rt: the points of custom white points and primaries
mod icc; // icc.rt: the channel count of a profile's bytes
mod named; // named.rt: comparison as named values, and equivalence
mod ranges; // ranges.rt: whether every coordinate and `g` is in its range

use ciexyz::{Mat3, Primaries, Vec3, WhitePoint};
pub use icc::icc_channels;
pub use named::{is_equivalent, same_colour_space, same_intent, same_primaries, same_white_point};
use op::Curve;
pub use ranges::in_range;

#[derive(Clone, Copy, Debug, PartialEq, Eq)]
pub enum ColourSpace {
    Rgb,
    Grey,
    Xyb,
    Unknown,
}

#[derive(Clone, Copy, Debug, PartialEq, Eq)]
pub enum RenderingIntent {
    Perceptual,
    Relative,
    Saturation,
    Absolute,
}

#[derive(Clone, Copy, Debug, PartialEq, Eq)]
pub struct EnumColourEncoding {
    pub colour_space: ColourSpace,
    pub white_point: WhitePoint,
    pub primaries: Primaries,
    pub tf: Curve,
    pub rendering_intent: RenderingIntent,
}

#[derive(Clone, Copy, Debug, PartialEq, Eq)]
pub enum ColourEncoding {
    IccProfile,
    Enum(EnumColourEncoding),
}

// The inverse opsin matrix and its biases, the Rust's ToneMapping, and the flags of its builder.
#[derive(Clone, Copy, Debug, PartialEq)]
pub struct Settings {
    pub inv_mat: Mat3,
    pub opsin_bias: Vec3,
    pub intensity_target: f32,
    pub min_nits: f32,
    pub detect_peak: bool,
    pub from_pq: bool,
}

// How many channels an encoding has.
pub fn channels(e: EnumColourEncoding) -> u8
    ensures { result ≡ channels_of e }
{
    if e.colour_space == ColourSpace::Grey {
        1
    } else {
        3
    }
}

pub fn is_hdr(e: EnumColourEncoding) -> bool
    ensures { result ≡ is_hdr e }
{
    matches!(e.tf, Curve::Pq | Curve::Hlg)
}
