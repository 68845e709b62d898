// Encodings and settings as numbers, for a caller who can hand over nothing else. Places among them stay numbers too: C has no other name for them.
#![tactic(auto)]

ghost use Rattle.std.specs.Prelude.{◌≡◌, ◌+◌, ◌<◌};
ghost use Rattle.encoding_numbers.specs.Sides.{natural, natural_at, space_numbered, intent_numbered, white_numbered, primaries_numbered, point_at, in_tables, encoding_in, side_of};
ghost use Rattle.encoding_numbers.specs.Floats.{vec3_at, settings_of};

use ciexyz::{Millionths, Primaries, Vec3, WhitePoint};
use encoding::{ColourEncoding, ColourSpace, EnumColourEncoding, RenderingIntent, Settings};

// A negative number is greater than any of a table.
fn natural(n: i32) -> u32
    ensures { result ≡ natural n }
{
    u32::try_from(n).unwrap_or(u32::MAX)
}

fn natural_at(numbers: &[i32; 14], at: usize) -> u32
    requires { at < 14 }
    ensures { result ≡ natural_at numbers.now at }
{
    natural(numbers[at])
}

// What each number of a table means. No TryFrom: the enums are `encoding`'s, and the numbers are those of the C door alone.
fn space_numbered(n: u32) -> ColourSpace
    ensures { result ≡ space_numbered n }
{
    match n {
        0 => ColourSpace::Rgb,
        1 => ColourSpace::Grey,
        2 => ColourSpace::Xyb,
        _ => ColourSpace::Unknown,
    }
}

fn intent_numbered(n: u32) -> RenderingIntent
    ensures { result ≡ intent_numbered n }
{
    match n {
        0 => RenderingIntent::Perceptual,
        1 => RenderingIntent::Relative,
        2 => RenderingIntent::Saturation,
        _ => RenderingIntent::Absolute,
    }
}

fn white_numbered(n: u32, p: Millionths) -> WhitePoint
    ensures { result ≡ white_numbered n p }
{
    match n {
        0 => WhitePoint::D65,
        1 => WhitePoint::E,
        2 => WhitePoint::Dci,
        _ => WhitePoint::Custom(p),
    }
}

fn primaries_numbered(n: u32, red: Millionths, green: Millionths, blue: Millionths) -> Primaries
    ensures { result ≡ primaries_numbered n red green blue }
{
    match n {
        0 => Primaries::Srgb,
        1 => Primaries::Bt2100,
        2 => Primaries::P3,
        _ => Primaries::Custom { red, green, blue },
    }
}

// The point whose x stands here, and its y behind it.
fn point_at(numbers: &[i32; 14], at: usize) -> Millionths
    requires { at + 1 < 14 }
    ensures { result ≡ point_at numbers.now at }
{
    Millionths {
        x: numbers[at],
        y: numbers[at + 1],
    }
}

// Whether every number that is read stands in its table; `g` is read where the curve is a Gamma.
fn in_tables(numbers: &[i32; 14]) -> bool
    ensures { result ≡ in_tables numbers.now }
{
    let curve = natural_at(numbers, 11);
    (natural_at(numbers, 0) <= 3)
        & (natural_at(numbers, 1) <= 3)
        & (natural_at(numbers, 4) <= 3)
        & (curve <= 8)
        & (natural_at(numbers, 13) <= 3)
        & ((1 < curve) | (natural_at(numbers, 12) <= 0x7fff_ffff))
}

fn encoding_in(numbers: &[i32; 14]) -> EnumColourEncoding
    ensures { result ≡ encoding_in numbers.now }
{
    let white = point_at(numbers, 2);
    let red = point_at(numbers, 5);
    let green = point_at(numbers, 7);
    let blue = point_at(numbers, 9);
    EnumColourEncoding {
        colour_space: space_numbered(natural_at(numbers, 0)),
        white_point: white_numbered(natural_at(numbers, 1), white),
        primaries: primaries_numbered(natural_at(numbers, 4), red, green, blue),
        tf: op_fields::curve_numbered(natural_at(numbers, 11), natural_at(numbers, 12)),
        rendering_intent: intent_numbered(natural_at(numbers, 13)),
    }
}

// What fourteen numbers mean, if each stands in its table. Of an ICC profile nothing but its colour space is read.
pub fn side_of(numbers: &[i32; 14]) -> Option<ColourEncoding>
    ensures { result ≡ side_of numbers.now }
{
    if natural_at(numbers, 0) == 4 {
        return Some(ColourEncoding::IccProfile);
    }
    if !in_tables(numbers) {
        return None;
    }
    Some(ColourEncoding::Enum(encoding_in(numbers)))
}

fn vec3_at(floats: &[f32; 14], at: usize) -> Vec3
    requires { at + 2 < 14 }
    ensures { result ≡ vec3_at floats.now at }
{
    Vec3 {
        v0: floats[at],
        v1: floats[at + 1],
        v2: floats[at + 2],
    }
}

// The inverse opsin matrix by rows, the biases, the intensity and min_nits; a flag is on where it is not 0.
pub fn settings_of(floats: &[f32; 14], detect_peak: u8, from_pq: u8) -> Settings
    ensures { result ≡ settings_of floats.now detect_peak from_pq }
{
    Settings {
        inv_mat: ciexyz::mat_by_rows(vec3_at(floats, 0), vec3_at(floats, 3), vec3_at(floats, 6)),
        opsin_bias: vec3_at(floats, 9),
        intensity_target: floats[12],
        min_nits: floats[13],
        detect_peak: detect_peak != 0,
        from_pq: from_pq != 0,
    }
}
