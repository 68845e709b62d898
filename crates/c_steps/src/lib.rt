// The executor's steps as C functions on numbers and slices.
// Three slices, as C lends them.
#![tactic(auto)]

ghost use Rattle.std.specs.Prelude.{◌≡◌};
ghost use Rattle.ciexyz.specs.Matrix.{applied};
ghost use Rattle.channels.specs.Channels.{channels, each, equally_long, where_equal};
ghost use Rattle.channels.specs.Stepping.{paper, step_of};
ghost use Rattle.bad_samples.specs.Bad.{count_of};
ghost use Rattle.ycbcr_firmware.specs.Conversion.{conversion_of, left_by, paper as paper_of};
ghost use Rattle.ycbcr_firmware.specs.Firmware.{weights_of};
ghost use Rattle.steps.specs.Samples.{clipped_within, luma_of_xyz, xyz_of_luma};
ghost use Rattle.step_xyb.specs.Xyb.{mixed_lms};
ghost use Rattle.ycbcr_float.specs.Ycbcr.{rgb_of};
ghost use Rattle.c_steps.specs.Handed.{matrix_of, vector_of};

use ciexyz::{Mat3, Vec3, Xy};

// No From, here and below: both types are of other crates.
fn vector_of(v: &[f32; 3]) -> Vec3
    ensures { result ≡ vector_of v.now }
{
    Vec3 {
        v0: v[0],
        v1: v[1],
        v2: v[2],
    }
}

fn matrix_of(m: &[f32; 9]) -> Mat3
    ensures { result ≡ matrix_of m.now }
{
    Mat3 {
        m0: m[0],
        m1: m[1],
        m2: m[2],
        m3: m[3],
        m4: m[4],
        m5: m[5],
        m6: m[6],
        m7: m[7],
        m8: m[8],
    }
}

// 0, or 4 where the lengths are unequal, as of each step here.
#[unsafe(no_mangle)]
pub extern "C" fn rindsaddle_xyb_to_mixed_lms(
    opsin_bias: &[f32; 3],
    intensity_target: f32,
    x: &mut [f32],
    y: &mut [f32],
    b: &mut [f32],
) -> u8
    ensures value { result ≡ (paper (step_of 3 (channels x.old y.old b.old))).number }
    ensures b_after { channels x.new y.new b.new ≡ where_equal (each (mixed_lms (vector_of opsin_bias.now) intensity_target)) (channels x.old y.old b.old) }
{
    let bias = vector_of(opsin_bias);
    channels::paper(step_xyb::xyb_to_mixed_lms_samples(bias, intensity_target, x, y, b)).number
}

#[unsafe(no_mangle)]
pub extern "C" fn rindsaddle_matrix(
    matrix: &[f32; 9],
    a: &mut [f32],
    b: &mut [f32],
    c: &mut [f32],
) -> u8
    ensures value { result ≡ (paper (step_of 3 (channels a.old b.old c.old))).number }
    ensures c_after { channels a.new b.new c.new ≡ where_equal (each (applied (matrix_of matrix.now))) (channels a.old b.old c.old) }
{
    let m = matrix_of(matrix);
    channels::paper(steps::matrix_samples(m, a, b, c)).number
}

// x and y of the illuminant.
#[unsafe(no_mangle)]
pub extern "C" fn rindsaddle_luma_to_xyz(
    x: f32,
    y: f32,
    a: &mut [f32],
    b: &mut [f32],
    c: &mut [f32],
) -> u8
    ensures value { result ≡ (paper (step_of 3 (channels a.old b.old c.old))).number }
    ensures c_after { channels a.new b.new c.new ≡ where_equal (each (xyz_of_luma (record { x = x; y = y }))) (channels a.old b.old c.old) }
{
    let illuminant = Xy { x, y };
    channels::paper(steps::luma_to_xyz_samples(illuminant, a, b, c)).number
}

#[unsafe(no_mangle)]
pub extern "C" fn rindsaddle_xyz_to_luma(a: &mut [f32], b: &[f32], c: &[f32]) -> u8
    ensures value { result ≡ (paper (step_of 1 (channels a.old b.now c.now))).number }
    ensures c_after { channels a.new b.now c.now ≡ where_equal luma_of_xyz (channels a.old b.now c.now) }
{
    channels::paper(steps::xyz_to_luma_samples(a, b, c)).number
}

// The channels within the width.
#[unsafe(no_mangle)]
pub extern "C" fn rindsaddle_clip(width: u8, a: &mut [f32], b: &mut [f32], c: &mut [f32]) -> u8
    ensures value { result ≡ (paper (step_of width (channels a.old b.old c.old))).number }
    ensures c_after { channels a.new b.new c.new ≡ where_equal (clipped_within width) (channels a.old b.old c.old) }
{
    channels::paper(steps::clip_samples(width, a, b, c)).number
}

// TransferFunction Linear and Unknown have no effect; the width is that of the step.
#[unsafe(no_mangle)]
pub extern "C" fn rindsaddle_unchanged(width: u8, a: &[f32], b: &[f32], c: &[f32]) -> u8
    ensures { result ≡ (paper (step_of width (channels a.now b.now c.now))).number }
{
    channels::paper(steps::unchanged_samples(width, a, b, c)).number
}

// Cb, Y, Cr in; R, G, B out. 0, or 13 or 4.
#[unsafe(no_mangle)]
pub extern "C" fn rindsaddle_ycbcr(
    firmware: u32,
    cb: &mut [f32],
    y: &mut [f32],
    cr: &mut [f32],
) -> u8
    ensures value { result ≡ (paper_of (conversion_of firmware (equally_long (channels cb.old y.old cr.old)))).number }
    ensures cr_after { channels cb.new y.new cr.new ≡ left_by (conversion_of firmware (equally_long (channels cb.old y.old cr.old))) (each (rgb_of (weights_of firmware)) (channels cb.old y.old cr.old)) (channels cb.old y.old cr.old) }
{
    ycbcr_firmware::paper(ycbcr_float::ycbcr_to_rgb(firmware, cb, y, cr)).number
}

// How many samples in the channels within the width are infinite or NaN.
#[unsafe(no_mangle)]
pub extern "C" fn rindsaddle_count(width: u8, a: &[f32], b: &[f32], c: &[f32]) -> u64
    ensures { result ≡ count_of width (channels a.now b.now c.now) }
{
    bad_samples::count(width, a, b, c)
}
