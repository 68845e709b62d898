// YCbCr to RGB, after src/ycbcr.rs, by the weights that a firmware means.
// Three slices, as `channels` says.
#![tactic(auto)]

mod one_pixel;
mod piece;
mod window;

ghost use Rattle.std.specs.Prelude.{◌≡◌};
ghost use Rattle.channels.specs.Channels.{EquallyLong, channels, each, equally_long};
ghost use Rattle.ycbcr_firmware.specs.Firmware.{weights_of};
ghost use Rattle.ycbcr_firmware.specs.Conversion.{conversion_of, left_by};
ghost use Rattle.ycbcr_float.specs.Steps.{Factors};
ghost use Rattle.ycbcr_float.specs.Ycbcr.{constants_of, part, rgb_by, rgb_of};

use ycbcr_firmware::ConversionError;
use ycbcr_weights::Weights;

// What Cb and Cr are multiplied by, worked out once for a channel. `Factors` stays a requires: `constants_of` has to give the constants of any weights.
#[derive(Clone, Copy, Debug, PartialEq)]
struct Constants {
    // of Cr, for red
    red: f32,
    // of Cb, for blue
    blue: f32,
    // of Cr and of Cb, for green
    cr: f32,
    cb: f32,
}

// So many of the whole.
#[tactic(auto, unfolding(crate::specs::Ycbcr::part))]
fn part(n: u32, whole: u32) -> f32
    ensures { result ≡ part n whole }
{
    std::num::nearest_u32_to_f32(n) / std::num::nearest_u32_to_f32(whole)
}

#[tactic(auto, unfolding(crate::specs::Ycbcr::green_of_cr, crate::specs::Ycbcr::green_of_cb))]
fn constants_of(w: Weights) -> Constants
    ensures { result ≡ constants_of w }
{
    let kr = w.kr as u32;
    let kg = w.kg as u32;
    let kb = w.kb as u32;
    let whole = kr + kg + kb;
    let red = part(2 * (kg + kb), whole);
    let blue = part(2 * (kr + kg), whole);
    let green_weight = part(kg, whole);
    Constants {
        red,
        blue,
        cr: -part(kr, whole) * red / green_weight,
        cb: -part(kb, whole) * blue / green_weight,
    }
}

// By pieces of 256 pixels at most, which have room on the stack.
// Kept by places and not by `chunks_mut`: of what that lends, a proof knows the length alone once it is written.
fn rgb_each(k: Constants, cb: &mut [f32], y: &mut [f32], cr: &mut [f32])
    requires factors { Factors k }
    requires equally_long { EquallyLong (channels cb.old y.old cr.old) }
    ensures { channels cb.new y.new cr.new ≡ each (rgb_by k) (channels cb.old y.old cr.old) }
{
    let mut p = [0.0f32; 256];
    let mut q = [0.0f32; 256];
    let mut r = [0.0f32; 256];
    let n = cb.len();
    for i in 0..n.div_ceil(256) {
        let j = 256 * i;
        let m = channels::next_piece(n - j, 256);
        let e = j + m;
        piece::converted(
            k,
            &mut cb[j..e],
            &mut y[j..e],
            &mut cr[j..e],
            &mut p[..m],
            &mut q[..m],
            &mut r[..m],
        );
    }
}

// Cb, Y, Cr in; R, G, B out.
pub fn ycbcr_to_rgb(
    firmware: u32,
    cb: &mut [f32],
    y: &mut [f32],
    cr: &mut [f32],
) -> Result<(), ConversionError>
    ensures value { result ≡ conversion_of firmware (equally_long (channels cb.old y.old cr.old)) }
    ensures cr_after { channels cb.new y.new cr.new ≡ left_by (conversion_of firmware (equally_long (channels cb.old y.old cr.old))) (each (rgb_of (weights_of firmware)) (channels cb.old y.old cr.old)) (channels cb.old y.old cr.old) }
{
    let equal = channels::same_lengths(cb.len(), y.len(), cr.len());
    ycbcr_firmware::judge(firmware, equal)?;
    let k = constants_of(ycbcr_firmware::weights_of(firmware));
    rgb_each(k, cb, y, cr);
    Ok(())
}
