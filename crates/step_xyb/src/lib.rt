// The inversion of XYB, after src/xyb.rs: X, Y, B samples become mixed L, M, S.
// Three slices, as `channels` says.
#![tactic(auto)]

mod cube;
mod losses;
mod piece;
mod window;

ghost use Rattle.std.specs.Prelude.{◌≡◌};
ghost use Rattle.channels.specs.Channels.{EquallyLong, channels, each, where_equal};
ghost use Rattle.channels.specs.Stepping.{step_of};
ghost use Rattle.step_xyb.specs.Xyb.{mixed_by, mixed_lms, roots_of};
ghost use Rattle.bad_samples.specs.Bad.{stepped_of};

use bad_samples::Stepped;
use channels::Unequal;
use ciexyz::Vec3;
use piece::Inversion;

#[tactic(auto, unfolding(crate::specs::Xyb::roots_of))]
fn roots_of(bias: Vec3) -> Vec3
    ensures { result ≡ roots_of bias }
{
    Vec3 {
        v0: cbrt::cbrt(bias.v0),
        v1: cbrt::cbrt(bias.v1),
        v2: cbrt::cbrt(bias.v2),
    }
}

// By pieces of 256 samples at most, which have room on the stack.
// Kept by places and not by `chunks_mut`: of what that lends, a proof knows the length alone once it is written.
fn inverted(by: Inversion, x: &mut [f32], y: &mut [f32], b: &mut [f32])
    requires { EquallyLong (channels x.old y.old b.old) }
    ensures { channels x.new y.new b.new ≡ each (mixed_by by.roots by.bias by.scale) (channels x.old y.old b.old) }
{
    let near = window::are_biases(by.bias);
    let mut p = [0.0f32; 256];
    let mut q = [0.0f32; 256];
    let mut r = [0.0f32; 256];
    let n = x.len();
    for k in 0..n.div_ceil(256) {
        let j = 256 * k;
        let m = channels::next_piece(n - j, 256);
        let e = j + m;
        by.invert(
            near,
            &mut x[j..e],
            &mut y[j..e],
            &mut b[j..e],
            &mut p[..m],
            &mut q[..m],
            &mut r[..m],
        );
    }
}

// The cube roots of the biases are worked out once.
pub fn xyb_to_mixed_lms_samples(
    opsin_bias: Vec3,
    intensity_target: f32,
    x: &mut [f32],
    y: &mut [f32],
    b: &mut [f32],
) -> Result<u8, Unequal>
    ensures value { result ≡ step_of 3 (channels x.old y.old b.old) }
    ensures b_after { channels x.new y.new b.new ≡ where_equal (each (mixed_lms opsin_bias intensity_target)) (channels x.old y.old b.old) }
{
    if !channels::same_lengths(x.len(), y.len(), b.len()) {
        return Err(Unequal);
    }
    let by = Inversion {
        roots: roots_of(opsin_bias),
        bias: opsin_bias,
        scale: 255.0 / intensity_target,
    };
    inverted(by, x, y, b);
    Ok(3)
}

// XybToMixedLms's own step.
pub fn xyb_to_mixed_lms(
    opsin_bias: Vec3,
    intensity_target: f32,
    x: &mut [f32],
    y: &mut [f32],
    b: &mut [f32],
) -> Stepped
    ensures value { result ≡ stepped_of 3 (each (mixed_lms opsin_bias intensity_target)) (channels x.old y.old b.old) }
    ensures b_after { channels x.new y.new b.new ≡ where_equal (each (mixed_lms opsin_bias intensity_target)) (channels x.old y.old b.old) }
{
    let answer = xyb_to_mixed_lms_samples(opsin_bias, intensity_target, x, y, b);
    bad_samples::report(answer, x, y, b)
}
