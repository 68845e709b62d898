// One pixel, Cb, Y, Cr in and R, G, B out, where the luma has its offset: by f64 where that is sure, and else by fused products and sums.
ghost use Rattle.std.specs.Prelude.{◌≡◌, true};
ghost use Rattle.channels.specs.Channels.{vec};
ghost use Rattle.ycbcr_float.specs.Steps.{Factors, Ready, quick_by, rgb_raised};

use crate::{Constants, window};
use ciexyz::Vec3;

// For every pixel, but slowly.
#[tactic(auto, unfolding(crate::specs::Steps::rgb_raised))]
fn fused_rgb(k: Constants, cbycr: Vec3) -> Vec3
    ensures { result ≡ rgb_raised k cbycr }
{
    let cb = cbycr.v0;
    let y = cbycr.v1;
    let cr = cbycr.v2;
    let with_cr = fused::mul_add(cr, k.cr, y);
    Vec3 {
        v0: fused::mul_add(cr, k.red, y),
        v1: fused::mul_add(cb, k.cb, with_cr),
        v2: fused::mul_add(cb, k.blue, y),
    }
}

// Whether f64 may be tried.
fn is_ready(cbycr: Vec3) -> bool
    ensures { result ≡ true → Ready cbycr }
{
    window::are_within(window::any_of(0, cbycr), window::all_of(0xffff_ffff, cbycr))
}

// R, G, B, and whether they are sure: a flag, and no Option, since the loop over a block has no branch.
#[derive(Clone, Copy)]
pub(crate) struct Worked {
    pub(crate) red: f32,
    pub(crate) green: f32,
    pub(crate) blue: f32,
    pub(crate) sure: bool,
}

// The product of two f32 is exact at f64, and the sum is rounded there, to 53 digits, and then to 24.
pub(crate) fn by_f64(k: Constants, cbycr: Vec3) -> Worked
    requires factors { Factors k }
    requires ready { Ready cbycr }
    ensures blue_value { vec result.red result.green result.blue ≡ quick_by k cbycr }
    ensures cbycr_value { result.sure ≡ true → quick_by k cbycr ≡ rgb_raised k cbycr }
{
    let cb = cbycr.v0 as f64;
    let y = cbycr.v1 as f64;
    let cr = cbycr.v2 as f64;
    let red = rounding::rounded(f64::to_bits(cr * (k.red as f64) + y));
    let with_cr = rounding::rounded(f64::to_bits(cr * (k.cr as f64) + y));
    let luma_and_cr = f64::from_bits(with_cr.pattern);
    let green = rounding::rounded(f64::to_bits(cb * (k.cb as f64) + luma_and_cr));
    let blue = rounding::rounded(f64::to_bits(cb * (k.blue as f64) + y));
    Worked {
        red: f64::from_bits(red.pattern) as f32,
        green: f64::from_bits(green.pattern) as f32,
        blue: f64::from_bits(blue.pattern) as f32,
        sure: red.sure & with_cr.sure & green.sure & blue.sure,
    }
}

// A pixel that f64 is not sure of costs itself alone.
pub(crate) fn rgb(k: Constants, cbycr: Vec3) -> Vec3
    requires { Factors k }
    ensures { result ≡ rgb_raised k cbycr }
{
    if is_ready(cbycr) {
        let out = by_f64(k, cbycr);
        if out.sure {
            return Vec3 {
                v0: out.red,
                v1: out.green,
                v2: out.blue,
            };
        }
    }
    fused_rgb(k, cbycr)
}
