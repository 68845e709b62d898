// The one rounding: a whole number of 2 ^ -359 to the nearest f32.
ghost use Rattle.std.specs.Prelude.{◌≡◌, ◌*◌, ◌^◌, ◌<◌, ◌≤◌};
ghost use Rattle.std.specs.Float.{binary32};
ghost use Rattle.std.specs.Float.Ieee.{round};

use crate::shift;
use crate::shift::Num;

// x over 2 ^ 421, for an m of 62 digits: past the largest f32, normal, subnormal, or nearer to 0.
fn rounded(x: Num) -> f32
    requires { (0x2000_0000_0000_0000 ≤ x.m) × (x.m < 0x4000_0000_0000_0000) }
    ensures { result ≡ round binary32 x.negative (x.m * 2 ^ x.e) (2 ^ 421) }
{
    let Num { negative, m, e } = x;
    if e >= 488 {
        binary32::put_together(negative, 0x7f80_0000)
    } else if e >= 234 {
        // A carry out of the digits goes into the exponent's field by itself.
        binary32::put_together(negative, (e - 234) * 0x80_0000 + shift::near(m, 38))
    } else if e >= 209 {
        binary32::put_together(negative, shift::near(m, 272 - e))
    } else {
        binary32::put_together(negative, 0)
    }
}

// x over 2 ^ 359.
pub(crate) fn settled(x: Num) -> f32
    requires { (0 < x.m) × (x.m < 0x4000_0000_0000_0000) × (x.e < 2000) }
    ensures { result ≡ round binary32 x.negative (x.m * 2 ^ x.e) (2 ^ 359) }
{
    rounded(shift::top(x))
}
