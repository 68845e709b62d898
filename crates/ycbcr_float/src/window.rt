// The window: where every sample is a zero, or of a size from 2^-31 to 2, f64 may be tried, since no sum is too small or too large for f32.
// The patterns of many samples are tested at once, by the digits that some of them have and those that all of them have.
ghost use Rattle.std.specs.Prelude.{◌≡◌, true};
ghost use Rattle.ycbcr_float.specs.Steps.{Single, Within, all_of, any_of, capped, one_less, pattern_of};

use ciexyz::Vec3;

// x, or 2 where x is no smaller, or a NaN, which has no pattern. Kept as a test, which is one instruction; f32's min takes more.
fn capped(x: f32) -> f32
    ensures { result ≡ capped x }
{
    if x < 2.0 { x } else { 2.0 }
}

fn pattern(x: f32) -> u32
    ensures { result ≡ pattern_of x }
{
    f32::to_bits(capped(x))
}

// One less, so that a zero's has every digit but the sign.
fn one_less(x: f32) -> u32
    ensures { result ≡ one_less x }
{
    pattern(x).wrapping_sub(1)
}

// The digits so far, and those of three samples more.
pub(crate) fn any_of(any: u32, s: Vec3) -> u32
    ensures value { result ≡ any_of any s }
    ensures single { Single s }
{
    any | pattern(s.v0) | pattern(s.v1) | pattern(s.v2)
}

// Those of the digits so far that three samples more have too.
pub(crate) fn all_of(all: u32, s: Vec3) -> u32
    ensures { result ≡ all_of all s }
{
    all & one_less(s.v0) & one_less(s.v1) & one_less(s.v2)
}

// Whether no sample is too large, by any_of's digits, or too small, by all_of's: 2 has the pattern 0x4000_0000, and 2^-31 has 0x3000_0000.
pub(crate) fn are_within(any: u32, all: u32) -> bool
    ensures { result ≡ true → Within any all }
{
    (any % 0x8000_0000 < 0x4000_0000) & (0x3000_0000 <= all % 0x4000_0000)
}
