// The window: with these biases and these g no step of `by_parts` before its last is rounded.
ghost use Rattle.std.specs.Prelude.{◌≡◌, true};
ghost use Rattle.step_xyb.specs.Steps.{Bias, Biases, Within};

use ciexyz::Vec3;

// Whether c is negative, and of a size from 2^-15 to 2^-8.
fn is_bias(c: f32) -> bool
    ensures { result ≡ true → Bias c }
{
    (0.000030517578125 <= -c) & (-c <= 0.00390625)
}

pub(crate) fn are_biases(bias: Vec3) -> bool
    ensures { result ≡ true → Biases bias }
{
    let l = is_bias(bias.v0);
    let m = is_bias(bias.v1);
    let s = is_bias(bias.v2);
    l & m & s
}

// Whether each is from 1/8 to 4: none is larger than their sum.
pub(crate) fn are_within(l: f32, m: f32, s: f32) -> bool
    ensures { result ≡ true → Within l × Within m × Within s }
{
    (0.125 <= l) & (0.125 <= m) & (0.125 <= s) & (l + m + s <= 4.0)
}
