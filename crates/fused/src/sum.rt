// The sum of two numbers, rounded once.
ghost use Rattle.std.specs.Prelude.{◌≡◌, cond, ◌*◌, ◌/◌, ◌^◌, ◌<◌, ◌≤◌};
ghost use Rattle.std.specs.Float.{binary32};
ghost use Rattle.std.specs.Float.Ieee.{sum};
ghost use Rattle.fused.specs.Steps.{sized, Under};

use crate::shift::Num;
use crate::{round, shift};

// x + y over 2 ^ 359, where x is no smaller.
// A digit of y is lost only 2 places down or more, where the difference keeps 59 digits: the sticky digit stands for what was lost.
fn merged(x: Num, y: Num) -> f32
    requires { sized x.m × sized y.m × (y.e ≤ x.e) × (x.e < 2000) × (x.e ≡ y.e → y.m ≤ x.m) }
    ensures { result ≡ sum binary32 x.negative (x.m * 2 ^ x.e) y.negative (y.m * 2 ^ y.e) (2 ^ 359) }
{
    let w = shift::jam(y.m, x.e - y.e);
    if x.negative == y.negative {
        round::settled(Num { m: x.m + w, ..x })
    } else if x.m == w {
        binary32::put_together(false, 0)
    } else {
        round::settled(Num { m: x.m - w, ..x })
    }
}

// Whether x comes before y, by the exponents and then by the digits: the later one is no smaller.
fn below(x: Num, y: Num) -> bool
    ensures { cond result (Under x.m x.e y.m y.e) (Under y.m y.e x.m x.e) }
{
    if x.e == y.e { x.m < y.m } else { x.e < y.e }
}

// A number of 62 digits with two zeros at its end, as one of 61 with one.
fn half(x: Num) -> Num
    ensures sign { result.negative ≡ x.negative }
    ensures size { (result.m ≡ x.m / 2) × (result.e ≡ x.e) }
{
    Num { m: x.m / 2, ..x }
}

// x + y over 2 ^ 298, where neither is zero.
fn aligned(x: Num, y: Num) -> f32
    requires { (0 < x.m) × (x.m < 0x1_0000_0000_0000) × (0 < y.m) × (y.m < 0x1_0000_0000_0000) × (x.e < 1000) × (y.e < 1000) }
    ensures { result ≡ sum binary32 x.negative (x.m * 2 ^ x.e) y.negative (y.m * 2 ^ y.e) (2 ^ 298) }
{
    let u = half(shift::top(x));
    let v = half(shift::top(y));
    if below(u, v) {
        merged(v, u)
    } else {
        merged(u, v)
    }
}

// The same where either may be zero: two zeros have a negative sum only where both are negative.
pub(crate) fn added(x: Num, y: Num) -> f32
    requires { (x.m < 0x1_0000_0000_0000) × (y.m < 0x1_0000_0000_0000) × (x.e < 1000) × (y.e < 1000) }
    ensures { result ≡ sum binary32 x.negative (x.m * 2 ^ x.e) y.negative (y.m * 2 ^ y.e) (2 ^ 298) }
{
    if x.m == 0 {
        if y.m == 0 {
            binary32::put_together(x.negative && y.negative, 0)
        } else {
            round::settled(Num { e: y.e + 61, ..y })
        }
    } else if y.m == 0 {
        round::settled(Num { e: x.e + 61, ..x })
    } else {
        aligned(x, y)
    }
}
