// The form by whole numbers, which has an answer for every input.
ghost use Rattle.std.specs.Prelude.{◌≡◌};
ghost use Rattle.fused.specs.Fused.{fused};

use crate::shift::Num;
use crate::sum;
use binary32::Parts;

pub(crate) fn added(a: f32, b: f32, c: f32) -> f32
    ensures { result ≡ fused a b c }
{
    // Of a product that is not finite, the two operations give what IEEE 754 says of the one.
    let Parts::Finite {
        negative: s,
        digits: m,
        place: i,
    } = binary32::take_apart(a)
    else {
        return a * b + c;
    };
    let Parts::Finite {
        negative: t,
        digits: n,
        place: j,
    } = binary32::take_apart(b)
    else {
        return a * b + c;
    };
    let Parts::Finite {
        negative: u,
        digits: o,
        place: k,
    } = binary32::take_apart(c)
    else {
        return c;
    };
    let product = Num {
        negative: s != t,
        m: m * n,
        e: i + j,
    };
    let addend = Num {
        negative: u,
        m: o,
        e: k + 149,
    };
    sum::added(product, addend)
}
