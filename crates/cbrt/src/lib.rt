// The f32 nearest the exact cube root.
#![tactic(auto)]

mod root;
mod scale;

ghost use Rattle.std.specs.Prelude.{◌≡◌, T};
ghost use Rattle.cbrt.specs.Root.{is_root, cbrt_of};

use binary32::Parts;

pub fn cbrt(x: f32) -> f32
    ensures nearest { T (is_root x result) }
    ensures value { result ≡ cbrt_of x }
{
    // Infinities and NaN map to themselves, and so do zeros.
    let Parts::Finite {
        negative,
        digits,
        place,
    } = binary32::take_apart(x)
    else {
        return x;
    };
    if digits == 0 {
        return x;
    }
    let size = scale::scaled(digits, place);
    binary32::put_together(negative, root::magnitude(size.g, size.a))
}
