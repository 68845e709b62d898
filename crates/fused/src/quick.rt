// The quick form: the product of two f32 is exact at f64, and the sum is rounded there, to 53 digits, and then to 24.
ghost use Rattle.std.specs.Prelude.{◌≡◌, true, not, ◌&&◌, T};
ghost use Rattle.std.specs.Float.{binary32};
ghost use Rattle.std.specs.Float.Ieee.{is_nan, fits};
ghost use Rattle.rounding.specs.Steps.{Clear, cut};

// Whether a pattern is of a zero, or of a value that is not half way between two of f32, nor too small or large for f32.
pub(crate) fn is_clear(w: u64) -> bool
    ensures { result ≡ true → Clear w }
{
    if w % 0x2000_0000 == 0x1000_0000 {
        return false;
    }
    let e = w % 0x8000_0000_0000_0000 / 0x10_0000_0000_0000;
    if e < 898 {
        return w % 0x8000_0000_0000_0000 == 0;
    }
    e <= 1149
}

// s rounded to 24 digits: u - s loses just what s has below them.
#[tactic(auto, unfolding(rounding::specs::Steps::cut))]
pub(crate) fn narrow(s: f64) -> f32
    requires { T (fits binary32 (cut s) && not (is_nan (cut s))) }
    ensures { result ≡ cut s }
{
    let u = s * 536870912.0;
    (u - (u - s)) as f32
}
