// The numbers of the curves. Functions, and no From: both types are of other crates, and every number has a curve.
ghost use Rattle.std.specs.Prelude.{◌≡◌};
ghost use Rattle.op_fields.specs.Curves.{curve_number, gamma_of, curve_numbered};

use op::Curve;

// The number of a curve in a plan block.
pub fn curve_number(curve: Curve) -> u8
    ensures { result ≡ curve_number curve }
{
    match curve {
        Curve::Gamma { inverted, .. } => if inverted { 1 } else { 0 },
        Curve::Bt709 => 2,
        Curve::Unknown => 3,
        Curve::Linear => 4,
        Curve::Srgb => 5,
        Curve::Pq => 6,
        Curve::Dci => 7,
        Curve::Hlg => 8,
    }
}

// The `g` of a curve; 0 where it has none.
pub fn gamma(curve: Curve) -> u32
    ensures { result ≡ gamma_of curve }
{
    match curve {
        Curve::Gamma { g, .. } => g,
        _ => 0,
    }
}

// The curve of a number, with the `g` of a Gamma; Hlg for 8 and every number above.
pub fn curve_numbered(n: u32, g: u32) -> Curve
    ensures { result ≡ curve_numbered n g }
{
    match n {
        0 => Curve::Gamma { g, inverted: false },
        1 => Curve::Gamma { g, inverted: true },
        2 => Curve::Bt709,
        3 => Curve::Unknown,
        4 => Curve::Linear,
        5 => Curve::Srgb,
        6 => Curve::Pq,
        7 => Curve::Dci,
        _ => Curve::Hlg,
    }
}
