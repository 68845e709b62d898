// Whether every custom coordinate and `g` of an encoding is in its range, used or not.
ghost use Rattle.std.specs.Prelude.{◌≡◌};
ghost use Rattle.encoding.specs.Ranges.{coordinate_in_range, point_in_range, corners_in_range, gamma_in_range, in_range};
ghost use Rattle.op_fields.specs.Curves.{gamma_of};

use crate::EnumColourEncoding;
use crate::custom::{Corners, custom_corners, custom_white};
use ciexyz::Millionths;
use op::Curve;

fn coordinate_in_range(n: i32) -> bool
    ensures { result ≡ coordinate_in_range n }
{
    matches!(n, -2_097_152..=2_097_151)
}

fn point_in_range(p: Millionths) -> bool
    ensures { result ≡ point_in_range p }
{
    coordinate_in_range(p.x) && coordinate_in_range(p.y)
}

fn corners_in_range(c: Corners) -> bool
    ensures { result ≡ corners_in_range c }
{
    point_in_range(c.red) && point_in_range(c.green) && point_in_range(c.blue)
}

fn gamma_in_range(tf: Curve) -> bool
    ensures { result ≡ gamma_in_range (gamma_of tf) }
{
    match tf {
        Curve::Gamma { g, .. } => g <= 16_777_215,
        _ => true,
    }
}

pub fn in_range(e: EnumColourEncoding) -> bool
    ensures { result ≡ in_range e }
{
    point_in_range(custom_white(e.white_point))
        && corners_in_range(custom_corners(e.primaries))
        && gamma_in_range(e.tf)
}
