// Conversion: from the current colour space, white point and primaries to the target's, through CIE XYZ.
ghost use Rattle.std.specs.Prelude.{◌≡◌};
ghost use Rattle.list.specs.Lists.{appended};
ghost use Rattle.plan_stages.specs.Stages.{differs, limit_op, to_xyz_op, adapt_ops, from_xyz_op, convert_ops, converted};

use crate::params::own_luminances;
use encoding::{ColourSpace, EnumColourEncoding, RenderingIntent};
use list::Plan;
use op::{Curve, Op};

// Compared as named values and not as floats.
fn differs(current: EnumColourEncoding, target: EnumColourEncoding) -> bool
    ensures { result ≡ differs current target }
{
    current.colour_space != target.colour_space
        || current.white_point != target.white_point
        || (current.colour_space == ColourSpace::Rgb
            && !encoding::same_primaries(current.primaries, target.primaries))
}

fn limit_op(current: EnumColourEncoding) -> Op
    ensures { result ≡ limit_op current }
{
    if current.rendering_intent == RenderingIntent::Perceptual {
        Op::GamutMap {
            luminances: own_luminances(current),
            saturation_factor: 0.3,
        }
    } else {
        Op::Clip
    }
}

#[tactic(auto, unfolding(ciexyz::specs::Xyz::to_xyz))]
fn to_xyz_op(current: EnumColourEncoding) -> Op
    ensures { result ≡ to_xyz_op current }
{
    if current.colour_space == ColourSpace::Grey {
        // Yxy to XYZ
        Op::LumaToXyz {
            illuminant: ciexyz::illuminant(current.white_point),
        }
    } else {
        // RGB to XYZ
        Op::Matrix(ciexyz::primaries_to_xyz_mat(current.primaries, current.white_point))
    }
}

// Chromatic adaptation: XYZ to XYZ.
#[tactic(auto, unfolding(ciexyz::specs::Xyz::adapt_of))]
fn adapt(out: Plan, current: EnumColourEncoding, target: EnumColourEncoding) -> Plan
    ensures { result ≡ appended out (adapt_ops current target) }
{
    if current.rendering_intent == RenderingIntent::Absolute {
        return list::kept(out);
    }
    let mat = ciexyz::adapt_mat(current.white_point, target.white_point);
    list::push(out, Op::Matrix(mat))
}

#[tactic(auto, unfolding(ciexyz::specs::Xyz::from_xyz))]
fn from_xyz_op(target: EnumColourEncoding) -> Op
    ensures { result ≡ from_xyz_op target }
{
    if target.colour_space == ColourSpace::Grey {
        // XYZ to Yxy
        Op::XyzToLuma
    } else {
        // XYZ to RGB
        Op::Matrix(ciexyz::xyz_to_primaries_mat(target.primaries, target.white_point))
    }
}

pub fn convert(out: Plan, current: EnumColourEncoding, target: EnumColourEncoding) -> Plan
    ensures { result ≡ appended out (convert_ops current target) }
{
    if !differs(current, target) {
        return list::kept(out);
    }
    let limited = list::push(out, limit_op(current));
    let xyz = list::push(limited, to_xyz_op(current));
    let adapted = adapt(xyz, current, target);
    list::push(adapted, from_xyz_op(target))
}

// The current encoding, after conversion.
pub fn converted(current: EnumColourEncoding, target: EnumColourEncoding) -> EnumColourEncoding
    ensures { result ≡ converted current target }
{
    if !differs(current, target) {
        return current;
    }
    EnumColourEncoding {
        tf: Curve::Linear,
        rendering_intent: current.rendering_intent,
        ..target
    }
}
