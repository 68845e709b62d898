// Decode: from the source's samples to linear ones.
ghost use Rattle.std.specs.Prelude.{◌≡◌};
ghost use Rattle.list.specs.Lists.{appended};
ghost use Rattle.plan_stages.specs.Stages.{from_xyb, inverse_curve, decode_ops, decoded};

use crate::params::{hdr_params, luminances_of, own_luminances};
use ciexyz::{Primaries, WhitePoint};
use encoding::{ColourSpace, EnumColourEncoding, Settings};
use list::Plan;
use op::{Curve, Luminances, Op};

fn from_xyb(out: Plan, settings: Settings) -> Plan
    ensures { result ≡ appended out (from_xyb settings) }
{
    let lms = list::push(
        out,
        Op::XybToMixedLms {
            opsin_bias: settings.opsin_bias,
            intensity_target: settings.intensity_target,
        },
    );
    list::push(lms, Op::Matrix(settings.inv_mat))
}

fn inverse_curve(out: Plan, tf: Curve, luminances: Luminances, settings: Settings) -> Plan
    ensures { result ≡ appended out (inverse_curve tf luminances settings) }
{
    list::push(
        out,
        Op::TransferFunction {
            curve: tf,
            hdr_params: hdr_params(luminances, settings.intensity_target, settings),
            inverse: true,
        },
    )
}

pub fn decode(out: Plan, source: EnumColourEncoding, settings: Settings) -> Plan
    ensures { result ≡ appended out (decode_ops source settings) }
{
    match source.colour_space {
        ColourSpace::Xyb => from_xyb(out, settings),
        ColourSpace::Rgb => inverse_curve(out, source.tf, own_luminances(source), settings),
        // primaries don't matter for grayscale
        ColourSpace::Grey => {
            let luminances = luminances_of(Primaries::Srgb, source.white_point);
            inverse_curve(out, source.tf, luminances, settings)
        }
        // refused
        ColourSpace::Unknown => list::kept(out),
    }
}

// The current encoding, after decoding.
pub fn decoded(source: EnumColourEncoding) -> EnumColourEncoding
    ensures { result ≡ decoded source }
{
    if source.colour_space == ColourSpace::Xyb {
        EnumColourEncoding {
            colour_space: ColourSpace::Rgb,
            white_point: WhitePoint::D65,
            primaries: Primaries::Srgb,
            tf: Curve::Linear,
            rendering_intent: source.rendering_intent,
        }
    } else {
        EnumColourEncoding {
            tf: Curve::Linear,
            ..source
        }
    }
}
