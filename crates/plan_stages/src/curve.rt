// The target curve.
ghost use Rattle.std.specs.Prelude.{◌≡◌};
ghost use Rattle.list.specs.Lists.{appended};
ghost use Rattle.plan_stages.specs.Stages.{curve_intensity, curve_ops};

use crate::params::{hdr_params, own_luminances};
use crate::tone::is_pq_to_hlg;
use encoding::{EnumColourEncoding, Settings};
use list::Plan;
use op::{Curve, Op};

fn curve_intensity(target: EnumColourEncoding, settings: Settings) -> f32
    ensures { result ≡ curve_intensity target settings }
{
    if is_pq_to_hlg(target, settings) {
        // Skip inverse OOTF in transfer function conversion.
        300.0
    } else {
        settings.intensity_target
    }
}

pub fn target_curve(
    out: Plan,
    current: EnumColourEncoding,
    target: EnumColourEncoding,
    settings: Settings,
) -> Plan
    ensures { result ≡ appended out (curve_ops current target settings) }
{
    if target.tf == Curve::Linear {
        return list::kept(out);
    }
    let intensity = curve_intensity(target, settings);
    list::push(
        out,
        Op::TransferFunction {
            curve: target.tf,
            hdr_params: hdr_params(own_luminances(current), intensity, settings),
            inverse: false,
        },
    )
}
