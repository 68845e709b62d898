// Tone mapping to a target that is not HDR, and the PQ to HLG steps.
ghost use Rattle.std.specs.Prelude.{◌≡◌};
ghost use Rattle.list.specs.Lists.{appended};
ghost use Rattle.plan_stages.specs.Stages.{tone_map_op, gamut_map_ops, is_tone_mapped, tone_map_ops, is_pq_to_hlg, near_thousand, inverse_ootf_ops, pq_to_hlg_ops};

use crate::params::{hdr_params, own_luminances};
use encoding::{ColourSpace, EnumColourEncoding, RenderingIntent, Settings};
use list::Plan;
use op::{Curve, HdrParams, Op};

fn tone_map_op(current: EnumColourEncoding, params: HdrParams, display: f32, detect: bool) -> Op
    ensures { result ≡ tone_map_op current params display detect }
{
    if current.colour_space == ColourSpace::Grey {
        Op::ToneMapLumaRec2408 {
            hdr_params: params,
            target_display_luminance: display,
            detect_peak: detect,
        }
    } else {
        Op::ToneMapRec2408 {
            hdr_params: params,
            target_display_luminance: display,
            detect_peak: detect,
        }
    }
}

fn gamut_map(out: Plan, current: EnumColourEncoding, factor: f32) -> Plan
    ensures { result ≡ appended out (gamut_map_ops current factor) }
{
    if current.colour_space == ColourSpace::Grey {
        return list::kept(out);
    }
    if current.rendering_intent != RenderingIntent::Perceptual {
        return list::kept(out);
    }
    list::push(
        out,
        Op::GamutMap {
            luminances: own_luminances(current),
            saturation_factor: factor,
        },
    )
}

fn is_tone_mapped(target: EnumColourEncoding, settings: Settings) -> bool
    ensures { result ≡ is_tone_mapped target settings }
{
    settings.intensity_target > 255.0 && !encoding::is_hdr(target)
}

pub fn tone_map(
    out: Plan,
    current: EnumColourEncoding,
    target: EnumColourEncoding,
    settings: Settings,
) -> Plan
    ensures { result ≡ appended out (tone_map_ops current target settings) }
{
    if !is_tone_mapped(target, settings) {
        return list::kept(out);
    }
    let hdr_params = hdr_params(own_luminances(current), settings.intensity_target, settings);
    let mapped = list::push(
        out,
        tone_map_op(current, hdr_params, 255.0, settings.detect_peak),
    );
    gamut_map(mapped, current, 0.3)
}

pub(crate) fn is_pq_to_hlg(target: EnumColourEncoding, settings: Settings) -> bool
    ensures { result ≡ is_pq_to_hlg target settings }
{
    settings.from_pq && target.tf == Curve::Hlg
}

fn near_thousand(intensity: f32) -> bool
    ensures { result ≡ near_thousand intensity }
{
    999.0 <= intensity && intensity <= 1001.0
}

// Tonemap to peak 1000 nits before applying inverse OOTF.
fn inverse_ootf(out: Plan, current: EnumColourEncoding, settings: Settings) -> Plan
    ensures { result ≡ appended out (inverse_ootf_ops current settings) }
{
    let intensity = settings.intensity_target;
    if near_thousand(intensity) {
        return list::kept(out);
    }
    let luminances = own_luminances(current);
    let from = hdr_params(luminances, intensity, settings);
    let mapped = list::push(out, tone_map_op(current, from, 1000.0, false));
    list::push(
        mapped,
        Op::HlgInverseOotf(hdr_params(luminances, 1000.0, settings)),
    )
}

pub fn pq_to_hlg(
    out: Plan,
    current: EnumColourEncoding,
    target: EnumColourEncoding,
    settings: Settings,
) -> Plan
    ensures { result ≡ appended out (pq_to_hlg_ops current target settings) }
{
    if !is_pq_to_hlg(target, settings) {
        return list::kept(out);
    }
    gamut_map(inverse_ootf(out, current, settings), current, 0.1)
}
