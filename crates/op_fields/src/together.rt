// An op put together from its kind and the values of its fields.
ghost use Rattle.std.specs.Prelude.{◌≡◌, map, ◌<◌, ◌+◌};
ghost use Rattle.op_fields.specs.Parts.{value_of, float_from, flag_from, curve_from, luminances_from, params_from, vec3_from, op_by};

use crate::{Cell, Value};
use ciexyz::{Vec3, Xy};
use op::{Curve, HdrParams, Luminances, Op};

// What a cell holds; zero, off or Linear where it holds the value of another field. Three functions, since a trait for three variants is longer. The
// places stay numbers: a type for them would say no more than `i < 9`, which the check finds of each place in `op_by`.
fn float_at(cells: [Cell; 9], i: usize) -> f32
    requires { i < 9 }
    ensures { result ≡ float_from (map value_of cells) i }
{
    match cells[i].0 {
        Value::Float(x) => x,
        _ => 0.0,
    }
}

fn flag_at(cells: [Cell; 9], i: usize) -> bool
    requires { i < 9 }
    ensures { result ≡ flag_from (map value_of cells) i }
{
    match cells[i].0 {
        Value::Flag(b) => b,
        _ => false,
    }
}

fn curve_at(cells: [Cell; 9], i: usize) -> Curve
    requires { i < 9 }
    ensures { result ≡ curve_from (map value_of cells) i }
{
    match cells[i].0 {
        Value::Curve(c) => c,
        _ => Curve::Linear,
    }
}

fn vec3_at(cells: [Cell; 9], i: usize) -> Vec3
    requires { i + 2 < 9 }
    ensures { result ≡ vec3_from (map value_of cells) i }
{
    Vec3 {
        v0: float_at(cells, i),
        v1: float_at(cells, i + 1),
        v2: float_at(cells, i + 2),
    }
}

fn luminances_at(cells: [Cell; 9], i: usize) -> Luminances
    requires { i + 2 < 9 }
    ensures { result ≡ luminances_from (map value_of cells) i }
{
    let l = vec3_at(cells, i);
    Luminances {
        red: l.v0,
        green: l.v1,
        blue: l.v2,
    }
}

fn params_at(cells: [Cell; 9], i: usize) -> HdrParams
    requires { i + 4 < 9 }
    ensures { result ≡ params_from (map value_of cells) i }
{
    HdrParams {
        luminances: luminances_at(cells, i),
        intensity_target: float_at(cells, i + 3),
        min_nits: float_at(cells, i + 4),
    }
}

// The op of a kind with these values; Clip for an unknown kind. A kind stays a number, as `Parts` says.
pub fn op_by(kind: u8, cells: [Cell; 9]) -> Op
    ensures { result ≡ op_by kind (map value_of cells) }
{
    match kind {
        0 => Op::XybToMixedLms {
            opsin_bias: vec3_at(cells, 0),
            intensity_target: float_at(cells, 3),
        },
        1 => Op::LumaToXyz {
            illuminant: Xy {
                x: float_at(cells, 0),
                y: float_at(cells, 1),
            },
        },
        2 => Op::XyzToLuma,
        3 => Op::Matrix(ciexyz::mat_by_rows(
            vec3_at(cells, 0),
            vec3_at(cells, 3),
            vec3_at(cells, 6),
        )),
        4 => Op::TransferFunction {
            curve: curve_at(cells, 0),
            hdr_params: params_at(cells, 2),
            inverse: flag_at(cells, 1),
        },
        5 => Op::HlgInverseOotf(params_at(cells, 0)),
        6 => Op::ToneMapRec2408 {
            hdr_params: params_at(cells, 0),
            target_display_luminance: float_at(cells, 5),
            detect_peak: flag_at(cells, 6),
        },
        7 => Op::ToneMapLumaRec2408 {
            hdr_params: params_at(cells, 0),
            target_display_luminance: float_at(cells, 5),
            detect_peak: flag_at(cells, 6),
        },
        8 => Op::GamutMap {
            luminances: luminances_at(cells, 0),
            saturation_factor: float_at(cells, 3),
        },
        _ => Op::Clip,
    }
}
