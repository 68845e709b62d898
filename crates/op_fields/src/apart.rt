// An op taken apart; with together.rt the only code that says the fields of a kind, and their order.
ghost use Rattle.std.specs.Prelude.{◌≡◌, [], ◌∷◌, ◌++◌};
ghost use Rattle.op_fields.specs.declared.Value.TheVariants.{Float as the_float, Flag as the_flag, Curve as the_curve};
ghost use Rattle.op_fields.specs.Parts.{params_values, float_parts, parts_by, parts_of, blank_parts};

use crate::together::op_by;
use crate::{Cell, Parts, Value};
use op::{Curve, HdrParams, Op};

const ZERO: Cell = Cell(Value::Float(0.0));

// A kind of op that has floats alone, so many of the nine. A kind stays a number, as `Parts` says.
fn floats(kind: u8, count: usize, f: [f32; 9]) -> Parts
    ensures { result ≡ float_parts kind count f }
{
    let mut cells = [ZERO; 9];
    for i in 0..9usize {
        cells[i] = Cell(Value::Float(f[i]));
    }
    Parts { kind, count, cells }
}

fn tone_map(kind: u8, p: HdrParams, d: f32, detect: bool) -> Parts
    ensures { result ≡ parts_by kind (params_values p ++ (the_float d ∷ the_flag detect ∷ [])) }
{
    let l = p.luminances;
    let i = p.intensity_target;
    let n = p.min_nits;
    let mut parts = floats(kind, 7, [l.red, l.green, l.blue, i, n, d, 0.0, 0.0, 0.0]);
    parts.cells[6] = Cell(Value::Flag(detect));
    parts
}

fn transfer_function(curve: Curve, p: HdrParams, inverse: bool) -> Parts
    ensures { result ≡ parts_by 4 (the_curve curve ∷ the_flag inverse ∷ params_values p) }
{
    let l = p.luminances;
    let i = p.intensity_target;
    let n = p.min_nits;
    let mut parts = floats(4, 7, [0.0, 0.0, l.red, l.green, l.blue, i, n, 0.0, 0.0]);
    parts.cells[0] = Cell(Value::Curve(curve));
    parts.cells[1] = Cell(Value::Flag(inverse));
    parts
}

pub fn parts_of(op: Op) -> Parts
    ensures { result ≡ parts_of op }
{
    match op {
        Op::XybToMixedLms {
            opsin_bias: b,
            intensity_target: i,
        } => floats(0, 4, [b.v0, b.v1, b.v2, i, 0.0, 0.0, 0.0, 0.0, 0.0]),
        Op::LumaToXyz { illuminant: w } => {
            floats(1, 2, [w.x, w.y, 0.0, 0.0, 0.0, 0.0, 0.0, 0.0, 0.0])
        }
        Op::XyzToLuma => floats(2, 0, [0.0; 9]),
        Op::Matrix(m) => floats(3, 9, [m.m0, m.m1, m.m2, m.m3, m.m4, m.m5, m.m6, m.m7, m.m8]),
        Op::TransferFunction {
            curve,
            hdr_params: p,
            inverse,
        } => transfer_function(curve, p, inverse),
        Op::HlgInverseOotf(p) => {
            let l = p.luminances;
            let i = p.intensity_target;
            let n = p.min_nits;
            floats(5, 5, [l.red, l.green, l.blue, i, n, 0.0, 0.0, 0.0, 0.0])
        }
        Op::ToneMapRec2408 {
            hdr_params: p,
            target_display_luminance: d,
            detect_peak: f,
        } => tone_map(6, p, d, f),
        Op::ToneMapLumaRec2408 {
            hdr_params: p,
            target_display_luminance: d,
            detect_peak: f,
        } => tone_map(7, p, d, f),
        Op::GamutMap {
            luminances: l,
            saturation_factor: f,
        } => floats(8, 4, [l.red, l.green, l.blue, f, 0.0, 0.0, 0.0, 0.0, 0.0]),
        Op::Clip => floats(9, 0, [0.0; 9]),
    }
}

// The fields of a kind, each with a blank value; those of Clip for an unknown kind.
pub fn layout_of(kind: u8) -> Parts
    ensures { result ≡ blank_parts kind }
{
    parts_of(op_by(kind, [ZERO; 9]))
}
