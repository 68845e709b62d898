// One op, applied to three lent channels, after `ColorTransformOp::run` of src/convert.rs.
// Three slices, as `channels` says.
#![tactic(auto)]

ghost use Rattle.std.specs.Prelude.{◌≡◌};
ghost use Rattle.channels.specs.Channels.{channels, where_equal};
ghost use Rattle.channels.specs.Stepping.{step_of};
ghost use Rattle.op.specs.Widths.{gives_of};
ghost use Rattle.run_op.specs.Apply.{after_op};

use channels::Unequal;
use op::Op;

// The samples of the op's own step, without its report. TransferFunction Linear or Unknown has no effect; nor has an op that is not carried: a run refuses its list.
pub fn apply(op: Op, width: u8, a: &mut [f32], b: &mut [f32], c: &mut [f32]) -> Result<u8, Unequal>
    ensures value { result ≡ step_of (gives_of op width) (channels a.old b.old c.old) }
    ensures c_after { channels a.new b.new c.new ≡ where_equal (after_op op width) (channels a.old b.old c.old) }
{
    match op {
        Op::XybToMixedLms {
            opsin_bias,
            intensity_target,
        } => step_xyb::xyb_to_mixed_lms_samples(opsin_bias, intensity_target, a, b, c),
        Op::LumaToXyz { illuminant } => steps::luma_to_xyz_samples(illuminant, a, b, c),
        Op::XyzToLuma => steps::xyz_to_luma_samples(a, b, c),
        Op::Matrix(m) => steps::matrix_samples(m, a, b, c),
        Op::Clip => steps::clip_samples(width, a, b, c),
        _ => steps::unchanged_samples(op::gives(op, width), a, b, c),
    }
}
