// The curve that is retired, and an op that has it.
ghost use Rattle.std.specs.Prelude.{◌≡◌};
ghost use Rattle.op.specs.Retired.{is_unknown, is_retired};

use crate::{Curve, Op};

// Whether a curve is the Unknown one.
pub fn is_unknown(curve: Curve) -> bool
    ensures { result ≡ is_unknown curve }
{
    matches!(curve, Curve::Unknown)
}

// Whether an op is a transfer function of it.
pub fn is_retired(op: Op) -> bool
    ensures { result ≡ is_retired op }
{
    matches!(op, Op::TransferFunction { curve, .. } if is_unknown(curve))
}
