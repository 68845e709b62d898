// What a pixel is converted by: weights, and numbers that are right for them.
ghost use Rattle.std.specs.Prelude.{◌≡◌};
ghost use Rattle.ycbcr_firmware.specs.Firmware.{weights_of};
ghost use Rattle.ycbcr_pixel_back.specs.Numbers.{Right, Small};

use crate::numbers::{BT709, Numbers, T871};
use ycbcr_weights::Weights;

// No conversion reads the weights: they are what its numbers are right for.
#[derive(Clone, Copy, Debug, PartialEq, Eq)]
pub struct Forms {
    pub weights: Weights,
    pub(crate) numbers: Numbers,
    ghost right: { Right weights numbers },
    ghost small: { Small numbers },
}

// By the weights that a firmware means; for a firmware that is refused they are not looked at.
pub fn forms_of(firmware: u32) -> Forms
    ensures { result.weights ≡ weights_of firmware }
{
    let weights = ycbcr_firmware::weights_of(firmware);
    let numbers = if firmware == 4 { BT709 } else { T871 };
    Forms { weights, numbers }
}
