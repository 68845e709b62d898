// Which weights a camera's firmware means, and what a conversion answers that names one.
#![tactic(auto)]

ghost use Rattle.std.specs.Prelude.{◌≡◌};
ghost use Rattle.ycbcr_firmware.specs.Firmware.{known_firmware, weights_of};
ghost use Rattle.ycbcr_firmware.specs.Conversion.{conversion_of, paper};

use notation::Answer;
use ycbcr_weights::Weights;

// Why a conversion is refused; nothing was changed then.
#[derive(Clone, Copy, Debug, PartialEq, Eq)]
pub enum ConversionError {
    // Refusal 13: no such firmware.
    UnknownFirmware,
    // Refusal 4: the lent lengths are unequal.
    Unequal,
}

// The paper's answer.
pub fn paper(conversion: Result<(), ConversionError>) -> Answer
    ensures { result ≡ paper conversion }
{
    match conversion {
        Ok(()) => Answer::done(0),
        Err(ConversionError::UnknownFirmware) => Answer::refused(13),
        Err(ConversionError::Unequal) => Answer::refused(4),
    }
}

// A firmware stays a number: any may be named, from C too, and one that is not known is refused by 13.
pub fn known_firmware(firmware: u32) -> bool
    ensures { result ≡ known_firmware firmware }
{
    matches!(firmware, 1..=4)
}

// 1 to 3 means T.871, 4 means BT.709.
pub fn weights_of(firmware: u32) -> Weights
    ensures { result ≡ weights_of firmware }
{
    if firmware == 4 {
        return ycbcr_weights::bt709();
    }
    ycbcr_weights::t871()
}

// 13 first, then 4.
pub fn judge(firmware: u32, equal: bool) -> Result<(), ConversionError>
    ensures { result ≡ conversion_of firmware equal }
{
    if !known_firmware(firmware) {
        return Err(ConversionError::UnknownFirmware);
    }
    if !equal {
        return Err(ConversionError::Unequal);
    }
    Ok(())
}
