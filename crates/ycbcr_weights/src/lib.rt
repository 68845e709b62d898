// The weights of red, green and blue in luma, and what is converted by them.
#![tactic(auto)]

ghost use Rattle.std.specs.Prelude.{◌≡◌};
ghost use Rattle.ycbcr_weights.specs.Weights.{t871, bt709};

// Red weighs kr/N, green kg/N and blue kb/N, with N = kr + kg + kb.
#[derive(Clone, Copy, Debug, PartialEq, Eq)]
pub struct Weights {
    pub kr: u16,
    pub kg: u16,
    pub kb: u16,
}

// Cb, Y, Cr or R, G, B, in this order.
#[derive(Clone, Copy, Debug, PartialEq, Eq)]
pub struct Pixel {
    pub c0: u8,
    pub c1: u8,
    pub c2: u8,
}

// ITU-T T.871, in thousandths. Two functions, and no constants: the contract of `ycbcr_firmware::weights_of` goes by theirs.
pub fn t871() -> Weights
    ensures { result ≡ t871 }
{
    Weights {
        kr: 299,
        kg: 587,
        kb: 114,
    }
}

// ITU-R BT.709-6, in ten-thousandths.
pub fn bt709() -> Weights
    ensures { result ≡ bt709 }
{
    Weights {
        kr: 2126,
        kg: 7152,
        kb: 722,
    }
}
