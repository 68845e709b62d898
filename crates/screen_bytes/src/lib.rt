// Samples as bytes for a screen.
#![tactic(auto)]

ghost use Rattle.std.specs.Prelude.{◌≡◌};
ghost use Rattle.screen_bytes.specs.Screen.{screen_byte};
ghost use Rattle.screen_bytes.specs.Showing.{paper, showing_of, shown_of};

use channels::Unequal;
use notation::Answer;

// The paper's answer to what the conversion of a slice of samples answers.
pub fn paper(showing: Result<(), Unequal>) -> Answer
    ensures { result ≡ paper showing }
{
    match showing {
        Ok(()) => Answer::done(0),
        Err(Unequal) => Answer::refused(4),
    }
}

pub fn screen_byte(sample: f32) -> u8
    ensures { result ≡ screen_byte sample }
{
    let clipped = steps::clipped(sample);
    if clipped.is_nan() {
        return 0;
    }
    // The product is exact in f64. From 2^52 on an f64 has no fraction, so the sum is rounded to a whole number, a tie to the even one.
    let sum = clipped as f64 * 255.0 + 4503599627370496.0;
    // The pattern of 2^52 + b is that of 2^52 plus b.
    (f64::to_bits(sum) - 0x4330_0000_0000_0000) as u8
}

// Refused where there are not as many bytes as samples.
pub fn screen_bytes(samples: &[f32], bytes: &mut [u8]) -> Result<(), Unequal>
    ensures value { result ≡ showing_of samples.now bytes.old }
    ensures bytes_after { bytes.new ≡ shown_of samples.now bytes.old }
{
    if samples.len() != bytes.len() {
        return Err(Unequal);
    }
    for i in 0..bytes.len() {
        bytes[i] = screen_byte(samples[i]);
    }
    Ok(())
}
