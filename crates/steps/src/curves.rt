// The curves that are carried: TransferFunction Linear or Unknown.
// Three slices, as `channels` says.
ghost use Rattle.std.specs.Prelude.{◌≡◌};
ghost use Rattle.channels.specs.Channels.{channels};
ghost use Rattle.channels.specs.Stepping.{step_of};
ghost use Rattle.bad_samples.specs.Bad.{report_of};

use bad_samples::Stepped;
use channels::Unequal;

// No effect.
pub fn unchanged_samples(width: u8, a: &[f32], b: &[f32], c: &[f32]) -> Result<u8, Unequal>
    ensures { result ≡ step_of width (channels a.now b.now c.now) }
{
    if !channels::same_lengths(a.len(), b.len(), c.len()) {
        return Err(Unequal);
    }
    Ok(width)
}

// Their own step.
pub fn unchanged(width: u8, a: &[f32], b: &[f32], c: &[f32]) -> Stepped
    ensures { result ≡ report_of (step_of width (channels a.now b.now c.now)) (channels a.now b.now c.now) }
{
    let answer = unchanged_samples(width, a, b, c);
    bad_samples::report(answer, a, b, c)
}
