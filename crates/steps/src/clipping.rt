// Clip: below 0 gives 0, above 1 gives 1.
// Three slices, as `channels` says.
ghost use Rattle.std.specs.Prelude.{◌≡◌};
ghost use Rattle.channels.specs.Channels.{channels, where_equal};
ghost use Rattle.channels.specs.Stepping.{step_of};
ghost use Rattle.steps.specs.Samples.{clip_of, clipped_if, clipped_within};
ghost use Rattle.bad_samples.specs.Bad.{stepped_of};

use bad_samples::Stepped;
use channels::Unequal;

// NaN and minus zero stay.
pub fn clipped(x: f32) -> f32
    ensures { result ≡ clip_of x }
{
    x.clamp(0.0, 1.0)
}

fn clip_if(inside: bool, samples: &mut [f32])
    ensures { samples.new ≡ clipped_if inside samples.old }
{
    if inside {
        for x in samples.iter_mut() {
            *x = clipped(*x);
        }
    }
}

// The channels within the width.
pub fn clip_samples(width: u8, a: &mut [f32], b: &mut [f32], c: &mut [f32]) -> Result<u8, Unequal>
    ensures value { result ≡ step_of width (channels a.old b.old c.old) }
    ensures c_after { channels a.new b.new c.new ≡ where_equal (clipped_within width) (channels a.old b.old c.old) }
{
    if !channels::same_lengths(a.len(), b.len(), c.len()) {
        return Err(Unequal);
    }
    clip_if(1 <= width, a);
    clip_if(2 <= width, b);
    clip_if(3 <= width, c);
    Ok(width)
}

// Clip's own step.
pub fn clip(width: u8, a: &mut [f32], b: &mut [f32], c: &mut [f32]) -> Stepped
    ensures value { result ≡ stepped_of width (clipped_within width) (channels a.old b.old c.old) }
    ensures c_after { channels a.new b.new c.new ≡ where_equal (clipped_within width) (channels a.old b.old c.old) }
{
    let answer = clip_samples(width, a, b, c);
    bad_samples::report(answer, a, b, c)
}
