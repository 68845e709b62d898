// XyzToLuma: from three channels of XYZ to one of luma.
// Three slices, as `channels` says.
ghost use Rattle.std.specs.Prelude.{◌≡◌};
ghost use Rattle.channels.specs.Channels.{channels, where_equal};
ghost use Rattle.channels.specs.Stepping.{step_of};
ghost use Rattle.steps.specs.Samples.{luma_of_xyz};
ghost use Rattle.bad_samples.specs.Bad.{stepped_of};

use bad_samples::Stepped;
use channels::Unequal;

// a takes b; b and c stay.
pub fn xyz_to_luma_samples(a: &mut [f32], b: &[f32], c: &[f32]) -> Result<u8, Unequal>
    ensures value { result ≡ step_of 1 (channels a.old b.now c.now) }
    ensures c_after { channels a.new b.now c.now ≡ where_equal luma_of_xyz (channels a.old b.now c.now) }
{
    if !channels::same_lengths(a.len(), b.len(), c.len()) {
        return Err(Unequal);
    }
    // By a loop: `copy_from_slice` calls memmove, which an archive for C would need from outside.
    for i in 0..a.len() {
        a[i] = b[i];
    }
    Ok(1)
}

// XyzToLuma's own step.
pub fn xyz_to_luma(a: &mut [f32], b: &[f32], c: &[f32]) -> Stepped
    ensures value { result ≡ stepped_of 1 luma_of_xyz (channels a.old b.now c.now) }
    ensures c_after { channels a.new b.now c.now ≡ where_equal luma_of_xyz (channels a.old b.now c.now) }
{
    let answer = xyz_to_luma_samples(a, b, c);
    bad_samples::report(answer, a, b, c)
}
