// LumaToXyz: from one channel of luma to three of XYZ.
// Three slices, as `channels` says.
ghost use Rattle.std.specs.Prelude.{◌≡◌};
ghost use Rattle.channels.specs.Channels.{channels, each, where_equal};
ghost use Rattle.channels.specs.Stepping.{step_of};
ghost use Rattle.steps.specs.Samples.{xyz_of_luma};
ghost use Rattle.bad_samples.specs.Bad.{stepped_of};

use bad_samples::Stepped;
use channels::Unequal;
use ciexyz::Xy;

pub fn luma_to_xyz_samples(
    illuminant: Xy,
    a: &mut [f32],
    b: &mut [f32],
    c: &mut [f32],
) -> Result<u8, Unequal>
    ensures value { result ≡ step_of 3 (channels a.old b.old c.old) }
    ensures c_after { channels a.new b.new c.new ≡ where_equal (each (xyz_of_luma illuminant)) (channels a.old b.old c.old) }
{
    if !channels::same_lengths(a.len(), b.len(), c.len()) {
        return Err(Unequal);
    }
    let x = illuminant.x;
    let y = illuminant.y;
    for i in 0..a.len() {
        let luma = a[i];
        let luma_div_y = luma / y;
        b[i] = luma;
        a[i] = x * luma_div_y;
        c[i] = (1.0 - x - y) * luma_div_y;
    }
    Ok(3)
}

// LumaToXyz's own step.
pub fn luma_to_xyz(illuminant: Xy, a: &mut [f32], b: &mut [f32], c: &mut [f32]) -> Stepped
    ensures value { result ≡ stepped_of 3 (each (xyz_of_luma illuminant)) (channels a.old b.old c.old) }
    ensures c_after { channels a.new b.new c.new ≡ where_equal (each (xyz_of_luma illuminant)) (channels a.old b.old c.old) }
{
    let answer = luma_to_xyz_samples(illuminant, a, b, c);
    bad_samples::report(answer, a, b, c)
}
