// Matrix: each triple of samples by `matmul3vec`.
// Three slices, as `channels` says.
ghost use Rattle.std.specs.Prelude.{◌≡◌};
ghost use Rattle.ciexyz.specs.Matrix.{applied};
ghost use Rattle.channels.specs.Channels.{channels, each, where_equal};
ghost use Rattle.channels.specs.Stepping.{step_of};
ghost use Rattle.bad_samples.specs.Bad.{stepped_of};

use bad_samples::Stepped;
use channels::Unequal;
use ciexyz::{Mat3, Vec3};

pub fn matrix_samples(m: Mat3, a: &mut [f32], b: &mut [f32], c: &mut [f32]) -> Result<u8, Unequal>
    ensures value { result ≡ step_of 3 (channels a.old b.old c.old) }
    ensures c_after { channels a.new b.new c.new ≡ where_equal (each (applied m)) (channels a.old b.old c.old) }
{
    if !channels::same_lengths(a.len(), b.len(), c.len()) {
        return Err(Unequal);
    }
    for i in 0..a.len() {
        let sample = Vec3 {
            v0: a[i],
            v1: b[i],
            v2: c[i],
        };
        let result = ciexyz::matmul3vec(m, sample);
        a[i] = result.v0;
        b[i] = result.v1;
        c[i] = result.v2;
    }
    Ok(3)
}

// Matrix's own step.
pub fn matrix(m: Mat3, a: &mut [f32], b: &mut [f32], c: &mut [f32]) -> Stepped
    ensures value { result ≡ stepped_of 3 (each (applied m)) (channels a.old b.old c.old) }
    ensures c_after { channels a.new b.new c.new ≡ where_equal (each (applied m)) (channels a.old b.old c.old) }
{
    let answer = matrix_samples(m, a, b, c);
    bad_samples::report(answer, a, b, c)
}
