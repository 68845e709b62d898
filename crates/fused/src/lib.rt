// IEEE 754's fusedMultiplyAdd on f32: the exact product plus addend, rounded once.
#![tactic(auto)]

mod quick;
mod round;
mod shift;
mod sum;
mod whole;

ghost use Rattle.std.specs.Prelude.{◌≡◌};
ghost use Rattle.fused.specs.Fused.{fused};

// By f64 where that is sure, and else by whole numbers.
pub fn mul_add(a: f32, b: f32, c: f32) -> f32
    ensures { result ≡ fused a b c }
{
    // A NaN is not cast.
    if a.is_nan() || b.is_nan() || c.is_nan() {
        return whole::added(a, b, c);
    }
    let s = (a as f64) * (b as f64) + (c as f64);
    if s.is_nan() {
        return whole::added(a, b, c);
    }
    if quick::is_clear(s.to_bits()) {
        return quick::narrow(s);
    }
    whole::added(a, b, c)
}
