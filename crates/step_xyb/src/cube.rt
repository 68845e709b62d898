// A piece of one channel: of each g, g * g * g + bias, the square rounded and the rest rounded once, times the scale.
ghost use Rattle.std.specs.Prelude.{◌≡◌, ℕ, ◌<◌, map, true, length, get_or, Float};
ghost use Rattle.std.specs.Float.{nan};
ghost use Rattle.fused.specs.Fused.{fused};
ghost use Rattle.step_xyb.specs.Steps.{AllWithin, Bias, cubed, squared};

use crate::losses;

// `mul_add` rounds once, of these g at least.
fn each<F: Fn(f32, f32, f32) -> f32>(h: &mut [f32], g: &[f32], bias: f32, scale: f32, mul_add: F)
    requires h_len { length h.old ≡ length g.now }
    requires callable { (k : ℕ) → k < length g.now → F.pre mul_add (squared (get_or g.now k nan)) (get_or g.now k nan) bias }
    requires rounds_once { (k : ℕ) (r : Float) → k < length g.now → F.post mul_add (squared (get_or g.now k nan)) (get_or g.now k nan) bias r → r ≡ fused (squared (get_or g.now k nan)) (get_or g.now k nan) bias }
    ensures { h.new ≡ map (cubed bias scale) g.now }
{
    for i in 0..g.len() {
        let x = g[i];
        h[i] = mul_add(x * x, x, bias) * scale;
    }
}

// `quick` says that the bias and every g are in the window: then by parts, without a branch.
pub(crate) fn cube(h: &mut [f32], g: &[f32], bias: f32, scale: f32, quick: bool)
    requires h_len { length h.old ≡ length g.now }
    requires bias { quick ≡ true → Bias bias × AllWithin g.now }
    ensures { h.new ≡ map (cubed bias scale) g.now }
{
    if quick {
        each(h, g, bias, scale, losses::by_parts);
    } else {
        each(h, g, bias, scale, fused::mul_add);
    }
}
