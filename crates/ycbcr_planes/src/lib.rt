// Lent byte channels: whether three in and three out are equally long, and a loop that writes a pixel at each place.
// Channels are slices of their own, as C lends them: a struct of three lent ones would need in each contract that it still holds the same.
#![tactic(auto)]

ghost use Rattle.std.specs.Prelude.{◌≡◌, ◌<◌, ℕ, length};
ghost use Rattle.ycbcr_planes.specs.Planes.{pixel_at, planes, same_lengths};

use ycbcr_weights::Pixel;

pub fn same_lengths(a: usize, b: usize, c: usize, d: usize, e: usize, f: usize) -> bool
    ensures { result ≡ same_lengths a b c d e f }
{
    a == b && a == c && a == d && a == e && a == f
}

// The pixel that `made` makes for each place, into three channels.
pub fn each_place<F: Fn(usize) -> Pixel>(made: F, r: &mut [u8], g: &mut [u8], b: &mut [u8])
    requires as_g { length g.old ≡ length r.old }
    requires as_b { length b.old ≡ length r.old }
    requires made_at { (i : ℕ) → i < length r.old → F.pre made i }
    ensures { (i : ℕ) → i < length r.old → F.post made i (pixel_at (planes r.new g.new b.new) i) }
{
    for i in 0..r.len() {
        let out = made(i);
        r[i] = out.c0;
        g[i] = out.c1;
        b[i] = out.c2;
    }
}
