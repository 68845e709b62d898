// A piece of three channels, tested once, so that the loops over its samples have no branch.
ghost use Rattle.std.specs.Prelude.{◌≡◌, true, length};
ghost use Rattle.channels.specs.Channels.{EquallyLong, channels, each};
ghost use Rattle.step_xyb.specs.Xyb.{mixed_by};
ghost use Rattle.step_xyb.specs.Steps.{AllWithin, Biases, shifted};

use crate::{cube, window};
use ciexyz::Vec3;

// What every sample of a run is inverted by.
#[derive(Clone, Copy)]
pub(crate) struct Inversion {
    pub roots: Vec3,
    pub bias: Vec3,
    pub scale: f32,
}

// l, m and s less the roots, in p, q and r; and whether every one of them is in the window.
fn shift(
    roots: Vec3,
    x: &[f32],
    y: &[f32],
    b: &[f32],
    p: &mut [f32],
    q: &mut [f32],
    r: &mut [f32],
) -> bool
    requires equally_long { EquallyLong (channels x.now y.now b.now) }
    requires p_len { (length p.old ≡ length x.now) × (length q.old ≡ length x.now) × (length r.old ≡ length x.now) }
    ensures r_after { channels p.new q.new r.new ≡ each (shifted roots) (channels x.now y.now b.now) }
    ensures all_within { result ≡ true → AllWithin p.new × AllWithin q.new × AllWithin r.new }
{
    let mut within = true;
    for i in 0..x.len() {
        let l = y[i] + x[i] - roots.v0;
        let m = y[i] - x[i] - roots.v1;
        let s = b[i] - roots.v2;
        p[i] = l;
        q[i] = m;
        r[i] = s;
        within = within & window::are_within(l, m, s);
    }
    within
}

impl Inversion {
    // X, Y, B in; mixed L, M, S out. `near` says that the biases are in the window; p, q and r are room to work in.
    // Three slices, as `channels` says, and three to work in.
    pub(crate) fn invert(
        self,
        near: bool,
        x: &mut [f32],
        y: &mut [f32],
        b: &mut [f32],
        p: &mut [f32],
        q: &mut [f32],
        r: &mut [f32],
    )
        requires biases { near ≡ true → Biases self.bias }
        requires equally_long { EquallyLong (channels x.old y.old b.old) }
        requires p_len { (length p.old ≡ length x.old) × (length q.old ≡ length x.old) × (length r.old ≡ length x.old) }
        ensures { channels x.new y.new b.new ≡ each (mixed_by self.roots self.bias self.scale) (channels x.old y.old b.old) }
    {
        let within = shift(self.roots, x, y, b, p, q, r);
        let quick = near & within;
        cube::cube(x, p, self.bias.v0, self.scale, quick);
        cube::cube(y, q, self.bias.v1, self.scale, quick);
        cube::cube(b, r, self.bias.v2, self.scale, quick);
    }
}
