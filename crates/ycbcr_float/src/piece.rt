// A piece of three channels: block by block by f64, in loops without a branch, and pixel by pixel where that is not sure or may not be tried.
// The channels are kept as parameters of their own: so LLVM knows each apart from the others, and does several pixels at once.
ghost use Rattle.std.specs.Prelude.{◌≡◌, true, map, length};
ghost use Rattle.channels.specs.Channels.{EquallyLong, channels, each};
ghost use Rattle.ycbcr_float.specs.Ycbcr.{raised, rgb_by};
ghost use Rattle.ycbcr_float.specs.Steps.{AllReady, Factors, rgb_raised};

use crate::{Constants, one_pixel, window};
use ciexyz::Vec3;

// A piece as it was, its luma with the offset.
#[derive(Clone, Copy)]
struct Kept<'a> {
    cb: &'a [f32],
    y: &'a [f32],
    cr: &'a [f32],
}

// Puts the offset on the luma, keeps the piece in p, q and r, and says whether f64 may be tried on every pixel.
fn keep(cb: &[f32], y: &mut [f32], cr: &[f32], p: &mut [f32], q: &mut [f32], r: &mut [f32]) -> bool
    requires equally_long { EquallyLong (channels cb.now y.old cr.now) }
    requires p_len { (length p.old ≡ length cb.now) × (length q.old ≡ length cb.now) × (length r.old ≡ length cb.now) }
    ensures y_after { y.new ≡ map raised y.old }
    ensures r_after { channels p.new q.new r.new ≡ channels cb.now y.new cr.now }
    ensures all_ready { result ≡ true → AllReady cb.now y.new cr.now }
{
    let mut any: u32 = 0;
    let mut all: u32 = 0xffff_ffff;
    for i in 0..cb.len() {
        let cbycr = Vec3 {
            v0: cb[i],
            v1: y[i] + 128.0 / 255.0,
            v2: cr[i],
        };
        y[i] = cbycr.v1;
        p[i] = cbycr.v0;
        q[i] = cbycr.v1;
        r[i] = cbycr.v2;
        any = window::any_of(any, cbycr);
        all = window::all_of(all, cbycr);
    }
    window::are_within(any, all)
}

// In place, and whether every pixel is sure.
fn each_by_f64(k: Constants, cb: &mut [f32], y: &mut [f32], cr: &mut [f32]) -> bool
    requires factors { Factors k }
    requires equally_long { EquallyLong (channels cb.old y.old cr.old) }
    requires all_ready { AllReady cb.old y.old cr.old }
    ensures { result ≡ true → channels cb.new y.new cr.new ≡ each (rgb_raised k) (channels cb.old y.old cr.old) }
{
    let mut sure = true;
    for i in 0..cb.len() {
        let cbycr = Vec3 {
            v0: cb[i],
            v1: y[i],
            v2: cr[i],
        };
        let out = one_pixel::by_f64(k, cbycr);
        cb[i] = out.red;
        y[i] = out.green;
        cr[i] = out.blue;
        sure &= out.sure;
    }
    sure
}

// Pixel by pixel, from what was kept.
fn each_alone(k: Constants, kept: Kept, cb: &mut [f32], y: &mut [f32], cr: &mut [f32])
    requires factors { Factors k }
    requires equally_long { EquallyLong (channels kept.cb.now kept.y.now kept.cr.now) }
    requires cb_len { (length cb.old ≡ length kept.cb.now) × (length y.old ≡ length kept.cb.now) × (length cr.old ≡ length kept.cb.now) }
    ensures { channels cb.new y.new cr.new ≡ each (rgb_raised k) (channels kept.entry.cb.now kept.entry.y.now kept.entry.cr.now) }
{
    for i in 0..kept.cb.len() {
        let cbycr = Vec3 {
            v0: kept.cb[i],
            v1: kept.y[i],
            v2: kept.cr[i],
        };
        let out = one_pixel::rgb(k, cbycr);
        cb[i] = out.v0;
        y[i] = out.v1;
        cr[i] = out.v2;
    }
}

// In place by f64 where that is sure, and else from what was kept, which is the block too.
fn block(k: Constants, kept: Kept, cb: &mut [f32], y: &mut [f32], cr: &mut [f32])
    requires factors { Factors k }
    requires equally_long { EquallyLong (channels cb.old y.old cr.old) }
    requires all_ready { AllReady cb.old y.old cr.old }
    requires kept_value { channels kept.cb.now kept.y.now kept.cr.now ≡ channels cb.old y.old cr.old }
    ensures { channels cb.new y.new cr.new ≡ each (rgb_raised k) (channels cb.old y.old cr.old) }
{
    if !each_by_f64(k, cb, y, cr) {
        each_alone(k, kept, cb, y, cr);
    }
}

// Block by block, where f64 may be tried on every pixel. A block has few pixels, since one that is not sure has them all done anew.
// Kept by places and not by `chunks_mut`, as `rgb_each`.
fn by_blocks(k: Constants, kept: Kept, cb: &mut [f32], y: &mut [f32], cr: &mut [f32])
    requires factors { Factors k }
    requires equally_long { EquallyLong (channels cb.old y.old cr.old) }
    requires all_ready { AllReady cb.old y.old cr.old }
    requires kept_value { channels kept.cb.now kept.y.now kept.cr.now ≡ channels cb.old y.old cr.old }
    ensures { channels cb.new y.new cr.new ≡ each (rgb_raised k) (channels cb.old y.old cr.old) }
{
    let n = cb.len();
    for i in 0..n.div_ceil(32) {
        let j = 32 * i;
        let e = j + channels::next_piece(n - j, 32);
        let part = Kept {
            cb: &kept.cb[j..e],
            y: &kept.y[j..e],
            cr: &kept.cr[j..e],
        };
        block(k, part, &mut cb[j..e], &mut y[j..e], &mut cr[j..e]);
    }
}

// Cb, Y, Cr in; R, G, B out. p, q and r are room to keep the piece.
pub(crate) fn converted(
    k: Constants,
    cb: &mut [f32],
    y: &mut [f32],
    cr: &mut [f32],
    p: &mut [f32],
    q: &mut [f32],
    r: &mut [f32],
)
    requires factors { Factors k }
    requires equally_long { EquallyLong (channels cb.old y.old cr.old) }
    requires p_len { (length p.old ≡ length cb.old) × (length q.old ≡ length cb.old) × (length r.old ≡ length cb.old) }
    ensures { channels cb.new y.new cr.new ≡ each (rgb_by k) (channels cb.old y.old cr.old) }
{
    let ready = keep(cb, y, cr, p, q, r);
    let kept = Kept { cb: p, y: q, cr: r };
    if ready {
        by_blocks(k, kept, cb, y, cr);
    } else {
        each_alone(k, kept, cb, y, cr);
    }
}
