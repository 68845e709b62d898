// The pixels of a portable pixmap (PPM): the bytes of red, green and blue one behind the other.
// Slices of their own, as `ycbcr_planes` says.
ghost use Rattle.std.specs.Prelude.{◌≡◌, ◌*◌, length};
ghost use Rattle.pfm.specs.Samples.{told, fits_by};
ghost use Rattle.pfm.specs.Pixmap.{pixels_of, pixels_left};

use crate::samples::{Unfit, fit};

fn put_pixels(r: &[u8], g: &[u8], b: &[u8], out: &mut [u8])
    requires g_len { (length g.now ≡ length r.now) × (length b.now ≡ length r.now) }
    requires out_len { length out.old ≡ length r.now * 3 }
    ensures { out.new ≡ pixels_of r.now g.now b.now }
{
    let mut at: usize = 0;
    for i in 0..r.len() {
        at = buffer::put(out, at, &[r[i], g[i], b[i]]);
    }
}

// Where the lengths fit.
pub fn pixels_to(r: &[u8], g: &[u8], b: &[u8], out: &mut [u8]) -> Result<(), Unfit>
    ensures value { result ≡ told (fits_by 3 (length out.old) (length r.now) (length g.now) (length b.now)) }
    ensures out_after { out.new ≡ pixels_left r.now g.now b.now out.old }
{
    fit(out.len(), r.len(), g.len(), b.len(), 3)?;
    put_pixels(r, g, b, out);
    Ok(())
}
