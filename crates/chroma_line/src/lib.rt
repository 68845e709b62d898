// A line of YCbCr with chroma at half width to RGB, by the weights that a firmware means.
// Slices of their own, as `ycbcr_planes` says.
#![tactic(auto)]

ghost use Rattle.std.specs.Prelude.{◌≡◌};
ghost use Rattle.ycbcr_weights.specs.Rgb.{rgb_of};
ghost use Rattle.ycbcr_firmware.specs.Firmware.{weights_of};
ghost use Rattle.ycbcr_firmware.specs.Conversion.{conversion_of, left_by};
ghost use Rattle.ycbcr_planes.specs.Planes.{each_pixel, planes};
ghost use Rattle.chroma_line.specs.Line.{fits_line, line_fits, widened_both};

use ycbcr_firmware::ConversionError;
use ycbcr_weights::Pixel;

fn fits_line(cb: usize, y: usize, cr: usize, r: usize, g: usize, b: usize) -> bool
    ensures { result ≡ fits_line cb y cr r g b }
{
    chroma_half::fits_twice(cb, y)
        && chroma_half::fits_twice(cr, y)
        && ycbcr_planes::same_lengths(y, y, y, r, g, b)
}

// Cb and Cr at half width and Y in; R, G, B out.
pub fn line_to_rgb(
    firmware: u32,
    cb: &[u8],
    y: &[u8],
    cr: &[u8],
    r: &mut [u8],
    g: &mut [u8],
    b: &mut [u8],
) -> Result<(), ConversionError>
    ensures value { result ≡ conversion_of firmware (line_fits (planes cb.now y.now cr.now) (planes r.old g.old b.old)) }
    ensures b_after { planes r.new g.new b.new ≡ left_by (conversion_of firmware (line_fits (planes cb.now y.now cr.now) (planes r.old g.old b.old))) (each_pixel (rgb_of (weights_of firmware)) (widened_both (planes cb.now y.now cr.now))) (planes r.old g.old b.old) }
{
    let fits = fits_line(cb.len(), y.len(), cr.len(), r.len(), g.len(), b.len());
    ycbcr_firmware::judge(firmware, fits)?;
    // R and B are room for the widened chroma, until their own bytes are made in its place.
    let _ = chroma_half::widen(cb, r);
    let _ = chroma_half::widen(cr, b);
    let f = ycbcr_pixel::forms_of(firmware);
    for i in 0..y.len() {
        let cbycr = Pixel {
            c0: r[i],
            c1: y[i],
            c2: b[i],
        };
        let out = ycbcr_pixel::rgb(f, cbycr);
        r[i] = out.c0;
        g[i] = out.c1;
        b[i] = out.c2;
    }
    Ok(())
}
