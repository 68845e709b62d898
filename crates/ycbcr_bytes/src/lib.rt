// YCbCr to RGB over bytes, by the weights that a firmware means.
// Slices of their own, as `ycbcr_planes` says.
#![tactic(auto)]

ghost use Rattle.std.specs.Prelude.{◌≡◌};
ghost use Rattle.ycbcr_weights.specs.Rgb.{rgb_of};
ghost use Rattle.ycbcr_firmware.specs.Firmware.{weights_of};
ghost use Rattle.ycbcr_firmware.specs.Conversion.{conversion_of, left_by};
ghost use Rattle.ycbcr_planes.specs.Planes.{each_pixel, equally_long, planes};

use ycbcr_firmware::ConversionError;
use ycbcr_weights::Pixel;

// Cb, Y, Cr in; R, G, B out.
pub fn ycbcr_to_rgb(
    firmware: u32,
    cb: &[u8],
    y: &[u8],
    cr: &[u8],
    r: &mut [u8],
    g: &mut [u8],
    b: &mut [u8],
) -> Result<(), ConversionError>
    ensures value { result ≡ conversion_of firmware (equally_long (planes cb.now y.now cr.now) (planes r.old g.old b.old)) }
    ensures b_after { planes r.new g.new b.new ≡ left_by (conversion_of firmware (equally_long (planes cb.now y.now cr.now) (planes r.old g.old b.old))) (each_pixel (rgb_of (weights_of firmware)) (planes cb.now y.now cr.now)) (planes r.old g.old b.old) }
{
    let equal = ycbcr_planes::same_lengths(cb.len(), y.len(), cr.len(), r.len(), g.len(), b.len());
    ycbcr_firmware::judge(firmware, equal)?;
    let f = ycbcr_pixel::forms_of(firmware);
    let rgb_at = |i: usize| {
        let cbycr = Pixel {
            c0: cb[i],
            c1: y[i],
            c2: cr[i],
        };
        ycbcr_pixel::rgb(f, cbycr)
    };
    ycbcr_planes::each_place(rgb_at, r, g, b);
    Ok(())
}
