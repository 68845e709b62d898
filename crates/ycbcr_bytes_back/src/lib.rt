// RGB to YCbCr over bytes, by the weights that a firmware means.
// Slices of their own, as `ycbcr_planes` says.
#![tactic(auto)]

ghost use Rattle.std.specs.Prelude.{◌≡◌};
ghost use Rattle.ycbcr_luma.specs.Ycbcr.{ycbcr_of};
ghost use Rattle.ycbcr_firmware.specs.Firmware.{weights_of};
ghost use Rattle.ycbcr_firmware.specs.Conversion.{conversion_of, left_by};
ghost use Rattle.ycbcr_planes.specs.Planes.{each_pixel, equally_long, planes};

use ycbcr_firmware::ConversionError;
use ycbcr_weights::Pixel;

// R, G, B in; Cb, Y, Cr out.
pub fn rgb_to_ycbcr(
    firmware: u32,
    r: &[u8],
    g: &[u8],
    b: &[u8],
    cb: &mut [u8],
    y: &mut [u8],
    cr: &mut [u8],
) -> Result<(), ConversionError>
    ensures value { result ≡ conversion_of firmware (equally_long (planes r.now g.now b.now) (planes cb.old y.old cr.old)) }
    ensures cr_after { planes cb.new y.new cr.new ≡ left_by (conversion_of firmware (equally_long (planes r.now g.now b.now) (planes cb.old y.old cr.old))) (each_pixel (ycbcr_of (weights_of firmware)) (planes r.now g.now b.now)) (planes cb.old y.old cr.old) }
{
    let equal = ycbcr_planes::same_lengths(r.len(), g.len(), b.len(), cb.len(), y.len(), cr.len());
    ycbcr_firmware::judge(firmware, equal)?;
    let f = ycbcr_pixel_back::forms_of(firmware);
    let ycbcr_at = |i: usize| {
        let rgb = Pixel {
            c0: r[i],
            c1: g[i],
            c2: b[i],
        };
        ycbcr_pixel_back::ycbcr(f, rgb)
    };
    ycbcr_planes::each_place(ycbcr_at, cb, y, cr);
    Ok(())
}
