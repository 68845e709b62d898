// The library as C functions on numbers and slices. Some differ in their conversion alone: C has a name for each, and no function that takes one.
// Byte channels are slices of their own, as `ycbcr_planes` says.
#![tactic(auto)]

ghost use Rattle.std.specs.Prelude.{◌≡◌, ◌≤◌, T};
ghost use Rattle.fused.specs.Fused.{fused};
ghost use Rattle.cbrt.specs.Root.{is_root, cbrt_of};
ghost use Rattle.encoding.specs.Icc.{icc_channels};
ghost use Rattle.screen_bytes.specs.Showing.{paper, showing_of, shown_of};
ghost use Rattle.ycbcr_weights.specs.Rgb.{rgb_of};
ghost use Rattle.ycbcr_luma.specs.Ycbcr.{ycbcr_of};
ghost use Rattle.ycbcr_firmware.specs.Firmware.{weights_of};
ghost use Rattle.ycbcr_firmware.specs.Conversion.{conversion_of, left_by, paper as paper_of};
ghost use Rattle.ycbcr_planes.specs.Planes.{each_pixel, equally_long, planes};
ghost use Rattle.srgb10.specs.Codes.{Nearest, code_of, level_of};
ghost use Rattle.srgb10.specs.Curve.{IsLevel};
ghost use Rattle.srgb10_levels.specs.Levelling.{levelling_of, left_of, paper as paper_of_levels};
ghost use Rattle.chroma_half.specs.Fitting.{narrowed_into, narrowing, paper as paper_of_half, widened_into, widening};
ghost use Rattle.chroma_line.specs.Line.{line_fits, widened_both};

#[unsafe(no_mangle)]
pub extern "C" fn rindsaddle_mul_add(a: f32, b: f32, c: f32) -> f32
    ensures { result ≡ fused a b c }
{
    fused::mul_add(a, b, c)
}

#[unsafe(no_mangle)]
pub extern "C" fn rindsaddle_cbrt(x: f32) -> f32
    ensures nearest { T (is_root x result) }
    ensures value { result ≡ cbrt_of x }
{
    cbrt::cbrt(x)
}

// The channels of an ICC profile.
#[unsafe(no_mangle)]
pub extern "C" fn rindsaddle_icc_channels(profile: &[u8]) -> u8
    ensures { result ≡ icc_channels profile.now }
{
    encoding::icc_channels(profile)
}

// 0, or the number of the refusal.
#[unsafe(no_mangle)]
pub extern "C" fn rindsaddle_screen_bytes(samples: &[f32], bytes: &mut [u8]) -> u8
    ensures value { result ≡ (paper (showing_of samples.now bytes.old)).number }
    ensures bytes_after { bytes.new ≡ shown_of samples.now bytes.old }
{
    screen_bytes::paper(screen_bytes::screen_bytes(samples, bytes)).number
}

// Cb, Y, Cr in; R, G, B out. 0, or the number of the refusal.
#[unsafe(no_mangle)]
pub extern "C" fn rindsaddle_ycbcr_bytes(
    firmware: u32,
    cb: &[u8],
    y: &[u8],
    cr: &[u8],
    r: &mut [u8],
    g: &mut [u8],
    b: &mut [u8],
) -> u8
    ensures value { result ≡ (paper_of (conversion_of firmware (equally_long (planes cb.now y.now cr.now) (planes r.old g.old b.old)))).number }
    ensures b_after { planes r.new g.new b.new ≡ left_by (conversion_of firmware (equally_long (planes cb.now y.now cr.now) (planes r.old g.old b.old))) (each_pixel (rgb_of (weights_of firmware)) (planes cb.now y.now cr.now)) (planes r.old g.old b.old) }
{
    ycbcr_firmware::paper(ycbcr_bytes::ycbcr_to_rgb(firmware, cb, y, cr, r, g, b)).number
}

// R, G, B in; Cb, Y, Cr out. 0, or the number of the refusal.
#[unsafe(no_mangle)]
pub extern "C" fn rindsaddle_rgb_bytes(
    firmware: u32,
    r: &[u8],
    g: &[u8],
    b: &[u8],
    cb: &mut [u8],
    y: &mut [u8],
    cr: &mut [u8],
) -> u8
    ensures value { result ≡ (paper_of (conversion_of firmware (equally_long (planes r.now g.now b.now) (planes cb.old y.old cr.old)))).number }
    ensures cr_after { planes cb.new y.new cr.new ≡ left_by (conversion_of firmware (equally_long (planes r.now g.now b.now) (planes cb.old y.old cr.old))) (each_pixel (ycbcr_of (weights_of firmware)) (planes r.now g.now b.now)) (planes cb.old y.old cr.old) }
{
    ycbcr_firmware::paper(ycbcr_bytes_back::rgb_to_ycbcr(firmware, r, g, b, cb, y, cr)).number
}

// The level of a code of ten bits; 0 above 1023.
#[unsafe(no_mangle)]
pub extern "C" fn rindsaddle_level(code: u16) -> u16
    ensures nearest { code ≤ 1023 → IsLevel code result }
    ensures value { result ≡ level_of code }
{
    srgb10::level(code)
}

#[unsafe(no_mangle)]
pub extern "C" fn rindsaddle_code(level: u16) -> u16
    ensures nearest { Nearest level result }
    ensures value { result ≡ code_of level }
{
    srgb10::code(level)
}

// 0, or the number of the refusal.
#[unsafe(no_mangle)]
pub extern "C" fn rindsaddle_code_levels(codes: &[u16], levels: &mut [f32]) -> u8
    ensures value { result ≡ (paper_of_levels (levelling_of codes.now levels.old)).number }
    ensures levels_after { levels.new ≡ left_of codes.now levels.old }
{
    srgb10_levels::paper(srgb10_levels::code_levels(codes, levels)).number
}

// 0, or the number of the refusal.
#[unsafe(no_mangle)]
pub extern "C" fn rindsaddle_widen(line: &[u8], out: &mut [u8]) -> u8
    ensures value { result ≡ (paper_of_half (widening line.now out.old)).number }
    ensures out_after { out.new ≡ widened_into line.now out.old }
{
    chroma_half::paper(chroma_half::widen(line, out)).number
}

// 0, or the number of the refusal.
#[unsafe(no_mangle)]
pub extern "C" fn rindsaddle_narrow(line: &[u8], out: &mut [u8]) -> u8
    ensures value { result ≡ (paper_of_half (narrowing line.now out.old)).number }
    ensures out_after { out.new ≡ narrowed_into line.now out.old }
{
    chroma_half::paper(chroma_half::narrow(line, out)).number
}

// Cb and Cr at half width and Y in; R, G, B out. 0, or the number of the refusal.
#[unsafe(no_mangle)]
pub extern "C" fn rindsaddle_line_bytes(
    firmware: u32,
    cb: &[u8],
    y: &[u8],
    cr: &[u8],
    r: &mut [u8],
    g: &mut [u8],
    b: &mut [u8],
) -> u8
    ensures value { result ≡ (paper_of (conversion_of firmware (line_fits (planes cb.now y.now cr.now) (planes r.old g.old b.old)))).number }
    ensures b_after { planes r.new g.new b.new ≡ left_by (conversion_of firmware (line_fits (planes cb.now y.now cr.now) (planes r.old g.old b.old))) (each_pixel (rgb_of (weights_of firmware)) (widened_both (planes cb.now y.now cr.now))) (planes r.old g.old b.old) }
{
    ycbcr_firmware::paper(chroma_line::line_to_rgb(firmware, cb, y, cr, r, g, b)).number
}
