// One pixel from RGB to YCbCr, exactly, by products of 16 bits and shifts: nothing is divided, and no product is wider than 32 bits.
#![tactic(auto)]

mod forms;
mod numbers;

ghost use Rattle.std.specs.Prelude.{◌≡◌, ◌≤◌, ◌+◌, ◌*◌};
ghost use Rattle.nearest.specs.Nearest.{held};
ghost use Rattle.ycbcr_luma.specs.Ycbcr.{ycbcr_of};
ghost use Rattle.ycbcr_pixel_back.specs.Numbers.{Small, halved, weighed};

pub use forms::{Forms, forms_of};
use numbers::Numbers;
use ycbcr_weights::Pixel;

// One digit of luma's numbers, and what the digits below it carry.
fn row(a: u8, b: u8, c: u16, red: u16, blue: u16) -> u16
    requires small { 510 * (a + b) + c ≤ 0xffff }
    requires within { (red ≤ 510) × (blue ≤ 510) }
    ensures { result ≡ a * red + b * blue + c }
{
    a as u16 * red + b as u16 * blue + c
}

// From green, and from how far red and blue stand above it.
fn luma(n: Numbers, g: u8, red: u16, blue: u16) -> u8
    requires small { Small n }
    requires within { (red ≤ 510) × (blue ≤ 510) }
    ensures { result ≡ held (weighed n g red blue) n.yk }
{
    let low = row(n.a2, n.b2, 0, red, blue) / 64;
    let mid = row(n.a1, n.b1, n.c1 as u16 + low, red, blue) / 128;
    let high = row(n.a0, n.b0, n.c0 as u16 + mid, red, blue) / 256;
    ((g as u16 + high) as i16 - n.yk as i16).clamp(0, 255) as u8
}

// Cb and Cr: half of how far the chroma's own colour stands above green, less what the other's does.
fn chroma(m: u8, a: u16, d: u8, k: u8, own: u16, other: u16) -> u8
    requires small { m ≤ 15 }
    requires within { (own ≤ 510) × (other ≤ 510) }
    ensures { result ≡ held (halved m a d k own other) 0 }
{
    let w = 510 - other;
    let high = (m as u16 * w + ycbcr_pixel::high(w + d as u16, a)) / 32;
    (((own + high) as i16 - k as i16) >> 1).clamp(0, 255) as u8
}

// R, G, B in; Cb, Y, Cr out.
pub fn ycbcr(f: Forms, p: Pixel) -> Pixel
    ensures { result ≡ ycbcr_of f.weights p }
{
    let n = f.numbers;
    let below = 255 - p.c1;
    let red = p.c0 as u16 + below as u16;
    let blue = p.c2 as u16 + below as u16;
    Pixel {
        c0: chroma(n.um, n.ua, n.ud, n.uk, blue, red),
        c1: luma(n, p.c1, red, blue),
        c2: chroma(n.vm, n.va, n.vd, n.vk, red, blue),
    }
}
