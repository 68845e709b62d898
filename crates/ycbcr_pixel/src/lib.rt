// One pixel from YCbCr to RGB, exactly, by products of 16 bits and shifts: nothing is divided, and no product is wider than 32 bits.
#![tactic(auto)]

mod forms;
mod numbers;

ghost use Rattle.std.specs.Prelude.{◌≡◌, ◌≤◌, ◌+◌, ◌*◌, ◌/◌};
ghost use Rattle.nearest.specs.Nearest.{held};
ghost use Rattle.ycbcr_weights.specs.Rgb.{rgb_of};
ghost use Rattle.ycbcr_pixel.specs.Numbers.{Small, across, stretched};
ghost use Rattle.ycbcr_pixel.specs.Steps.{Row};

pub use forms::{Forms, forms_of};
use numbers::Numbers;
use ycbcr_weights::Pixel;

// The high half of a product.
pub fn high(z: u16, a: u16) -> u16
    ensures { result ≡ z * a / 0x1_0000 }
{
    (z as u32 * a as u32 / 0x1_0000) as u16
}

// t - k, held within 0 to 255.
fn held(t: u16, k: u16) -> u8
    requires { (t ≤ 2047) × (k ≤ 511) }
    ensures { result ≡ held t k }
{
    (t as i16 - k as i16).clamp(0, 255) as u8
}

// Red and blue.
fn red_or_blue(d: u8, a: u16, k: u16, y: u8, x: u8) -> u8
    requires { k ≤ 511 }
    ensures { result ≡ held (stretched d a y x) k }
{
    let x = x as u16;
    held(y as u16 + (x + high(x + d as u16, a)), k)
}

// One digit of green's numbers, and what the digits below it carry.
fn row(a: u8, b: u8, c: u16, u: u8, v: u8) -> u16
    requires { (a ≤ 127) × (b ≤ 127) × (c ≤ 638) }
    ensures { Row a b c u v result }
{
    (a as u16 * u as u16 + b as u16 * v as u16 + c) / 128
}

fn green(n: Numbers, p: Pixel) -> u8
    requires { Small n }
    ensures { result ≡ held (across n p) n.gk }
{
    let u = 255 - p.c0;
    let v = 255 - p.c2;
    let low = row(n.a2, n.b2, 0, u, v);
    let mid = row(n.a1, n.b1, n.c1 as u16 + low, u, v);
    let high = row(n.a0, n.b0, n.c0 as u16 + mid, u, v);
    held(p.c1 as u16 + high, n.gk as u16)
}

// Cb, Y, Cr in; R, G, B out.
pub fn rgb(f: Forms, p: Pixel) -> Pixel
    ensures { result ≡ rgb_of f.weights p }
{
    let n = f.numbers;
    Pixel {
        c0: red_or_blue(n.rd, n.ra, n.rk, p.c1, p.c2),
        c1: green(n, p),
        c2: red_or_blue(n.bd, n.ba, n.bk, p.c1, p.c0),
    }
}
