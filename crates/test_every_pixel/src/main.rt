// All 2^24 pixels of bytes by each set of weights: from YCbCr to RGB, from RGB to YCbCr, and from RGB there and back, the first byte slowest and the last
// fastest. Of each channel out, or of how far it moved modulo 256, its digest, and how many are 0 and 255.
// Slices of their own, as `ycbcr_planes` says.
#![tactic(auto)]

use std::io;

const MODULUS: u64 = 4294967291;

type Line = [u8; 256];

#[derive(Clone, Copy)]
struct Tally {
    digest: u64,
    zeros: u64,
    full: u64,
}

fn one_more(t: Tally, x: u8) -> Tally {
    Tally {
        digest: (t.digest % MODULUS * 257 + x as u64 + 1) % MODULUS,
        zeros: t.zeros.wrapping_add((x == 0) as u64),
        full: t.full.wrapping_add((x == 255) as u64),
    }
}

fn with(t: Tally, line: &Line) -> Tally {
    let mut sum = t;
    for x in line {
        sum = one_more(sum, *x);
    }
    sum
}

// How far each byte lies above what it was, modulo 256.
fn less(now: &mut Line, was: &Line) {
    for (x, y) in now.iter_mut().zip(was) {
        *x = x.wrapping_sub(*y);
    }
}

// How far each channel moves from RGB to YCbCr and back.
fn move_by(firmware: u32, r: &Line, g: &Line, b: &Line, x: &mut Line, y: &mut Line, z: &mut Line) {
    let mut cb = [0u8; 256];
    let mut luma = [0u8; 256];
    let mut cr = [0u8; 256];
    let _ = ycbcr_bytes_back::rgb_to_ycbcr(firmware, r, g, b, &mut cb, &mut luma, &mut cr);
    let _ = ycbcr_bytes::ycbcr_to_rgb(firmware, &cb, &luma, &cr, x, y, z);
    less(x, r);
    less(y, g);
    less(z, b);
}

// A line of 256 pixels, one for each last byte.
fn with_line<F>(t: [Tally; 3], convert: &F, first: u8, second: u8, c: &Line) -> [Tally; 3]
where
    F: Fn(&Line, &Line, &Line, &mut Line, &mut Line, &mut Line),
    requires { F.IsAlwaysCallable convert.now }
{
    let a = [first; 256];
    let b = [second; 256];
    let mut x = [0u8; 256];
    let mut y = [0u8; 256];
    let mut z = [0u8; 256];
    convert(&a, &b, c, &mut x, &mut y, &mut z);
    [with(t[0], &x), with(t[1], &y), with(t[2], &z)]
}

fn every<F>(convert: F) -> [Tally; 3]
where
    F: Fn(&Line, &Line, &Line, &mut Line, &mut Line, &mut Line),
    requires { F.IsAlwaysCallable convert }
{
    let none = Tally {
        digest: 0,
        zeros: 0,
        full: 0,
    };
    let mut t = [none; 3];
    let last = std::array::from_fn(|i| i as u8);
    for first in 0..=255u8 {
        for second in 0..=255u8 {
            let next = with_line(t, &convert, first, second, &last);
            t = next;
        }
    }
    t
}

fn print_three(rt: &impl Print, names: [&str; 3], tallies: [Tally; 3]) -> io::Result<()> {
    for (name, t) in names.into_iter().zip(tallies) {
        println!(rt; "{name} {} {} {}", t.digest, t.zeros, t.full)?;
    }
    Ok(())
}

fn print_all(rt: &impl Print, firmware: u32) -> io::Result<()> {
    println!(rt; "firmware {firmware}")?;
    let to_rgb = every(|a, b, c, x, y, z| {
        let _ = ycbcr_bytes::ycbcr_to_rgb(firmware, a, b, c, x, y, z);
    });
    print_three(rt, ["R", "G", "B"], to_rgb)?;
    let to_ycbcr = every(|a, b, c, x, y, z| {
        let _ = ycbcr_bytes_back::rgb_to_ycbcr(firmware, a, b, c, x, y, z);
    });
    print_three(rt, ["Cb", "Y", "Cr"], to_ycbcr)?;
    let moved = every(|a, b, c, x, y, z| move_by(firmware, a, b, c, x, y, z));
    print_three(rt, ["R moved", "G moved", "B moved"], moved)
}

fn main(rt: HostRuntime) -> io::Result<()> {
    print_all(&rt, 3)?;
    print_all(&rt, 4)
}
