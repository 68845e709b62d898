// A strip of a picture: bytes in, samples, their screen bytes, pixels out.
// Three slices, as `channels` says; `n` stays a number, as `program_io` says.
ghost use Rattle.std.specs.Prelude.{◌≤◌};

use pfm::Numbers;
use std::fs::File;
use std::io;
use std::io::Write;

// The screen bytes of three channels, and the pixels of these into a file, by way of the rooms for them. The lengths fit, here and below:
// each is that of the strip's pixels.
fn put_pixels(
    a: &[f32],
    b: &[f32],
    c: &[f32],
    red: &mut [u8],
    green: &mut [u8],
    blue: &mut [u8],
    out: &mut [u8],
    file: &mut File,
) -> io::Result<()> {
    let _ = screen_bytes::screen_bytes(a, red);
    let _ = screen_bytes::screen_bytes(b, green);
    let _ = screen_bytes::screen_bytes(c, blue);
    let _ = pfm::pixels_to(red, green, blue, out);
    file.write_all(out)
}

fn put_screen(n: usize, a: &[f32], b: &[f32], c: &[f32], file: &mut File) -> io::Result<()>
    requires { n ≤ 65536 }
{
    let mut red = program_io::channel_bytes();
    let mut green = program_io::channel_bytes();
    let mut blue = program_io::channel_bytes();
    let mut out = program_io::strip_bytes();
    put_pixels(
        a,
        b,
        c,
        &mut red[..n],
        &mut green[..n],
        &mut blue[..n],
        &mut out[..3 * n],
        file,
    )
}

// A grey sample's byte stands three times.
fn put_samples(
    numbers: Numbers,
    n: usize,
    bytes: &[u8],
    a: &mut [f32],
    b: &mut [f32],
    c: &mut [f32],
    file: &mut File,
) -> io::Result<()>
    requires { n ≤ 65536 }
{
    let _ = pfm::channels_from(numbers.channels, bytes, numbers.little, a, b, c);
    if numbers.channels == 3 {
        return put_screen(n, a, b, c, file);
    }
    put_screen(n, a, a, a, file)
}

// So many pixels, into the file.
pub(crate) fn strip(numbers: Numbers, n: usize, bytes: &[u8], file: &mut File) -> io::Result<()>
    requires { n ≤ 65536 }
{
    let mut a = program_io::samples();
    let mut b = program_io::samples();
    let mut c = program_io::samples();
    put_samples(
        numbers,
        n,
        bytes,
        &mut a[..n],
        &mut b[..n],
        &mut c[..n],
        file,
    )
}
