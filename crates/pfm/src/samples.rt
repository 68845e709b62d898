// Samples as the bytes of a portable float map. Which byte comes first stays a bool, the header's own: the contracts take it.
// Three slices, as `channels` says.
ghost use Rattle.std.specs.Prelude.{◌≡◌, ◌+◌, ◌*◌, ◌≤◌, ◌<◌, eqb, length, replicate};
ghost use Rattle.notation.specs.F32.{zero};
ghost use Rattle.channels.specs.Channels.{EquallyLong, channels, triples};
ghost use Rattle.block_write.specs.Bytes.{joined};
ghost use Rattle.pfm.specs.Samples.{word_at, sample_at, channel_in, told, fits_by, fits, three_from, one_from, word_bytes, sample_bytes, pixel_bytes, three_to, fits_one, one_to, size_of, channels_from};

use ciexyz::Vec3;

// The lengths do not fit, and nothing was changed. A type of its own: no number refuses it.
#[derive(Clone, Copy, Debug, PartialEq, Eq)]
pub struct Unfit;

// Four bytes from a place on.
fn word_at(s: &[u8], at: usize, little: bool) -> u32
    requires { at + 4 ≤ length s.now }
    ensures { result ≡ word_at little s.now at }
{
    let bytes = [s[at], s[at + 1], s[at + 2], s[at + 3]];
    if little {
        return u32::from_le_bytes(bytes);
    }
    u32::from_be_bytes(bytes)
}

// Every NaN's pattern is the one NaN.
#[tactic(auto, unfolding(crate::specs::Samples::sample_at))]
fn sample_at(s: &[u8], at: usize, little: bool) -> f32
    requires { at + 4 ≤ length s.now }
    ensures { result ≡ sample_at little s.now at }
{
    binary32::from_pattern(word_at(s, at, little))
}

// One channel of pixels of `size` bytes, from this place in each pixel on.
fn channel_from(s: &[u8], size: usize, from: usize, little: bool, out: &mut [f32])
    requires { (length s.now ≡ length out.old * size) × (from + 4 ≤ size) }
    ensures { out.new ≡ channel_in little s.now size from (length out.old) }
{
    for (i, x) in out.iter_mut().enumerate() {
        *x = sample_at(s, i * size + from, little);
    }
}

fn zeros(out: &mut [f32])
    ensures { out.new ≡ replicate (length out.old) zero }
{
    out.fill(0.0);
}

// Whether a number is a product, which itself might not fit.
fn is_product(n: usize, count: usize, size: usize) -> bool
    ensures { result ≡ eqb n (count * size) }
{
    count.checked_mul(size) == Some(n)
}

fn told(fits: bool) -> Result<(), Unfit>
    ensures { result ≡ told fits }
{
    if fits { Ok(()) } else { Err(Unfit) }
}

// Whether so many bytes are those of the pixels of three channels.
pub(crate) fn fit(bytes: usize, a: usize, b: usize, c: usize, size: usize) -> Result<(), Unfit>
    ensures { result ≡ told (fits_by size bytes a b c) }
{
    told(channels::same_lengths(a, b, c) & is_product(bytes, a, size))
}

// The samples of three channels from bytes, where the lengths fit.
pub fn three_from(
    s: &[u8],
    little: bool,
    a: &mut [f32],
    b: &mut [f32],
    c: &mut [f32],
) -> Result<(), Unfit>
    ensures value { result ≡ told (fits 12 s.now (channels a.old b.old c.old)) }
    ensures c_after { channels a.new b.new c.new ≡ three_from little s.now (channels a.old b.old c.old) }
{
    fit(s.len(), a.len(), b.len(), c.len(), 12)?;
    channel_from(s, 12, 0, little, a);
    channel_from(s, 12, 4, little, b);
    channel_from(s, 12, 8, little, c);
    Ok(())
}

// The samples of one channel, and zeros in the two others. Kept beside `three_from`: a form of both would take what fills the others.
pub fn one_from(
    s: &[u8],
    little: bool,
    a: &mut [f32],
    b: &mut [f32],
    c: &mut [f32],
) -> Result<(), Unfit>
    ensures value { result ≡ told (fits 4 s.now (channels a.old b.old c.old)) }
    ensures c_after { channels a.new b.new c.new ≡ one_from little s.now (channels a.old b.old c.old) }
{
    fit(s.len(), a.len(), b.len(), c.len(), 4)?;
    channel_from(s, 4, 0, little, a);
    zeros(b);
    zeros(c);
    Ok(())
}

fn word_bytes(n: u32, little: bool) -> [u8; 4]
    ensures { result ≡ word_bytes little n }
{
    if little {
        n.to_le_bytes()
    } else {
        n.to_be_bytes()
    }
}

// A NaN is put as 7fc00000.
fn sample_bytes(x: f32, little: bool) -> [u8; 4]
    ensures { result ≡ sample_bytes little x }
{
    word_bytes(binary32::to_pattern(x), little)
}

fn pixel_bytes(v: Vec3, little: bool) -> [u8; 12]
    ensures { result ≡ pixel_bytes little v }
{
    let [a, b, c, d] = sample_bytes(v.v0, little);
    let [e, f, g, h] = sample_bytes(v.v1, little);
    let [i, j, k, l] = sample_bytes(v.v2, little);
    [a, b, c, d, e, f, g, h, i, j, k, l]
}

fn put_pixels(out: &mut [u8], a: &[f32], b: &[f32], c: &[f32], little: bool)
    requires equally_long { EquallyLong (channels a.now b.now c.now) }
    requires out_len { length out.old ≡ length a.now * 12 }
    ensures { out.new ≡ joined (pixel_bytes little) (triples a.now b.now c.now) }
{
    let mut at: usize = 0;
    for i in 0..a.len() {
        let v = Vec3 {
            v0: a[i],
            v1: b[i],
            v2: c[i],
        };
        at = buffer::put(out, at, &pixel_bytes(v, little));
    }
}

fn put_samples(out: &mut [u8], a: &[f32], little: bool)
    requires { length out.old ≡ length a.now * 4 }
    ensures { out.new ≡ joined (sample_bytes little) a.now }
{
    let mut at: usize = 0;
    for x in a {
        at = buffer::put(out, at, &sample_bytes(*x, little));
    }
}

// Three channels as bytes, where the lengths fit.
pub fn three_to(a: &[f32], b: &[f32], c: &[f32], little: bool, out: &mut [u8]) -> Result<(), Unfit>
    ensures value { result ≡ told (fits 12 out.old (channels a.now b.now c.now)) }
    ensures out_after { out.new ≡ three_to little (channels a.now b.now c.now) out.old }
{
    fit(out.len(), a.len(), b.len(), c.len(), 12)?;
    put_pixels(out, a, b, c, little);
    Ok(())
}

// One channel as bytes.
pub fn one_to(a: &[f32], little: bool, out: &mut [u8]) -> Result<(), Unfit>
    ensures value { result ≡ told (fits_one out.old a.now) }
    ensures out_after { out.new ≡ one_to little a.now out.old }
{
    told(is_product(out.len(), a.len(), 4))?;
    put_samples(out, a, little);
    Ok(())
}

// Three channels, or one and zeros in the two others.
pub fn channels_from(
    count: u8,
    s: &[u8],
    little: bool,
    a: &mut [f32],
    b: &mut [f32],
    c: &mut [f32],
) -> Result<(), Unfit>
    ensures value { result ≡ told (fits (size_of count) s.now (channels a.old b.old c.old)) }
    ensures c_after { channels a.new b.new c.new ≡ channels_from count little s.now (channels a.old b.old c.old) }
{
    if count == 3 {
        return three_from(s, little, a, b, c);
    }
    one_from(s, little, a, b, c)
}
