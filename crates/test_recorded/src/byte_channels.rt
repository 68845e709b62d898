// YCbCr to RGB over bytes, of a line with chroma at half width too, and back: the firmware, the lengths of the three channels in, a, b, c, and out, d, e, f, their bytes, four to a word; the bytes
// of those out after, and the number.
// Slices of their own, as `ycbcr_planes` says.
ghost use Rattle.std.specs.Prelude.{◌≤◌};

use crate::blocks::{byte_at, read_bytes};
use test_record::from_word;
use ycbcr_firmware::ConversionError;

// More bytes or samples of a channel than a record has room for.
pub(crate) const ROOM: usize = 256;

// The words after those of n bytes.
pub(crate) fn past(words: &[u8], n: usize) -> &[u8] {
    from_word(words, n.div_ceil(4))
}

// As `test_record::same_samples`; a loop of one line each, and a common one would take a closure for the word.
pub(crate) fn same_bytes(words: &[u8], bytes: &[u8]) -> bool {
    bytes
        .iter()
        .enumerate()
        .all(|(i, byte)| *byte == byte_at(words, i))
}

// Whether the answer has these channels and this number, and nothing after.
fn left(answer: &[u8], d: &[u8], e: &[u8], f: &[u8], number: u8) -> bool {
    let at_e = past(answer, d.len());
    let at_f = past(at_e, e.len());
    let last = past(at_f, f.len());
    same_bytes(answer, d)
        && same_bytes(at_e, e)
        && same_bytes(at_f, f)
        && last.len() == 8
        && test_record::word(last, 0) == number as u32
}

// Reads three channels; the words after them.
fn read_three<'w>(words: &'w [u8], a: &mut [u8], b: &mut [u8], c: &mut [u8]) -> &'w [u8] {
    let at_b = past(words, a.len());
    let at_c = past(at_b, b.len());
    read_bytes(words, a);
    read_bytes(at_b, b);
    read_bytes(at_c, c);
    past(at_c, c.len())
}

// Reads the channels in and out, converts and compares what is answered and left with the answer's.
fn converts<
    F: Fn(u32, &[u8], &[u8], &[u8], &mut [u8], &mut [u8], &mut [u8]) -> Result<(), ConversionError>,
>(
    conversion: F,
    firmware: u32,
    words: &[u8],
    a: &mut [u8],
    b: &mut [u8],
    c: &mut [u8],
    d: &mut [u8],
    e: &mut [u8],
    f: &mut [u8],
) -> bool
    requires { F.IsAlwaysCallable conversion }
{
    let outs = read_three(words, a, b, c);
    let answer = read_three(outs, d, e, f);
    let converted = conversion(firmware, a, b, c, d, e, f);
    left(answer, d, e, f, ycbcr_firmware::paper(converted).number)
}

// A length that the record gives, or 0 where there is no room for it: the record then has other words than the lengths say.
pub(crate) fn length(words: &[u8], k: usize) -> usize
    ensures { result ≤ 256 }
{
    let n = test_record::word(words, k) as usize;
    if n > ROOM {
        return 0;
    }
    n
}

// By the conversion that this kind of record is of.
pub(crate) fn same_conversion<
    F: Fn(u32, &[u8], &[u8], &[u8], &mut [u8], &mut [u8], &mut [u8]) -> Result<(), ConversionError>,
>(words: &[u8], conversion: F) -> bool
    requires { F.IsAlwaysCallable conversion }
{
    let n_a = length(words, 1);
    let n_b = length(words, 2);
    let n_c = length(words, 3);
    let n_d = length(words, 4);
    let n_e = length(words, 5);
    let n_f = length(words, 6);
    let mut a = [0u8; ROOM];
    let mut b = [0u8; ROOM];
    let mut c = [0u8; ROOM];
    let mut d = [0u8; ROOM];
    let mut e = [0u8; ROOM];
    let mut f = [0u8; ROOM];
    converts(
        conversion,
        test_record::word(words, 0),
        from_word(words, 7),
        &mut a[..n_a],
        &mut b[..n_b],
        &mut c[..n_c],
        &mut d[..n_d],
        &mut e[..n_e],
        &mut f[..n_f],
    )
}
