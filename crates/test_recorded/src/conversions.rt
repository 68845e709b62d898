// Single numbers, and conversions of samples.
// Three slices, as `channels` says.
use crate::byte_channels::{ROOM, length};
use test_record::from_word;

// a, b, c and the answer.
pub(crate) fn same_fused(words: &[u8]) -> bool {
    let r = fused::mul_add(
        test_record::float(words, 0),
        test_record::float(words, 1),
        test_record::float(words, 2),
    );
    test_record::words(words) == 4 && binary32::to_pattern(r) == test_record::word(words, 3)
}

// x and the answer.
pub(crate) fn same_cbrt(words: &[u8]) -> bool {
    let r = cbrt::cbrt(test_record::float(words, 0));
    test_record::words(words) == 2 && binary32::to_pattern(r) == test_record::word(words, 1)
}

// Reads the given channels, converts them and compares what is answered and left with the answer's.
fn converts(firmware: u32, given: &[u8], cb: &mut [f32], y: &mut [f32], cr: &mut [f32]) -> bool {
    let after_cb = from_word(given, cb.len());
    let after_y = from_word(after_cb, y.len());
    let answer = from_word(after_y, cr.len());
    test_record::read_channels(given, cb, y, cr);
    let reached = ycbcr_firmware::paper(ycbcr_float::ycbcr_to_rgb(firmware, cb, y, cr));
    test_record::word(answer, 0) == reached.number as u32
        && test_record::same_channels(from_word(answer, 1), cb, y, cr)
}

// The firmware, the lengths of the three channels, these; the number, and the three after.
pub(crate) fn same_ycbcr(words: &[u8]) -> bool {
    let n_cb = length(words, 1);
    let n_y = length(words, 2);
    let n_cr = length(words, 3);
    if test_record::words(words) != 5 + 2 * (n_cb + n_y + n_cr) {
        return false;
    }
    let mut cb = [0.0f32; ROOM];
    let mut y = [0.0f32; ROOM];
    let mut cr = [0.0f32; ROOM];
    converts(
        test_record::word(words, 0),
        from_word(words, 4),
        &mut cb[..n_cb],
        &mut y[..n_y],
        &mut cr[..n_cr],
    )
}
