// Screen bytes: n, the samples, and the byte of each, a word to a byte.
use test_record::from_word;

// More samples than a record has room for.
const ROOM: usize = 256;

fn same_bytes(answer: &[u8], bytes: &[u8]) -> bool {
    bytes
        .iter()
        .enumerate()
        .all(|(i, byte)| *byte as u32 == test_record::word(answer, i))
}

// Reads the given samples, converts them and compares their bytes with the answer's.
fn shows(given: &[u8], answer: &[u8], samples: &mut [f32], bytes: &mut [u8]) -> bool {
    test_record::read_samples(given, samples);
    screen_bytes::screen_bytes(samples, bytes).is_ok() && same_bytes(answer, bytes)
}

pub(crate) fn same_screen(words: &[u8]) -> bool {
    let n = test_record::word(words, 0) as usize;
    if n > ROOM || test_record::words(words) != 1 + 2 * n {
        return false;
    }
    let mut samples = [0.0f32; ROOM];
    let mut bytes = [0u8; ROOM];
    shows(
        from_word(words, 1),
        from_word(words, 1 + n),
        &mut samples[..n],
        &mut bytes[..n],
    )
}
