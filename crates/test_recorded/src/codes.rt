// Ten-bit sRGB codes, and slices of them.
use test_record::from_word;

// More codes than a record has room for.
const ROOM: usize = 256;

// Whether each level from the first to the last has this code.
fn return_to(code: u16, first: u16, last: u16) -> bool {
    (first..=last).all(|level| srgb10::code(level) == code)
}

// A word as a code or a level.
fn small(words: &[u8], k: usize) -> u16 {
    (test_record::word(words, k) % 65536) as u16
}

// A code; its level, and the first and last level whose code it is.
pub(crate) fn same_code(words: &[u8]) -> bool {
    let code = small(words, 0);
    test_record::words(words) == 4
        && srgb10::level(code) == small(words, 1)
        && return_to(code, small(words, 2), small(words, 3))
}

fn read_codes(words: &[u8], codes: &mut [u16]) {
    for (i, code) in codes.iter_mut().enumerate() {
        *code = small(words, i);
    }
}

// Reads the given codes, converts them and compares what is answered and left with the answer's.
fn levels_alike(given: &[u8], answer: &[u8], codes: &mut [u16], levels: &mut [f32]) -> bool {
    read_codes(given, codes);
    let reached = srgb10_levels::paper(srgb10_levels::code_levels(codes, levels));
    reached.number as u32 == test_record::word(answer, 0)
        && test_record::same_samples(from_word(answer, 1), levels)
}

// n, the codes, m, what each of the m levels holds before; number, the m levels after.
pub(crate) fn same_levels(words: &[u8]) -> bool {
    let n = test_record::word(words, 0) as usize;
    if n > ROOM {
        return false;
    }
    let m = test_record::word(words, 1 + n) as usize;
    if m > ROOM {
        return false;
    }
    if test_record::words(words) != 4 + n + m {
        return false;
    }
    let mut codes = [0u16; ROOM];
    let mut levels = [test_record::float(words, 2 + n); ROOM];
    levels_alike(
        from_word(words, 1),
        from_word(words, 3 + n),
        &mut codes[..n],
        &mut levels[..m],
    )
}
