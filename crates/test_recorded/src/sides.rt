// Encodings and settings, from the first words of a part of a record. Apart from `encoding_numbers`, which has the like: a test does not share what it tests.
use encoding::{ColourSpace, EnumColourEncoding, RenderingIntent, Settings};
use test_record::from_word;

fn space(number: u32) -> ColourSpace {
    match number {
        0 => ColourSpace::Rgb,
        1 => ColourSpace::Grey,
        2 => ColourSpace::Xyb,
        _ => ColourSpace::Unknown,
    }
}

fn intent(number: u32) -> RenderingIntent {
    match number {
        0 => RenderingIntent::Perceptual,
        1 => RenderingIntent::Relative,
        2 => RenderingIntent::Saturation,
        _ => RenderingIntent::Absolute,
    }
}

// An encoding is a colour space, a white point, primaries, a curve and an intent. The part from its primaries on, and from its curve on.
fn at_primaries(words: &[u8]) -> &[u8] {
    let white = from_word(words, 1);
    from_word(white, test_record::white_words(white).unwrap_or(0))
}

fn at_curve(words: &[u8]) -> &[u8] {
    let primaries = at_primaries(words);
    from_word(
        primaries,
        test_record::primaries_words(primaries).unwrap_or(0),
    )
}

pub(crate) fn after_encoding(words: &[u8]) -> &[u8] {
    from_word(at_curve(words), 3)
}

pub(crate) fn is_encoding(words: &[u8]) -> bool {
    let curve = at_curve(words);
    test_record::word(words, 0) <= 3
        && test_record::white_words(from_word(words, 1)).is_some()
        && test_record::primaries_words(at_primaries(words)).is_some()
        && test_record::is_curve(curve)
        && test_record::word(curve, 2) <= 3
}

pub(crate) fn encoding_of(words: &[u8]) -> EnumColourEncoding {
    let curve = at_curve(words);
    EnumColourEncoding {
        colour_space: space(test_record::word(words, 0)),
        white_point: test_record::white_of(from_word(words, 1)),
        primaries: test_record::primaries_of(at_primaries(words)),
        tf: test_record::curve_of(curve),
        rendering_intent: intent(test_record::word(curve, 2)),
    }
}

// Settings are two floats and two flags, and then 0, or 1 and the inverse opsin matrix and the biases.
pub(crate) fn is_settings(words: &[u8]) -> bool {
    test_record::is_flag(from_word(words, 2))
        && test_record::is_flag(from_word(words, 3))
        && test_record::is_flag(from_word(words, 4))
}

fn has_opsin(words: &[u8]) -> bool {
    test_record::word(words, 4) == 1
}

pub(crate) fn after_settings(words: &[u8]) -> &[u8] {
    if has_opsin(words) {
        return from_word(words, 17);
    }
    from_word(words, 5)
}

// The part from the opsin matrix on; where there is none, no words, which read as 0.
fn at_opsin(words: &[u8]) -> &[u8] {
    if has_opsin(words) {
        return from_word(words, 5);
    }
    &words[..0]
}

pub(crate) fn settings_of(words: &[u8]) -> Settings {
    let opsin = at_opsin(words);
    Settings {
        inv_mat: test_record::mat_of(opsin),
        opsin_bias: test_record::vec_of(from_word(opsin, 9)),
        intensity_target: test_record::float(words, 0),
        min_nits: test_record::float(words, 1),
        detect_peak: test_record::word(words, 2) == 1,
        from_pq: test_record::word(words, 3) == 1,
    }
}
