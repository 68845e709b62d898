// Vectors, matrices, white points, primaries and curves, each from the first words of a part of a record.
// Apart from `encoding_numbers`, which has the like: a test does not share what it tests.
use crate::{float, from_word, signed_of, word};
use ciexyz::{Mat3, Millionths, Primaries, Vec3, WhitePoint, Xy};
use op::Curve;

pub fn xy_of(words: &[u8]) -> Xy {
    Xy {
        x: float(words, 0),
        y: float(words, 1),
    }
}

pub fn vec_of(words: &[u8]) -> Vec3 {
    Vec3 {
        v0: float(words, 0),
        v1: float(words, 1),
        v2: float(words, 2),
    }
}

// A matrix, by rows.
pub fn mat_of(words: &[u8]) -> Mat3 {
    ciexyz::mat_by_rows(
        vec_of(words),
        vec_of(from_word(words, 3)),
        vec_of(from_word(words, 6)),
    )
}

fn point_of(words: &[u8]) -> Millionths {
    Millionths {
        x: signed_of(word(words, 0)),
        y: signed_of(word(words, 1)),
    }
}

// A white point is a number, and after Custom's two coordinates.
pub fn white_of(words: &[u8]) -> WhitePoint {
    match word(words, 0) {
        0 => WhitePoint::D65,
        1 => WhitePoint::E,
        2 => WhitePoint::Dci,
        _ => WhitePoint::Custom(point_of(from_word(words, 1))),
    }
}

// How many words a value takes that is 0, 1, 2, or 3 and coordinates.
fn words_by(number: u32, custom: usize) -> Option<usize> {
    match number {
        0..=2 => Some(1),
        3 => Some(custom),
        _ => None,
    }
}

// How many words a white point takes, where the number is one's.
pub fn white_words(words: &[u8]) -> Option<usize> {
    words_by(word(words, 0), 3)
}

// The same of primaries, with six coordinates.
pub fn primaries_of(words: &[u8]) -> Primaries {
    match word(words, 0) {
        0 => Primaries::Srgb,
        1 => Primaries::Bt2100,
        2 => Primaries::P3,
        _ => Primaries::Custom {
            red: point_of(from_word(words, 1)),
            green: point_of(from_word(words, 3)),
            blue: point_of(from_word(words, 5)),
        },
    }
}

pub fn primaries_words(words: &[u8]) -> Option<usize> {
    words_by(word(words, 0), 7)
}

// Whether the first word is a flag, 0 or 1.
pub fn is_flag(words: &[u8]) -> bool {
    word(words, 0) <= 1
}

// Whether the first two words are a curve: its number, and a `g` that is 0 but for the two Gammas.
pub fn is_curve(words: &[u8]) -> bool {
    let number = word(words, 0);
    number < 2 || (number <= 8 && word(words, 1) == 0)
}

pub fn curve_of(words: &[u8]) -> Curve {
    op_fields::curve_numbered(word(words, 0), word(words, 1))
}
