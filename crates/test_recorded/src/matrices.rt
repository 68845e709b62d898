// Calls of the matrix functions: arguments, and the answer last. The words are those after a record's kind.
// Named values and chromaticities apart: what reads the one and the other is most of each function.
use ciexyz::{Mat3, Primaries, Triangle, Vec3, WhitePoint, Xy};
use test_record::{
    from_word, mat_of, primaries_of, primaries_words, same_samples, vec_of, white_of, white_words,
    xy_of,
};

fn triangle_of(words: &[u8]) -> Triangle {
    Triangle {
        red: xy_of(words),
        green: xy_of(from_word(words, 2)),
        blue: xy_of(from_word(words, 4)),
    }
}

// The answer is all that is left of the record.
fn same_vec(answer: &[u8], v: Vec3) -> bool {
    test_record::words(answer) == 3 && same_samples(answer, &[v.v0, v.v1, v.v2])
}

fn same_mat(answer: &[u8], m: Mat3) -> bool {
    let entries = [m.m0, m.m1, m.m2, m.m3, m.m4, m.m5, m.m6, m.m7, m.m8];
    test_record::words(answer) == 9 && same_samples(answer, &entries)
}

pub(crate) fn same_matmul3(words: &[u8]) -> bool {
    let b = from_word(words, 9);
    same_mat(
        from_word(words, 18),
        ciexyz::matmul3(mat_of(words), mat_of(b)),
    )
}

pub(crate) fn same_matmul3vec(words: &[u8]) -> bool {
    let b = from_word(words, 9);
    same_vec(
        from_word(words, 12),
        ciexyz::matmul3vec(mat_of(words), vec_of(b)),
    )
}

pub(crate) fn same_matinv(words: &[u8]) -> bool {
    same_mat(from_word(words, 9), ciexyz::matinv(mat_of(words)))
}

pub(crate) fn same_xyz(words: &[u8]) -> bool {
    same_vec(from_word(words, 2), ciexyz::illuminant_to_xyz(xy_of(words)))
}

pub(crate) fn same_adapt_xy(words: &[u8]) -> bool {
    let to = from_word(words, 2);
    same_mat(
        from_word(words, 4),
        ciexyz::adapt_mat(xy_of(words), xy_of(to)),
    )
}

// The part behind a white point, where one stands, and behind primaries.
fn behind_white(words: &[u8]) -> Option<&[u8]> {
    Some(from_word(words, white_words(words)?))
}

fn behind_primaries(words: &[u8]) -> Option<&[u8]> {
    Some(from_word(words, primaries_words(words)?))
}

pub(crate) fn same_adapt(words: &[u8]) -> bool {
    let Some(to) = behind_white(words) else {
        return false;
    };
    let Some(answer) = behind_white(to) else {
        return false;
    };
    same_mat(answer, ciexyz::adapt_mat(white_of(words), white_of(to)))
}

// A matrix of chromaticities.
pub(crate) fn same_mat_xy<F: Fn(Triangle, Xy) -> Mat3>(words: &[u8], mat: F) -> bool
    requires { F.IsAlwaysCallable mat }
{
    let white = from_word(words, 6);
    same_mat(from_word(words, 8), mat(triangle_of(words), xy_of(white)))
}

// A matrix of named values.
pub(crate) fn same_mat_named<F: Fn(Primaries, WhitePoint) -> Mat3>(words: &[u8], mat: F) -> bool
    requires { F.IsAlwaysCallable mat }
{
    let Some(white) = behind_primaries(words) else {
        return false;
    };
    let Some(answer) = behind_white(white) else {
        return false;
    };
    same_mat(answer, mat(primaries_of(words), white_of(white)))
}
