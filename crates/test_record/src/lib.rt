// Recorded answers as text, a record to a line: words of eight hexadecimal digits in lower case, a single space between two.
// What the tests read is compared and not proved: the contracts here are those that safety rests on.
#![tactic(auto)]

ghost use Rattle.std.specs.Prelude.{◌+◌, ◌≤◌, ◌<◌, length};

mod colours; // colours.rt: vectors, matrices, white points, primaries and curves
mod ops; // ops.rt: ops and lists of ops
mod samples; // samples.rt: samples, and three channels of them

pub use colours::{
    curve_of, is_curve, is_flag, mat_of, primaries_of, primaries_words, vec_of, white_of,
    white_words, xy_of,
};
pub use ops::{Found, list_at};
pub use samples::{read_channels, read_samples, same_channels, same_samples};

// What a digit counts, `0` to `9` and `a` to `f`. By hand, here and below: a record is in lower case, and the library's reading takes more.
fn digit(b: u8) -> u32
    ensures { result < 16 }
{
    if b >= b'a' {
        return ((b % 16 + 9) % 16) as u32;
    }
    (b % 16) as u32
}

// Whether the byte b can stand at the place i of a record: of every nine bytes the ninth is a space, and the others are digits.
fn can_stand(i: usize, b: u8) -> bool {
    if i % 9 == 8 {
        return b == b' ';
    }
    matches!(b, b'0'..=b'9' | b'a'..=b'f')
}

pub fn is_record(line: &[u8]) -> bool {
    line.len() % 9 == 8 && line.iter().enumerate().all(|(i, b)| can_stand(i, *b))
}

// How many words a record has.
pub fn words(line: &[u8]) -> usize {
    line.len() / 9 + 1
}

fn half(line: &[u8], at: usize) -> u32
    requires { at + 4 ≤ length line.now }
    ensures { result < 65536 }
{
    digit(line[at]) * 4096
        + digit(line[at + 1]) * 256
        + digit(line[at + 2]) * 16
        + digit(line[at + 3])
}

// Word k of a line, counted from 0; 0 where the line is too short, and no None: each kind compares how long the record is.
pub fn word(line: &[u8], k: usize) -> u32 {
    if line.len() < 8 {
        return 0;
    }
    if (line.len() - 8) / 9 < k {
        return 0;
    }
    half(line, 9 * k) * 65536 + half(line, 9 * k + 4)
}

// The part of a line from word k on.
pub fn from_word(line: &[u8], k: usize) -> &[u8] {
    if line.len() / 9 < k {
        return &line[..0];
    }
    &line[9 * k..]
}

// Word k of a line as a float; every NaN's pattern is the one NaN.
pub fn float(line: &[u8], k: usize) -> f32 {
    binary32::from_pattern(word(line, k))
}

// A word in two's complement.
pub fn signed_of(n: u32) -> i32 {
    n.cast_signed()
}
