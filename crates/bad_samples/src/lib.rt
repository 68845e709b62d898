// How many samples are infinite or NaN, and what an op's own step reports.
// Three slices, as `channels` says.
#![tactic(auto)]

ghost use Rattle.std.specs.Prelude.{◌≡◌, ◌+◌, ◌≤◌, length};
ghost use Rattle.channels.specs.Channels.{channels};
ghost use Rattle.bad_samples.specs.Bad.{one_if_bad, bad_in, bad_if, held, count_of, report_of};

use channels::Unequal;

// What an op's own step answers, and how many samples it left bad within the width that it gives: side by side, since 02 says what is counted where it
// is refused, 0.
#[derive(Clone, Copy, Debug, PartialEq, Eq)]
pub struct Stepped {
    pub answer: Result<u8, Unequal>,
    pub bad: u64,
}

fn one_if_bad(x: f32) -> u32
    ensures { result ≡ one_if_bad x }
{
    u32::from(!x.is_finite())
}

// Of a piece, in a number as wide as a sample: a processor counts four at once.
fn bad_in_piece(samples: &[f32]) -> u32
    requires { length samples.now ≤ 256 }
    ensures { result ≡ bad_in samples.now }
{
    let mut bad: u32 = 0;
    for x in samples {
        bad += one_if_bad(*x);
    }
    bad
}

fn bad_in(samples: &[f32]) -> u64
    ensures { result ≡ bad_in samples.now }
{
    let mut bad: u64 = 0;
    for piece in samples.chunks(256) {
        bad += u64::from(bad_in_piece(piece));
    }
    bad
}

// The sum of two counts, held.
pub fn sum(a: u64, b: u64) -> u64
    ensures { result ≡ held (a + b) }
{
    a.saturating_add(b)
}

// A channel outside the width is not looked at.
fn bad_if(inside: bool, samples: &[f32]) -> u64
    ensures { result ≡ bad_if inside samples.now }
{
    if inside { bad_in(samples) } else { 0 }
}

// Of the channels within the width.
pub fn count(width: u8, a: &[f32], b: &[f32], c: &[f32]) -> u64
    ensures { result ≡ count_of width (channels a.now b.now c.now) }
{
    let two = sum(bad_if(1 <= width, a), bad_if(2 <= width, b));
    sum(two, bad_if(3 <= width, c))
}

// The report of a step that answered this and left these channels.
pub fn report(answer: Result<u8, Unequal>, a: &[f32], b: &[f32], c: &[f32]) -> Stepped
    ensures { result ≡ report_of answer (channels a.now b.now c.now) }
{
    let bad = answer.map_or(0, |width| count(width, a, b, c));
    Stepped { answer, bad }
}
