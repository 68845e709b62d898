// Chroma at half width: widening and narrowing of a byte line.
#![tactic(auto)]

ghost use Rattle.std.specs.Prelude.{◌*◌, ◌/◌, ◌<◌, ◌≡◌, length};
ghost use Rattle.chroma_half.specs.Twice.{fits_twice};
ghost use Rattle.chroma_half.specs.Widening.{mix_of, output_at};
ghost use Rattle.chroma_half.specs.Steps.{Beside};
ghost use Rattle.chroma_half.specs.Narrowing.{mean_of};
ghost use Rattle.chroma_half.specs.Fitting.{narrowed_into, narrowing, paper, widened_into, widening};

use notation::Answer;

// Refusal 4: the lent lengths do not fit, and nothing was changed. A type of its own beside `channels::Unequal`: what fits here are no equal lengths.
#[derive(Clone, Copy, Debug, PartialEq, Eq)]
pub struct Unfit;

// The paper's answer.
pub fn paper(fitting: Result<(), Unfit>) -> Answer
    ensures { result ≡ paper fitting }
{
    match fitting {
        Ok(()) => Answer::done(0),
        Err(Unfit) => Answer::refused(4),
    }
}

// Whether n bytes widen to m, and so m narrow to n.
pub fn fits_twice(n: usize, m: usize) -> bool
    ensures { result ≡ fits_twice n m }
{
    m.div_ceil(2) == n
}

// (3a + b)/4 to the nearest, halves upward.
#[tactic(auto, unfolding(crate::specs::Widening::mix_of, nearest::specs::Nearest::byte_of))]
fn mix(a: u8, b: u8) -> u8
    ensures { result ≡ mix_of a b }
{
    ((3 * a as u16 + b as u16 + 2) / 4) as u8
}

// Which of n bytes is the neighbour that output j takes.
fn beside(n: usize, j: usize) -> usize
    requires { j / 2 < n }
    ensures { Beside n j result }
{
    let i = j / 2;
    if j % 2 == 0 {
        i.saturating_sub(1)
    } else {
        (i + 1).min(n - 1)
    }
}

// Output j, and 0 where there is none.
pub fn output_at(c: &[u8], j: usize) -> u8
    ensures { result ≡ output_at c.now j }
{
    if j / 2 < c.len() {
        let k = beside(c.len(), j);
        return mix(c[j / 2], c[k]);
    }
    0
}

// Two outputs between each byte and the one before it; the first and the last, whose neighbour lies past the line, by themselves.
pub fn widen(c: &[u8], out: &mut [u8]) -> Result<(), Unfit>
    ensures value { result ≡ widening c.now out.old }
    ensures out_after { out.new ≡ widened_into c.now out.old }
{
    if !fits_twice(c.len(), out.len()) {
        return Err(Unfit);
    }
    for i in 1..c.len() {
        out[2 * i - 1] = mix(c[i - 1], c[i]);
        out[2 * i] = mix(c[i], c[i - 1]);
    }
    let m = out.len();
    if m > 0 {
        out[0] = output_at(c, 0);
        out[m - 1] = output_at(c, m - 1);
    }
    Ok(())
}

// (a + b)/2 to the nearest, halves upward.
#[tactic(auto, unfolding(crate::specs::Narrowing::mean_of, nearest::specs::Nearest::byte_of))]
fn mean(a: u8, b: u8) -> u8
    ensures { result ≡ mean_of a b }
{
    ((a as u16 + b as u16 + 1) / 2) as u8
}

// Each pair's mean, and an odd last byte as it is.
pub fn narrow(c: &[u8], out: &mut [u8]) -> Result<(), Unfit>
    ensures value { result ≡ narrowing c.now out.old }
    ensures out_after { out.new ≡ narrowed_into c.now out.old }
{
    if !fits_twice(out.len(), c.len()) {
        return Err(Unfit);
    }
    let pairs = c.len() / 2;
    for i in 0..pairs {
        out[i] = mean(c[2 * i], c[2 * i + 1]);
    }
    if pairs < out.len() {
        out[pairs] = c[2 * pairs];
    }
    Ok(())
}
