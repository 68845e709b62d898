// Three lent channels: whether they are equally long, in which pieces a loop goes over them, and what an op's own step on them answers.
// Channels are three slices, as 01 says ("What must change shape"), lent and written or only read: a struct of lent ones would need in each contract
// that it still holds the same.
#![tactic(auto)]

ghost use Rattle.std.specs.Prelude.{◌≡◌, min};
ghost use Rattle.channels.specs.Channels.{same_lengths};
ghost use Rattle.channels.specs.Stepping.{paper};

use notation::Answer;

// Refusal 4: the lent lengths are unequal, and nothing was changed.
#[derive(Clone, Copy, Debug, PartialEq, Eq)]
pub struct Unequal;

// The paper's answer to what an op's own step answers: the width that the op gives, or why it was refused.
pub fn paper(stepping: Result<u8, Unequal>) -> Answer
    ensures { result ≡ paper stepping }
{
    match stepping {
        Ok(width) => Answer::done(width),
        Err(Unequal) => Answer::refused(4),
    }
}

pub fn same_lengths(a: usize, b: usize, c: usize) -> bool
    ensures { result ≡ same_lengths a b c }
{
    a == b && a == c
}

// How many samples the next piece has, of those that are left.
pub fn next_piece(left: usize, most: usize) -> usize
    ensures { result ≡ min left most }
{
    left.min(most)
}
