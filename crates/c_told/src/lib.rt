// What C functions on plan blocks say alike: the reader's refusal comes first, and what is told stands in a lent array of four numbers.
#![tactic(auto)]

ghost use Rattle.std.specs.Prelude.{◌≡◌, [], ◌∷◌};
ghost use Rattle.c_told.specs.Told.{after_reading, told_by};

use block_read::ReadError;
use notation::Answer;

// The reader's refusal, and else what comes behind the reading.
pub fn after_reading(reading: Result<(), ReadError>, answer: Answer) -> Answer
    ensures { result ≡ after_reading reading answer }
{
    match reading {
        Ok(()) => answer,
        Err(e) => block_read::paper(Err(e)),
    }
}

pub fn tell_numbers(told: &mut [u64; 4], a: u64, b: u64, c: u64, d: u64)
    ensures { told.new ≡ a ∷ b ∷ c ∷ d ∷ [] }
{
    *told = [a, b, c, d];
}

// Of what runs a list: its answer, and how many samples went bad.
pub fn tell(told: &mut [u64; 4], answer: Answer, bad: u64)
    ensures { told.new ≡ told_by answer bad }
{
    tell_numbers(
        told,
        answer.number as u64,
        answer.position as u64,
        answer.width as u64,
        bad,
    );
}
