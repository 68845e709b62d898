// The list of a plan block, run on three channels, as a C function.
// Three slices, as C lends them.
#![tactic(auto)]

ghost use Rattle.std.specs.Prelude.{◌≡◌};
ghost use Rattle.channels.specs.Channels.{channels};
ghost use Rattle.c_run.specs.BlockRun.{answer_by, answer_of, left_of, told_of};

use block_read::ReadError;
use notation::Answer;
use run::RunError;

// The reader's refusal comes before the run's.
fn answer_by(reading: Result<(), ReadError>, outcome: Result<u8, RunError>) -> Answer
    ensures { result ≡ answer_by reading outcome }
{
    c_told::after_reading(reading, run::paper(outcome))
}

// 0, or the number of the refusal; told are the number, the position, the width, and how many samples went bad.
#[unsafe(no_mangle)]
pub extern "C" fn rindsaddle_run(
    bytes: &[u8],
    a: &mut [f32],
    b: &mut [f32],
    c: &mut [f32],
    told: &mut [u64; 4],
) -> u8
    ensures value { result ≡ (answer_of bytes.now (channels a.old b.old c.old)).number }
    ensures c_after { channels a.new b.new c.new ≡ left_of bytes.now (channels a.old b.old c.old) }
    ensures told_after { told.new ≡ told_of bytes.now (channels a.old b.old c.old) }
{
    let block = block_read::read(bytes);
    let ran = run::run(block.plan, a, b, c);
    let answer = answer_by(block.answer, ran.outcome);
    c_told::tell(told, answer, ran.bad);
    answer.number
}
