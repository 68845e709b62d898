// A run by strips on the list of a plan block, as C functions. The caller lends at each call the block, and two words that are the state of the run.
// Three slices, as C lends them.
#![tactic(auto)]

ghost use Rattle.std.specs.Prelude.{◌≡◌};
ghost use Rattle.channels.specs.Channels.{channels};
ghost use Rattle.block_read.specs.Block.{read_of};
ghost use Rattle.c_strips.specs.BlockStrips.{state_by, no_run, words_of, open_by, open_answer, open_words, open_told, strip_answer, strip_words, strip_told, strip_left, close_answer, close_told};

use block_read::ReadError;
use notation::Answer;
use run_check::JudgeError;
use run_strips::State;

// The run that the block and the words stand for.
fn state_of(bytes: &[u8], first: u64, sum: u64) -> State
    ensures { result ≡ state_by (read_of bytes.now).plan first sum }
{
    if first != 1 {
        return run_strips::closed();
    }
    State {
        plan: block_read::read(bytes).plan,
        bad: sum,
    }
}

// The words of an open run; where the call was refused, those of a refused one.
fn words_of(number: u8, sum: u64, refused: [u64; 2]) -> [u64; 2]
    ensures { result ≡ words_of number sum refused }
{
    if number != 0 {
        return refused;
    }
    [1, sum]
}

// The reader's refusal comes before the opening's.
fn open_by(reading: Result<(), ReadError>, judgement: Result<u8, JudgeError>) -> Answer
    ensures { result ≡ open_by reading judgement }
{
    c_told::after_reading(reading, run_check::paper(judgement))
}

// Opens a run with the list of a block, whatever was open; told are number, position, width, and 0.
#[unsafe(no_mangle)]
pub extern "C" fn rindsaddle_open(bytes: &[u8], state: &mut [u64; 2], told: &mut [u64; 4]) -> u8
    ensures value { result ≡ (open_answer bytes.now).number }
    ensures state_after { state.new ≡ open_words bytes.now }
    ensures told_after { told.new ≡ open_told bytes.now }
{
    let block = block_read::read(bytes);
    let opened = run_strips::open(run_strips::closed(), block.plan);
    let answer = open_by(block.answer, opened.answer);
    *state = words_of(answer.number, opened.state.bad, [0, 0]);
    c_told::tell(told, answer, 0);
    answer.number
}

// Gives the open run a strip; told are number, position, width, and how many samples of this strip went bad.
#[unsafe(no_mangle)]
pub extern "C" fn rindsaddle_strip(
    bytes: &[u8],
    state: &mut [u64; 2],
    a: &mut [f32],
    b: &mut [f32],
    c: &mut [f32],
    told: &mut [u64; 4],
) -> u8
    ensures value { result ≡ (strip_answer bytes.now state.old (channels a.old b.old c.old)).number }
    ensures state_after { state.new ≡ strip_words bytes.now state.old (channels a.old b.old c.old) }
    ensures c_after { channels a.new b.new c.new ≡ strip_left bytes.now state.old (channels a.old b.old c.old) }
    ensures told_after { told.new ≡ strip_told bytes.now state.old (channels a.old b.old c.old) }
{
    let words = *state;
    let before = state_of(bytes, words[0], words[1]);
    let stripped = run_strips::strip(before, a, b, c);
    let answer = run_strips::paper(stripped.answer);
    *state = words_of(answer.number, stripped.state.bad, words);
    c_told::tell(told, answer, stripped.bad);
    answer.number
}

// Closes the run; told are number, position, width, and how many samples of its strips went bad.
#[unsafe(no_mangle)]
pub extern "C" fn rindsaddle_close(bytes: &[u8], state: &mut [u64; 2], told: &mut [u64; 4]) -> u8
    ensures value { result ≡ (close_answer bytes.now state.old).number }
    ensures state_after { state.new ≡ no_run }
    ensures told_after { told.new ≡ close_told bytes.now state.old }
{
    let before = state_of(bytes, state[0], state[1]);
    let closed = run_strips::close(before);
    let answer = run_strips::paper(closed.answer);
    *state = [0, 0];
    c_told::tell(told, answer, closed.bad);
    answer.number
}
