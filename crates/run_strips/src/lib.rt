// A run by strips: it is opened with a list, given strips of three channels, and closed. The caller holds the state.
// Three slices, as `channels` says.
#![tactic(auto)]

ghost use Rattle.std.specs.Prelude.{◌≡◌, true, Err};
ghost use Rattle.channels.specs.Channels.{channels};
ghost use Rattle.run_check.specs.Judging.{judge_of};
ghost use Rattle.run_strips.specs.Machine.{paper, closed, open_of, strip_by, strip_of, left_of, close_of};

use list::Plan;
use notation::Answer;
use run_check::JudgeError;

// A run is open with this list where it can be run; a list that cannot is no open run. So many samples of its strips went bad.
#[derive(Clone, Copy, Debug)]
pub struct State {
    pub plan: Plan,
    pub bad: u64,
}

// For what a strip or a close is refused.
#[derive(Clone, Copy, Debug, PartialEq, Eq)]
pub enum StripError {
    // Refusal 11: no run is open.
    NotOpen,
    // Refusal 4: the lent lengths are unequal; nothing was changed, and the run stays open.
    Unequal,
}

// What is judged of the list, and the state: with no open run where the opening is refused, as 02 says.
#[derive(Clone, Copy, Debug)]
pub struct Opened {
    pub answer: Result<u8, JudgeError>,
    pub state: State,
}

// The width that the run ends at, or a refusal; and beside it, as `Stepped` has it, of a strip its own count of bad samples, of a close the sum, 0 where it
// is refused.
#[derive(Clone, Copy, Debug)]
pub struct Stripped {
    pub answer: Result<u8, StripError>,
    pub bad: u64,
    pub state: State,
}

// The paper's answer.
pub fn paper(stripping: Result<u8, StripError>) -> Answer
    ensures { result ≡ paper stripping }
{
    match stripping {
        Ok(width) => Answer::done(width),
        Err(StripError::NotOpen) => Answer::refused(11),
        Err(StripError::Unequal) => Answer::refused(4),
    }
}

// No run is open.
pub fn closed() -> State
    ensures { result ≡ closed }
{
    State {
        plan: list::empty(0),
        bad: 0,
    }
}

// The width that a run with this list ends at.
fn ending(plan: Plan) -> Result<u8, StripError>
    ensures { result ≡ strip_by (judge_of plan) true }
{
    match run_check::judge(plan) {
        Ok(width) => Ok(width),
        Err(_) => Err(StripError::NotOpen),
    }
}

// A refused strip: the run stays as it was.
fn refused_as(e: StripError, state: State) -> Stripped
    ensures { result ≡ record { answer = Err e; bad = 0; state = state } }
{
    Stripped {
        answer: Err(e),
        bad: 0,
        state,
    }
}

pub fn close(state: State) -> Stripped
    ensures { result ≡ close_of state }
{
    let answer = ending(state.plan);
    Stripped {
        answer,
        bad: answer.map_or(0, |_| state.bad),
        state: closed(),
    }
}

// What was open is closed first, whether the opening is refused or not.
pub fn open(state: State, plan: Plan) -> Opened
    ensures { result ≡ open_of state plan }
{
    let before = close(state);
    match run_check::judge(plan) {
        Ok(width) => Opened {
            answer: Ok(width),
            state: State {
                plan: list::kept(plan),
                bad: 0,
            },
        },
        Err(e) => Opened {
            answer: Err(e),
            state: before.state,
        },
    }
}

// The whole list, on this strip alone; the run stays open as it was.
pub fn strip(state: State, a: &mut [f32], b: &mut [f32], c: &mut [f32]) -> Stripped
    ensures value { result ≡ strip_of state (channels a.old b.old c.old) }
    ensures c_after { channels a.new b.new c.new ≡ left_of state (channels a.old b.old c.old) }
{
    let plan = state.plan;
    if ending(plan).is_err() {
        return refused_as(StripError::NotOpen, state);
    }
    let ran = run::run(plan, a, b, c);
    match ran.outcome {
        Ok(width) => Stripped {
            answer: Ok(width),
            bad: ran.bad,
            state: State {
                plan,
                bad: bad_samples::sum(state.bad, ran.bad),
            },
        },
        Err(_) => refused_as(StripError::Unequal, state),
    }
}
