// What a run answers, from what is judged of its list and from the lengths.
ghost use Rattle.std.specs.Prelude.{◌≡◌};
ghost use Rattle.run.specs.Refusals.{paper, outcome_by};

use crate::RunError;
use notation::Answer;
use run_check::JudgeError;

// The paper's answer.
pub fn paper(outcome: Result<u8, RunError>) -> Answer
    ensures { result ≡ paper outcome }
{
    match outcome {
        Ok(width) => Answer::done(width),
        Err(RunError::Malformed) => Answer::refused(10),
        Err(RunError::Unequal) => Answer::refused(4),
        Err(RunError::Misfit { position }) => Answer::refused_at(5, position),
        Err(RunError::NotCarried { position }) => Answer::refused_at(6, position),
    }
}

// 10 comes before the lengths, 5 and 6 after them.
pub(crate) fn outcome_by(judgement: Result<u8, JudgeError>, same: bool) -> Result<u8, RunError>
    ensures { result ≡ outcome_by judgement same }
{
    match judgement {
        Err(JudgeError::Malformed) => Err(RunError::Malformed),
        _ if !same => Err(RunError::Unequal),
        Err(JudgeError::Misfit { position }) => Err(RunError::Misfit { position }),
        Err(JudgeError::NotCarried { position }) => Err(RunError::NotCarried { position }),
        Ok(width) => Ok(width),
    }
}
