// Gives a new sheet the calls of a list, one after another, and tells what they come to.
#![tactic(auto)]

pub mod answers;
mod closing;
mod opening;
pub mod outcome;

ghost use Rattle.std.specs.Prelude.{◌≡◌, IfOk};
ghost use Rattle.sheet.specs.Book.{blank, ended};
ghost use Rattle.replay.specs.Runs.{run};
ghost use Rattle.replay.specs.Outcomes.{outcome_run, stage_book, stood};

use crate::closing::run_closed;
use crate::opening::run_open;
use crate::outcome::{Outcome, Stage, Stop};
use sheet::calls::Call;
use sheet::open::OpenSheet;
use std::alloc::{AllocError, Global};

// For every list of calls, the answers, the sheet and the stop that the book tells. An error is want of memory for the
// answers.
pub fn replay(heap: Global, calls: &[Call]) -> Result<Outcome, AllocError>
    ensures law { IfOk result (λ o. outcome_run o ≡ run blank calls.now) }
    ensures sheet { IfOk result (λ o. stage_book o.stage ≡ ended (stood o)) }
{
    let mut answers = Vec::new(heap);
    let mut sheet = OpenSheet::new();
    let rest = run_open(&mut sheet, calls, &mut answers)?;
    let Some((call, rest)) = rest.split_first() else {
        return Ok(Outcome {
            stage: Stage::Unclosed(sheet),
            stop: Stop::AT_END,
            answers,
        });
    };
    match call {
        Call::Close => {
            let mut closed = sheet.close();
            answers.push(Ok(None))?;
            let stop = run_closed(&mut closed, rest, &mut answers)?;
            Ok(Outcome {
                stage: Stage::Closed(closed),
                stop,
                answers,
            })
        }
        _ => Ok(Outcome {
            stage: Stage::Unclosed(sheet),
            stop: Stop::OUT_OF_PLACE,
            answers,
        }),
    }
}
