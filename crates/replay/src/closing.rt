// The calls after close.
ghost use Rattle.std.specs.Prelude.{◌∷◌, length, IfOk};
ghost use Rattle.sheet.specs.Book.{after, ended};
ghost use Rattle.sheet.specs.Sheets.{closed_book};
ghost use Rattle.sheet.specs.Trials.{trial_book};
ghost use Rattle.sheet.specs.declared.calls.Call.TheVariants.{Try};
ghost use Rattle.replay.specs.Phases.{SameBook, Stopped, Turned};

use crate::answers::Answer;
use crate::outcome::{Standing, Stop};
use sheet::calls::Call;
use sheet::closed::ClosedSheet;
use sheet::trial::Trial;
use std::alloc::AllocError;
use std::ops::ControlFlow;

// Sheet, calls and answers are lent apart, since a trial borrows the sheet alone.

// The call after a try: the end of the trial, or the calls stop. Where the try was refused, no trial stands and the calls
// go on. Tells the calls that are left.
#[tactic(auto, using(crate::proofs::Steps::ended_idle))]
fn trial_turn<'c>(
    trial: &Trial,
    calls: &'c [Call],
    answers: &mut Vec<Answer>,
) -> Result<ControlFlow<Stop, &'c [Call]>, AllocError>
    ensures { IfOk result (λ t. Turned (length calls.now) calls.now (trial_book trial.now) answers.old.items (ended (trial_book trial.now)) answers.new.items t) }
{
    let Some((first, second)) = trial.edge() else {
        return Ok(ControlFlow::Continue(calls));
    };
    let stop = Stop {
        whole: calls.is_empty(),
        standing: Some(Standing {
            edges: trial.edges(),
            first,
            second,
        }),
    };
    let Some((call, rest)) = calls.split_first() else {
        return Ok(ControlFlow::Break(stop));
    };
    match call {
        Call::End => {
            answers.push(Ok(None))?;
            Ok(ControlFlow::Continue(rest))
        }
        _ => Ok(ControlFlow::Break(stop)),
    }
}

// A trial, which ends when this returns, on whichever way out.
fn under_trial<'c>(
    sheet: &mut ClosedSheet,
    first: u8,
    second: u8,
    calls: &'c [Call],
    answers: &mut Vec<Answer>,
) -> Result<ControlFlow<Stop, &'c [Call]>, AllocError>
    ensures kept { SameBook sheet.new sheet.old }
    ensures turns { IfOk result (λ t. Turned (length calls.now) calls.now (after (closed_book sheet.old) (Try first second)) answers.old.items (closed_book sheet.old) answers.new.items t) }
{
    let trial = Trial::new(sheet, first, second);
    trial_turn(&trial, calls, answers)
}

// One call on a closed sheet, or a whole trial. Tells the calls that are left.
fn closed_turn<'c>(
    sheet: &mut ClosedSheet,
    call: Call,
    rest: &'c [Call],
    answers: &mut Vec<Answer>,
) -> Result<ControlFlow<Stop, &'c [Call]>, AllocError>
    ensures { IfOk result (λ t. Turned (length rest.now) (call ∷ rest.now) (closed_book sheet.old) answers.old.items (closed_book sheet.new) answers.new.items t) }
{
    match call {
        Call::Lay(edge, first, second) => {
            answers.push(sheet.lay(edge, first, second).map(|()| None))?;
            Ok(ControlFlow::Continue(rest))
        }
        Call::Try(first, second) => {
            answers.push(sheet.check_order(first, second).map(|()| None))?;
            under_trial(sheet, first, second, rest, answers)
        }
        _ => Ok(ControlFlow::Break(Stop::OUT_OF_PLACE)),
    }
}

// Tells where the calls stopped.
pub(crate) fn run_closed(
    sheet: &mut ClosedSheet,
    calls: &[Call],
    answers: &mut Vec<Answer>,
) -> Result<Stop, AllocError>
    ensures { IfOk result (λ s. Stopped calls.now (closed_book sheet.old) answers.old.items (closed_book sheet.new) answers.new.items s) }
{
    let mut left = calls;
    while let Some((call, rest)) = left.split_first() {
        match closed_turn(sheet, *call, rest, answers)? {
            ControlFlow::Continue(calls) => left = calls,
            ControlFlow::Break(stop) => return Ok(stop),
        }
    }
    Ok(Stop::AT_END)
}
