// The calls before close.
ghost use Rattle.std.specs.Prelude.{◌≡◌, true, false, IfOk, MatchOption};
ghost use Rattle.sheet.specs.Book.{after};
ghost use Rattle.sheet.specs.Sheets.{open_book};
ghost use Rattle.replay.specs.Runs.{answer, place};
ghost use Rattle.replay.specs.Phases.{Goes, adds, adds_first};

use crate::answers::Answer;
use sheet::calls::Call;
use sheet::open::OpenSheet;
use std::alloc::AllocError;

// One thread or event more; none at any other call.
fn add(sheet: &mut OpenSheet, call: Call) -> Option<Answer>
    ensures { MatchOption result ((adds call ≡ false) × (open_book sheet.new ≡ open_book sheet.old)) (λ a. (place (open_book sheet.old) call ≡ true) × (a ≡ answer (open_book sheet.old) call) × (open_book sheet.new ≡ after (open_book sheet.old) call)) }
{
    match call {
        Call::Thread(block, device) => Some(sheet.thread(block, device).map(Some)),
        Call::Event(fields) => Some(sheet.event(fields).map(Some)),
        _ => None,
    }
}

// The threads and events that the calls begin with. Tells the calls after them.
pub(crate) fn run_open<'c>(
    sheet: &mut OpenSheet,
    calls: &'c [Call],
    answers: &mut Vec<Answer>,
) -> Result<&'c [Call], AllocError>
    ensures { IfOk result (λ rest. Goes calls.now (open_book sheet.old) answers.old.items rest.now (open_book sheet.new) answers.new.items × (adds_first rest.now ≡ false)) }
{
    let mut left = calls;
    while let Some((call, rest)) = left.split_first() {
        let Some(answer) = add(sheet, *call) else {
            return Ok(left);
        };
        answers.push(answer)?;
        left = rest;
    }
    Ok(left)
}
