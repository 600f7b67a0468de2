// The records of a file, one after another.
ghost use Rattle.std.specs.Prelude.{◌≡◌, ℕ, MatchResult};
ghost use Rattle.records.specs.declared.fault.Cause.TheVariants.{BadQuestion};
ghost use Rattle.records.specs.Format.{Here, Due, Fields};
ghost use Rattle.records.specs.Grammar.{Outcome, Next, seen};
ghost use Rattle.records.specs.Readers.{rest, Fresh, Ahead, Placed, Moved};

use crate::fault::{Cause, Fault};
use crate::mark::{Mark, Phase, Record, Sign};
use crate::question::Question;
use crate::reader::Reader;

// What stands at the front of `rest`.
fn sign_of(rest: &[u8]) -> Sign
    ensures { Here rest.now result }
{
    match rest {
        [b'T', b'H', ..] => Sign::Known(Mark::Thread),
        [b'E', b'V', ..] => Sign::Known(Mark::Event),
        [b'R', b'F', ..] => Sign::Known(Mark::ReadFrom),
        [b'O', b'R', ..] => Sign::Known(Mark::Order),
        [b'A', b'T', ..] => Sign::Known(Mark::Atomic),
        [b'D', b'E', ..] => Sign::Known(Mark::Depend),
        [b'Q', b'U', ..] => Sign::Known(Mark::Question),
        [b'E', b'N', ..] => Sign::Known(Mark::End),
        [_, _, ..] => Sign::Unknown,
        [_] => Sign::Half,
        [] => Sign::Nothing,
    }
}

// The phase together with the mark just read: which record follows and the phase behind it, that the file is over, or why
// neither can be. Each mark has an arm of its own, so that the compiler knows its size there and takes one way from the letters
// to the body.
fn due(phase: Phase, sign: Sign) -> Result<Option<(Mark, Phase)>, Cause>
    ensures { Due phase sign result }
{
    match (phase, sign) {
        (Phase::Ended, Sign::Nothing) => Ok(None),
        (Phase::Ended, _) => Err(Cause::Trailing),
        (_, Sign::Nothing | Sign::Half) => Err(Cause::Cut),
        (_, Sign::Unknown) => Err(Cause::UnknownMark),
        (Phase::Rows, Sign::Known(Mark::Thread)) => Ok(Some((Mark::Thread, Phase::Rows))),
        (Phase::Rows, Sign::Known(Mark::Event)) => Ok(Some((Mark::Event, Phase::Rows))),
        (Phase::Edges, Sign::Known(Mark::Thread | Mark::Event)) => Err(Cause::LateRow),
        (_, Sign::Known(Mark::ReadFrom)) => Ok(Some((Mark::ReadFrom, Phase::Edges))),
        (_, Sign::Known(Mark::Order)) => Ok(Some((Mark::Order, Phase::Edges))),
        (_, Sign::Known(Mark::Atomic)) => Ok(Some((Mark::Atomic, Phase::Edges))),
        (_, Sign::Known(Mark::Depend)) => Ok(Some((Mark::Depend, Phase::Edges))),
        (_, Sign::Known(Mark::Question)) => Ok(Some((Mark::Question, Phase::Edges))),
        (_, Sign::Known(Mark::End)) => Ok(Some((Mark::End, Phase::Ended))),
    }
}

// Refuses a body without the fields that its mark asks for.
fn check_fields(mark: Mark, body: &[u8]) -> Result<(), Cause>
    ensures { MatchResult result (λ _. Fields mark body.now) (λ c. (c ≡ BadQuestion) × (Fields mark body.now → ⊥)) }
{
    if mark == Mark::Question {
        Question::try_from(body)?;
    }
    Ok(())
}

impl<'a> Reader<'a> {
    pub fn new(file: &'a [u8]) -> Reader<'a>
        ensures { Fresh file.now result }
    {
        Reader {
            file,
            at: 0,
            phase: Phase::Rows,
        }
    }

    // The record at the reader's place, and the phase behind it.
    fn ahead(&self) -> Result<Option<(Record<'a>, Phase)>, Cause>
        ensures { Ahead self.now result }
    {
        let file = self.file;
        let place = self.at;
        let rest = &file[place..];
        let Some((mark, phase)) = due(self.phase, sign_of(rest))? else {
            return Ok(None);
        };
        let body = rest.get(2..2 + mark.size()).ok_or(Cause::Cut)?;
        check_fields(mark, body)?;
        Ok(Some((Record { mark, body, place }, phase)))
    }

    // The next record; `None` behind the ending one, at the end of the file. A fault leaves the reader where it is.
    // No `Iterator`: a fault is told again by each call, so the items have no end, and a `for` over them would have none.
    pub fn next(&mut self) -> Result<Option<Record<'a>>, Fault>
        ensures same { self.new.file.now ≡ self.old.file.now }
        ensures answer { Next self.old.phase (rest self.old) (seen result) }
        ensures only { (o : Outcome) → Next self.old.phase (rest self.old) o → o ≡ seen result }
        ensures place { Placed self.old.at result }
        ensures after { Moved self.old result self.new }
    {
        let place = self.at;
        let ahead = self.ahead().map_err(|cause| Fault { cause, place })?;
        let Some((record, phase)) = ahead else {
            return Ok(None);
        };
        self.at = place + 2 + record.body.len();
        self.phase = phase;
        Ok(Some(record))
    }
}
