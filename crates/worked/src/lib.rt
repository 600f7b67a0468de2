// Small sheets worked by hand.
#![tactic(auto)]

ghost use Rattle.worked.specs.Sheets.{Worked};

// The verdicts of eleven small sheets, and of a few more that shut out what is easily misread, proved of the definitions of the
// models themselves. It computes nothing: the clause is the theorem.
pub fn worked_sheets_stand() -> bool
    ensures { Worked }
{
    true
}
