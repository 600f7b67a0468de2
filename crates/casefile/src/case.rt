// A case file, record by record.
ghost use Rattle.std.specs.Prelude.{◌≡◌, true};
ghost use Rattle.casefile.specs.Ready.{ready};

use crate::fault::Fault;
use records::mark::Record;
use records::reader::Reader;
use sheet::closed::ClosedSheet;

// The sheet is closed, and has taken the calls of the records before the one that waits.
#[derive(Drop)]
pub struct Case<'a> {
    pub(crate) reader: Reader<'a>,
    // the record that waits, `None` at the end of the file, or the first fault, which stays
    pub(crate) next: Result<Option<Record<'a>>, Fault>,
    pub(crate) sheet: ClosedSheet,
    ghost ready: { ready next reader.phase ≡ true },
}
