// A case file opened behind its rows, and its other records handed out one after another.
ghost use Rattle.std.specs.Prelude.{◌≡◌, ℕ, List, Err};
ghost use Rattle.records.specs.Grammar.{Item};
ghost use Rattle.sheet.specs.Sheets.{closed_book};
ghost use Rattle.casefile.specs.declared.fault.Fault.{Fault as Failure};
ghost use Rattle.casefile.specs.Cases.{Opened, Stands, Stepped, stepped, fault_of, kept};

use crate::case::Case;
use crate::fault::Fault;
use crate::input::{advance, take_rows};
use records::mark::Record;
use records::reader::Reader;
use sheet::closed::ClosedSheet;
use sheet::open::OpenSheet;

impl<'a> Case<'a> {
    // Reads the threads and events, and closes the sheet. A fault among them leaves an empty sheet, and is told by `next`.
    pub fn new(file: &'a [u8]) -> Case<'a>
        ensures { Opened file.now result }
    {
        let mut reader = Reader::new(file);
        let mut rows = OpenSheet::new();
        let next = take_rows(&mut reader, &mut rows);
        if next.is_err() {
            rows = OpenSheet::new();
        }
        Case {
            reader,
            next,
            sheet: rows.close(),
        }
    }

    // The sheet as the records that were handed out have built it.
    pub fn sheet(&self) -> &ClosedSheet
        ensures { closed_book result.now ≡ closed_book self.now.sheet }
    {
        &self.sheet
    }

    // The next record with its place, after the sheet has taken its call; a question and the end make none. `None` at the
    // end of the file. The first fault is told again by every later call, and alters nothing then; so this is no `Iterator` either.
    pub fn next(&mut self) -> Result<Option<Record<'a>>, Fault>
        ensures again { (f : Failure) → self.old.next ≡ Err f → result ≡ Err f }
        ensures fault { fault_of self.new.next ≡ kept (fault_of self.old.next) result }
        ensures sheet { closed_book self.new.sheet ≡ stepped self.old.next (closed_book self.old.sheet) }
        ensures steps { (bs : List ℕ) (front : List Item) → Stands bs front self.old → Stepped bs front result self.new }
    {
        let Some(item) = self.next? else {
            return Ok(None);
        };
        let next = advance(&mut self.reader, &mut self.sheet, item);
        self.next = next;
        next?;
        Ok(Some(item))
    }
}
