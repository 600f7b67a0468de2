// A case file read into a sheet.
ghost use Rattle.std.specs.Prelude.{◌≡◌, ℕ, true, false, List, [], ◌∷◌, ◌++◌, length, Some, Ok, Result};
ghost use Rattle.records.specs.Format.{size, is_row};
ghost use Rattle.records.specs.Grammar.{Item, item as item_of};
ghost use Rattle.records.specs.Readers.{Fresh};
ghost use Rattle.sheet.specs.Book.{Book, blank};
ghost use Rattle.sheet.specs.Sheets.{open_book, closed_book};
ghost use Rattle.casefile.specs.declared.fault.Fault.{Fault as Failure};
ghost use Rattle.casefile.specs.Calls.{fields, call_of};
ghost use Rattle.casefile.specs.Cases.{Before, Advanced};
ghost use Rattle.casefile.specs.Files.{Reads, map_ok};
ghost use Rattle.casefile.specs.Ready.{among_rows, ready};
ghost use Rattle.casefile.specs.Steps.{Asked, after_of, Stopped};

use crate::fault::{Cause, Fault};
use records::mark::{Mark, Record};
use records::reader::Reader;
use sheet::closed::ClosedSheet;
use sheet::open::OpenSheet;
use sheet::row::Fields;

// The fields of an event. No `From`, since neither `Fields` nor a slice is a type of this crate.
fn fields_of(body: &[u8]) -> Fields
    requires { length body.now ≡ 11 }
    ensures { result ≡ fields body.now }
{
    Fields {
        thread: body[0],
        kind: body[1],
        grade: body[2],
        scope: body[3],
        proxy: body[4],
        address: u16::from_le_bytes([body[5], body[6]]),
        value: u32::from_le_bytes([body[7], body[8], body[9], body[10]]),
    }
}

// Adds the thread or the event that a record gives. That the body has the size of its mark is asked here and not kept in
// `Record`, which anyone may build.
fn add(sheet: &mut OpenSheet, item: Record) -> Result<(), Cause>
    requires { (length item.body.now ≡ size item.mark) × (is_row item.mark ≡ true) }
    ensures { Asked (open_book sheet.old) (call_of item.entry.mark item.entry.body.now) tt result (open_book sheet.new) }
{
    match (item.mark, item.body) {
        (Mark::Thread, [block, device]) => sheet.thread(*block, *device)?,
        (_, body) => sheet.event(fields_of(body))?,
    };
    Ok(())
}

// Adds a record that is a thread or an event; tells whether it is one.
fn add_row(sheet: &mut OpenSheet, item: Record) -> Result<bool, Cause>
    requires { length item.body.now ≡ size item.mark }
    ensures row { is_row item.entry.mark ≡ true → Asked (open_book sheet.old) (call_of item.entry.mark item.entry.body.now) true result (open_book sheet.new) }
    ensures other { is_row item.entry.mark ≡ false → (result ≡ Ok false) × (open_book sheet.new ≡ open_book sheet.old) }
{
    if !matches!(item.mark, Mark::Thread | Mark::Event) {
        return Ok(false);
    }
    add(sheet, item)?;
    Ok(true)
}

// Lays the edge that a record gives; a question and the end give none.
fn lay(sheet: &mut ClosedSheet, item: Record) -> Result<(), Cause>
    requires { (length item.body.now ≡ size item.mark) × (is_row item.mark ≡ false) }
    ensures { Asked (closed_book sheet.old) (call_of item.entry.mark item.entry.body.now) tt result (closed_book sheet.new) }
{
    match (item.mark, item.body) {
        (Mark::ReadFrom, [write, read]) => sheet.read_from(*write, *read)?,
        (Mark::Order, [first, second]) => sheet.order(*first, *second)?,
        (Mark::Atomic, [read, write]) => sheet.atomic(*read, *write)?,
        (Mark::Depend, [read, event]) => sheet.depend(*read, *event)?,
        _ => {}
    }
    Ok(())
}

// Adds threads and events up to the first other record, and hands that out.
pub(crate) fn take_rows<'a>(
    reader: &mut Reader<'a>,
    sheet: &mut OpenSheet,
) -> Result<Option<Record<'a>>, Fault>
    requires { (Fresh reader.old.file.now reader.old) × (open_book sheet.old ≡ blank) }
    ensures { Stopped reader.old.file.now reader.new result (open_book sheet.new) }
{
    while let Some(item) = reader.next()? {
        let place = item.place;
        if !add_row(sheet, item).map_err(|cause| Fault { cause, place })? {
            return Ok(Some(item));
        }
    }
    Ok(None)
}

// Lays the edge of the record that waits, and reads the next record. Part of the loops that call it, so that what it answers is not
// copied from place to place.
#[inline(always)]
pub(crate) fn advance<'a>(
    reader: &mut Reader<'a>,
    sheet: &mut ClosedSheet,
    item: Record<'a>,
) -> Result<Option<Record<'a>>, Fault>
    requires { (length item.body.now ≡ size item.mark) × ((is_row item.mark ≡ false) × (among_rows reader.old.phase ≡ false)) }
    ensures laid { closed_book sheet.new ≡ after_of (closed_book sheet.old) (call_of item.entry.mark item.entry.body.now) }
    ensures ready { ready result reader.new.phase ≡ true }
    ensures more { (bs : List ℕ) (front : List Item) → Before bs front reader.old (Some item.entry) (closed_book sheet.old) → Advanced bs (front ++ item_of item.entry ∷ []) reader.new result (closed_book sheet.new) }
{
    let place = item.place;
    lay(sheet, item).map_err(|cause| Fault { cause, place })?;
    Ok(reader.next()?)
}

// The sheet that a case file builds, or its first fault. Questions alter nothing.
pub fn read(file: &[u8]) -> Result<ClosedSheet, Fault>
    ensures reads { Reads file.now (map_ok closed_book result) }
    ensures only { (s : Result Book Failure) → Reads file.now s → s ≡ map_ok closed_book result }
{
    let mut reader = Reader::new(file);
    let mut open = OpenSheet::new();
    let mut next = take_rows(&mut reader, &mut open)?;
    let mut sheet = open.close();
    while let Some(item) = next {
        next = advance(&mut reader, &mut sheet, item)?;
    }
    Ok(sheet)
}
