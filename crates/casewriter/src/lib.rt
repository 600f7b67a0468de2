// A closed sheet written as a case file, at the front of the caller's memory.
#![tactic(auto)]

mod writer;

ghost use Rattle.std.specs.Prelude.{◌≡◌, ◌*◌, ◌<◌, ◌≤◌, map, length, take, IfOk, Ok};
ghost use Rattle.relation.specs.Meaning.{holds};
ghost use Rattle.records.specs.Format.{letters as mark_letters};
ghost use Rattle.records.specs.Grammar.{Item, encode, file as bytes};
ghost use Rattle.sheet.specs.Sheets.{closed_book};
ghost use Rattle.casewriter.specs.Items.{thread_item, event_item, edge_item, mark_of, picked, sort_items, file_of};
ghost use Rattle.casewriter.specs.Written.{Added, Written, FilesTell};
ghost use Rattle.casefile.specs.Files.{Reads};

use crate::writer::Writer;
use relation::{EVENTS, Relation};
use sheet::calls::{Edge, Refusal};
use sheet::closed::ClosedSheet;
use sheet::row::{Event, Thread};

// A row of a sheet, which is one record of its file. A trait and no closure: contracts need the record of a row by name.
trait Row: Copy {
    ghost item: { Self → Item };

    fn put(self, out: &mut Writer)
        ensures { Added out.old (encode (item self)) out.new };
}

impl Row for Thread {
    ghost item = { thread_item };

    fn put(self, out: &mut Writer) {
        out.put(&[b'T', b'H', self.block, self.device]);
    }
}

impl Row for Event {
    ghost item = { event_item };

    fn put(self, out: &mut Writer) {
        let kind = u8::from(self.kind);
        let grade = u8::from(self.grade);
        let scope = u8::from(self.scope);
        let proxy = u8::from(self.proxy);
        out.put(&[b'E', b'V', self.thread, kind, grade, scope, proxy]);
        out.put(&self.address.to_le_bytes());
        out.put(&self.value.to_le_bytes());
    }
}

fn put_rows<R: Row>(out: &mut Writer, rows: &[R])
    ensures { Added out.old (bytes (map R.item rows.now)) out.new }
{
    // The form that is asked for goes over rows and their edges by the index.
    for i in 0..rows.len() {
        rows[i].put(out);
    }
}

// The letters of the mark of an edge.
fn letters(edge: Edge) -> [u8; 2]
    ensures { result ≡ mark_letters (mark_of edge) }
{
    match edge {
        Edge::ReadFrom => *b"RF",
        Edge::Order => *b"OR",
        Edge::Atomic => *b"AT",
        Edge::Depend => *b"DE",
    }
}

fn encode_edge(edge: Edge, i: u8, j: u8) -> [u8; 4]
    ensures { result ≡ encode (edge_item edge i j) }
{
    let [first, second] = letters(edge);
    [first, second, i, j]
}

// The edges of one sort from event i to the first n events.
fn put_edges(out: &mut Writer, r: &Relation, edge: Edge, n: usize, i: usize)
    requires { (n ≤ 64) × (i < n) }
    ensures { Added out.old (bytes (map (edge_item edge i) (picked (holds r.now i) n))) out.new }
{
    // `min` alters nothing, but tells the compiler that each j is an event, so that `has` need not ask it.
    for j in 0..n.min(EVENTS) {
        if r.has(i, j) {
            out.put(&encode_edge(edge, i as u8, j as u8));
        }
    }
}

// The edges of one sort.
fn put_sort(out: &mut Writer, sheet: &ClosedSheet, edge: Edge)
    ensures { Added out.old (bytes (sort_items (closed_book sheet.now) edge)) out.new }
{
    let r = sheet.edges().of(edge);
    let n = sheet.events().len();
    for i in 0..n {
        put_edges(out, r, edge, n, i);
    }
}

// How many of the first n events event i is related to.
fn row_count(r: &Relation, n: usize, i: usize) -> usize
    requires { n ≤ 64 }
    ensures count { result ≡ length (picked (holds r.now i) n) }
    ensures few { result ≤ 64 }
{
    // `min` alters nothing, but tells the compiler that each j is an event, so that `has` need not ask it.
    (0..n.min(EVENTS)).map(|j| usize::from(r.has(i, j))).sum()
}

// How many edges of one sort there are.
fn sort_count(sheet: &ClosedSheet, edge: Edge) -> usize
    ensures count { result ≡ length (sort_items (closed_book sheet.now) edge) }
    ensures few { result ≤ 4096 }
{
    let r = sheet.edges().of(edge);
    let n = sheet.events().len();
    (0..n).map(|i| row_count(r, n, i)).sum()
}

// The length of the sheet's file.
fn file_length(sheet: &ClosedSheet) -> usize
    ensures { result ≡ length (file_of (closed_book sheet.now)) }
{
    let rows = 4 * sheet.threads().len() + 13 * sheet.events().len();
    let sources = sort_count(sheet, Edge::ReadFrom);
    let atomics = sort_count(sheet, Edge::Atomic);
    let depends = sort_count(sheet, Edge::Depend);
    let orders = sort_count(sheet, Edge::Order);
    rows + 4 * (sources + atomics + depends + orders) + 2
}

// Writes the sheet's file to the front of `out`, and tells its length. Where `out` is shorter than the file, nothing is
// altered. What is written reads back as this sheet, and two sheets are equal exactly if their files are.
pub fn write(sheet: &ClosedSheet, out: &mut [u8]) -> Result<usize, Refusal>
    ensures written { Written (closed_book sheet.now) out.old result out.new }
    ensures back { IfOk result (λ n. Reads (take n out.new) (Ok (closed_book sheet.now))) }
    ensures tell { FilesTell }
{
    if out.len() < file_length(sheet) {
        return Err(Refusal::Memory);
    }
    let mut file = Writer::new(out);
    put_rows(&mut file, sheet.threads());
    put_rows(&mut file, sheet.events());
    put_sort(&mut file, sheet, Edge::ReadFrom);
    put_sort(&mut file, sheet, Edge::Atomic);
    put_sort(&mut file, sheet, Edge::Depend);
    put_sort(&mut file, sheet, Edge::Order);
    file.put(b"EN");
    Ok(file.written())
}
