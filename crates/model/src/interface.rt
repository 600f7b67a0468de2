// The interface of a memory model. It never refuses.
ghost use Rattle.std.specs.Prelude.{◌≡◌, ℕ, ◌≤◌, length};
ghost use Rattle.relation.specs.Algebra.{Rel, nothing};
ghost use Rattle.relation.specs.Meaning.{members, holds};
ghost use Rattle.sheet.specs.Sheets.{closed_book};
ghost use Rattle.execution.specs.Facts.{facts, with_order};
ghost use Rattle.model.specs.Meaning.{Meaning, Lawful, kind_at};

use crate::axiom_kind::AxiomKind;
use execution::execution::Execution;
use relation::{Relation, Row};
use sheet::closed::ClosedSheet;

// Thousands of completions of one sheet differ in the order of writes and fences only. So what does not rest on that order is
// prepared once for a sheet, and what the axioms share under one order is laid out once for that order.
pub trait MemoryModel {
    // what does not rest on the order
    type Prepared: Copy;

    // what the axioms share under one order
    type Laid: Copy;

    ghost meaning: { Self → Meaning };

    // the relation of an axiom by what was prepared, under an order
    ghost yields: { Self.Prepared → Rel → ℕ → Rel };

    // the relation of an axiom by what was prepared and laid out
    ghost shows: { Self.Prepared → Self.Laid → ℕ → Rel };

    // How many axioms there are. They go by number: the rules number them, and what is printed names them so.
    fn axioms(&self) -> usize
        ensures { result ≡ length (meaning self.now).kinds };

    // What an axiom asks; past the last one, that nothing is related.
    fn kind(&self, number: usize) -> AxiomKind
        ensures { result ≡ kind_at (meaning self.now).kinds number };

    // Whether the two events need an order; not if one is absent. A struct of sheet and events would be taken apart at once.
    fn needs(&self, sheet: &ClosedSheet, a: usize, b: usize) -> bool
        ensures { result ≡ (meaning self.now).need (closed_book sheet.now).threads (closed_book sheet.now).events a b };

    fn prepare(&self, x: &Execution) -> Self::Prepared
        ensures { (o : Rel) (i : ℕ) → yields result o i ≡ (meaning self.now).relation (with_order (facts x.now) o) i };

    fn lay(&self, prepared: &Self::Prepared, order: &Relation) -> Self::Laid
        ensures { (i : ℕ) → shows prepared.now result i ≡ yields prepared.now (holds order.now) i };

    // The relation of an axiom, all rows at once.
    fn relation(&self, prepared: &Self::Prepared, laid: &Self::Laid, number: usize) -> Relation
        ensures { holds result ≡ shows prepared.now laid.now number };

    // One event's row of the relation of an axiom, under the order that the sheet gives. It is blank past the last axiom and
    // for an absent event.
    fn row(&self, x: &Execution, number: usize, event: usize) -> Row
        ensures is { members result ≡ (meaning self.now).relation (facts x.now) number event }
        ensures past { length (meaning self.now).kinds ≤ number → members result ≡ nothing }
        ensures absent { length (facts x.now).events ≤ event → members result ≡ nothing }
    {
        let prepared = self.prepare(x);
        let laid = self.lay(&prepared, x.order());
        self.relation(&prepared, &laid, number).row(event)
    }

    ghost lawful: { (m : Self) → Lawful (meaning m) };
}
