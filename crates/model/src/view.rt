// The view layer: a model over any model. It hands down less of program order, since an access through another proxy is not
// ordered with its neighbours unless a proxy fence stands between.
ghost use Rattle.std.specs.Prelude.{◌≡◌, true};
ghost use Rattle.execution.specs.Facts.{facts};
ghost use Rattle.sheet.specs.Sheets.{closed_book};
ghost use Rattle.model.specs.View.{seen, viewed, all_generic, SameMeaning, Transparent};
ghost use Rattle.model.specs.Layers.{viewed_lawful};

use crate::axiom_kind::AxiomKind;
use crate::interface::MemoryModel;
use execution::class::Class;
use execution::execution::Execution;
use execution::facts::{class, tied};
use execution::tie::Tie;
use relation::Relation;
use sheet::closed::ClosedSheet;

// Program order cut to pairs of equal proxy, or of a generic event and then a proxy fence.
pub fn seen<'a>(x: &Execution<'a>) -> Execution<'a>
    ensures { facts result ≡ seen (facts x.now) }
{
    let generic = class(x.sheet(), Class::Generic);
    let fences = class(x.sheet(), Class::ProxyFence);
    let handed = x.po().from(generic).to(fences);
    x.cut_po(&tied(x.sheet(), Tie::SameProxy).union(&handed))
}

#[derive(Clone, Copy)]
pub struct View<M> {
    pub below: M,
}

impl<M: MemoryModel> MemoryModel for View<M> {
    type Prepared = M::Prepared;

    type Laid = M::Laid;

    ghost meaning = { λ v. viewed (M.MemoryModel.meaning v.below) };

    ghost yields = { M.MemoryModel.yields };

    ghost shows = { M.MemoryModel.shows };

    ghost lawful = { λ v. viewed_lawful (M.MemoryModel.meaning v.below) (M.MemoryModel.lawful v.below) };

    fn axioms(&self) -> usize {
        self.below.axioms()
    }

    fn kind(&self, number: usize) -> AxiomKind {
        self.below.kind(number)
    }

    fn needs(&self, sheet: &ClosedSheet, a: usize, b: usize) -> bool {
        self.below.needs(sheet, a, b)
    }

    fn prepare(&self, x: &Execution) -> M::Prepared {
        let y = seen(x);
        self.below.prepare(&y)
    }

    fn lay(&self, prepared: &M::Prepared, order: &Relation) -> M::Laid {
        self.below.lay(prepared, order)
    }

    fn relation(&self, prepared: &M::Prepared, laid: &M::Laid, number: usize) -> Relation {
        self.below.relation(prepared, laid, number)
    }
}

// Whether every event is generic.
pub fn is_generic(sheet: &ClosedSheet) -> bool
    ensures { result ≡ all_generic (closed_book sheet.now).events }
{
    sheet.events().iter().all(|e| Class::Generic.has(*e))
}

impl<M: MemoryModel> View<M> {
    // Whether the layer makes no difference to an execution: not where every event is generic. Then it means the same as the
    // model below, and so over every execution whose events are all generic.
    pub fn hides_nothing(&self, x: &Execution) -> bool
        ensures generic { result ≡ all_generic (facts x.now).events }
        ensures same { result ≡ true → SameMeaning (viewed (M.meaning self.now.below)) (M.meaning self.now.below) (facts x.now) }
        ensures always { Transparent (M.meaning self.now.below) }
    {
        is_generic(x.sheet())
    }
}
