// PTX, and PTX with proxies: what counts as strong and as one location.
ghost use Rattle.std.specs.Prelude.{◌≡◌};
ghost use Rattle.relation.specs.Meaning.{holds};
ghost use Rattle.sheet.specs.Sheets.{closed_book};
ghost use Rattle.execution.specs.Facts.{facts};
ghost use Rattle.ptx.specs.Ptx.{narrowed, strong, poloc};

use execution::execution::Execution;
use execution::facts::{is_tied, tied};
use execution::tie::Tie;
use relation::Relation;
use sheet::closed::ClosedSheet;

#[derive(Clone, Copy)]
pub enum Ptx {
    Plain,
    // strong events and events of one location are of one proxy too, and causality does not cross proxies by itself
    WithProxies,
}

impl Ptx {
    // The pairs; with proxies, those of one proxy.
    fn narrowed(self, sheet: &ClosedSheet, pairs: Relation) -> Relation
        ensures { holds result ≡ narrowed self (closed_book sheet.now).threads (closed_book sheet.now).events (holds pairs) }
    {
        match self {
            Ptx::Plain => pairs,
            Ptx::WithProxies => pairs.intersection(&tied(sheet, Tie::SameProxy)),
        }
    }

    // Pairs of events where the scope of each covers the thread of the other; with proxies, of one proxy.
    pub fn strong(self, sheet: &ClosedSheet) -> Relation
        ensures { holds result ≡ strong self (closed_book sheet.now).threads (closed_book sheet.now).events }
    {
        self.narrowed(sheet, tied(sheet, Tie::Strong))
    }

    // Whether two events are strong; of one pair, no relation is laid out.
    pub fn is_strong(self, sheet: &ClosedSheet, a: usize, b: usize) -> bool
        ensures { result ≡ strong self (closed_book sheet.now).threads (closed_book sheet.now).events a b }
    {
        let all = is_tied(sheet, Tie::Strong, a, b);
        match self {
            Ptx::Plain => all,
            Ptx::WithProxies => all & is_tied(sheet, Tie::SameProxy, a, b),
        }
    }

    // Program order within one location; with proxies, of one proxy.
    pub fn poloc(self, x: &Execution) -> Relation
        ensures { holds result ≡ poloc self (facts x.now) }
    {
        let within = x.po().intersection(&tied(x.sheet(), Tie::Location));
        self.narrowed(x.sheet(), within)
    }
}
