// Which pairs of base causality order count where proxies matter.
ghost use Rattle.std.specs.Prelude.{◌≡◌};
ghost use Rattle.relation.specs.Meaning.{members, holds};
ghost use Rattle.sheet.specs.Sheets.{closed_book};
ghost use Rattle.ptx.specs.Prepared.{fenced_by, departs_by, lands_by, crosses_by, kept_by, counted_by};
ghost use Rattle.ptx.specs.Ptx.{counted};

use crate::flavour::Ptx;
use execution::class::Class;
use execution::facts::{class, tied};
use execution::tie::Tie;
use relation::{Relation, Row};
use sheet::closed::ClosedSheet;

#[derive(Clone, Copy)]
pub struct Crossing {
    pub(crate) generic: Row,
    pub(crate) other: Row,
    // neither reads nor writes
    pub(crate) neither: Row,
    // the proxy fences
    pub(crate) fences: Row,
    // events of one proxy and one block
    pub(crate) together: Relation,
    pub(crate) itself: Relation,
}

impl Crossing {
    // How base pairs cross proxies under a flavour of PTX, if that matters.
    pub fn of(flavour: Ptx, sheet: &ClosedSheet) -> Option<Crossing>
        ensures { counted_by result ≡ counted flavour (closed_book sheet.now).threads (closed_book sheet.now).events }
    {
        match flavour {
            Ptx::Plain => None,
            Ptx::WithProxies => Some(Crossing {
                generic: class(sheet, Class::Generic),
                other: class(sheet, Class::NonGeneric),
                neither: class(sheet, Class::NonAccess),
                fences: class(sheet, Class::ProxyFence),
                together: tied(sheet, Tie::SameProxy).intersection(&tied(sheet, Tie::SameBlock)),
                itself: tied(sheet, Tie::Itself),
            }),
        }
    }

    // An event with itself if it is generic, and base pairs of one proxy and block between the two sets.
    fn fenced(&self, base: &Relation, first: Row, second: Row) -> Relation
        ensures { holds result ≡ fenced_by self.now (holds base.now) (members first) (members second) }
    {
        let between = base.intersection(&self.together).from(first).to(second);
        self.itself.from(self.generic).union(&between)
    }

    // From an event to where it starts: itself if it is generic, else a proxy fence of its proxy and block after it.
    #[tactic(auto, unfolding(crate::specs::Kept::departs))]
    fn departs(&self, base: &Relation) -> Relation
        ensures { holds result ≡ departs_by self.now (holds base.now) }
    {
        self.fenced(base, self.other, self.fences)
    }

    // From where an event is landed on to the event: itself if it is generic, else a proxy fence of its proxy and block
    // before it.
    #[tactic(auto, unfolding(crate::specs::Kept::lands))]
    fn lands(&self, base: &Relation) -> Relation
        ensures { holds result ≡ lands_by self.now (holds base.now) }
    {
        self.fenced(base, self.fences, self.other)
    }

    // A start and a landing that are one, or in this order.
    #[tactic(auto, unfolding(crate::specs::Kept::crosses))]
    fn crosses(&self, base: &Relation) -> Relation
        ensures { holds result ≡ crosses_by self.now (holds base.now) }
    {
        let departs = self.departs(base);
        let lands = self.lands(base);
        departs.then(&lands).union(&departs.then(base).then(&lands))
    }

    // The base pairs that are kept.
    #[tactic(auto, unfolding(crate::specs::Kept::kept_of))]
    fn kept(&self, base: &Relation) -> Relation
        ensures { holds result ≡ kept_by self.now (holds base.now) }
    {
        let near = base.from(self.neither).union(&base.to(self.neither));
        near.union(&base.intersection(&self.together))
            .union(&base.intersection(&self.crosses(base)))
    }
}

// The base pairs that causality uses.
pub fn counted(crossing: &Option<Crossing>, base: &Relation) -> Relation
    ensures { holds result ≡ counted_by crossing.now (holds base.now) }
{
    crossing.as_ref().map_or(*base, |c| c.kept(base))
}
