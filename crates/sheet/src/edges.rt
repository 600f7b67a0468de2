// The edges of a sheet: a relation for each sort.
ghost use Rattle.std.specs.Prelude.{◌≡◌};
ghost use Rattle.std.specs.Borrow.{sem};
ghost use Rattle.relation.specs.Meaning.{holds};
ghost use Rattle.sheet.specs.Lending.{LendsSort};
ghost use Rattle.sheet.specs.Sets.{laid, no_edges, with_edge, without_edge, given_in};

use crate::calls::Edge;
use relation::Relation;

#[derive(Clone, Copy)]
pub struct Edges {
    pub(crate) read_from: Relation,
    pub(crate) order: Relation,
    pub(crate) atomic: Relation,
    pub(crate) depend: Relation,
}

// Sort and events stand apart here too: a struct of them would be taken apart at once.
impl Edges {
    pub(crate) fn none() -> Edges
        ensures { laid result ≡ no_edges }
    {
        Edges {
            read_from: Relation::empty(),
            order: Relation::empty(),
            atomic: Relation::empty(),
            depend: Relation::empty(),
        }
    }

    // The edges of one sort.
    pub fn of(&self, edge: Edge) -> &Relation
        ensures { holds result.now ≡ laid self.now edge }
    {
        match edge {
            Edge::ReadFrom => &self.read_from,
            Edge::Order => &self.order,
            Edge::Atomic => &self.atomic,
            Edge::Depend => &self.depend,
        }
    }

    fn of_mut(&mut self, edge: Edge) -> &mut Relation
        ensures* writes_back { sem 𝓛 (LendsSort self.entry edge result) }
        ensures value { holds result.now ≡ laid self.old edge }
    {
        match edge {
            Edge::ReadFrom => &mut self.read_from,
            Edge::Order => &mut self.order,
            Edge::Atomic => &mut self.atomic,
            Edge::Depend => &mut self.depend,
        }
    }

    // Whether the edge is there; for order, also the other way; for read-from, whether the read has any source.
    #[tactic(auto, unfolding(crate::specs::Sets::given_in))]
    pub(crate) fn gives(&self, edge: Edge, first: usize, second: usize) -> bool
        ensures { result ≡ given_in (laid self.now) edge first second }
    {
        match edge {
            Edge::ReadFrom => self.read_from.range().has(second),
            Edge::Order => self.order.has(first, second) || self.order.has(second, first),
            Edge::Atomic | Edge::Depend => self.of(edge).has(first, second),
        }
    }

    pub(crate) fn add(&mut self, edge: Edge, first: usize, second: usize)
        ensures { laid self.new ≡ with_edge (laid self.old) edge first second }
    {
        self.of_mut(edge).add(first, second);
    }

    pub(crate) fn remove(&mut self, edge: Edge, first: usize, second: usize)
        ensures { laid self.new ≡ without_edge (laid self.old) edge first second }
    {
        self.of_mut(edge).remove(first, second);
    }
}
