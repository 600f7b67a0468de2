// What an axiom asks of its relation.
#[derive(Clone, Copy, PartialEq, Eq, Debug)]
pub enum AxiomKind {
    Acyclic,
    Irreflexive,
    Empty,
}
