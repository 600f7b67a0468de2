// The open pairs of a sheet under a model.
ghost use Rattle.std.specs.Prelude.{◌≡◌, ◌<◌, ◌&&◌, ◌↔◌, [], ◌∷◌, ◌++◌, length, IsSome, MatchOption, nat_lt};
ghost use Rattle.sheet.specs.Sheets.{closed_book};
ghost use Rattle.execution.specs.Facts.{facts_of};
ghost use Rattle.completion.specs.Openings.{most_open, is_open, open_in_row, open_pairs};
ghost use Rattle.completion.specs.Listed.{listed};
ghost use Rattle.completion.specs.Trials.{ListsOpen, Splits};

use crate::pairs::OpenPairs;
use arrayvec::ArrayVec;
use model::interface::MemoryModel;
use sheet::calls::Edge;
use sheet::closed::ClosedSheet;

impl OpenPairs {
    fn none() -> OpenPairs
        ensures { listed result ≡ [] }
    {
        OpenPairs {
            list: ArrayVec::new(),
        }
    }

    // How many pairs there are.
    pub fn len(&self) -> usize
        ensures { result ≡ length (listed self.now) }
    {
        self.list.len()
    }

    // One pair more at the end; none where there is no room.
    fn push(&mut self, a: usize, b: usize) -> Option<()>
        requires { (a < 64) × (b < 64) }
        ensures done { IsSome result ↔ (length (listed self.old) < most_open) }
        ensures listed { MatchOption result (listed self.new ≡ listed self.old) (λ _. listed self.new ≡ listed self.old ++ ((a, b) ∷ [])) }
    {
        self.list.try_push((a, b)).ok()
    }
}

// Whether a pair needs an order and the sheet gives neither direction.
// Model, sheet and events stand apart: a struct of them would be built for one call and taken apart at once.
pub fn is_open<M: MemoryModel>(m: &M, sheet: &ClosedSheet, a: usize, b: usize) -> bool
    ensures { result ≡ is_open (M.meaning m.now) (facts_of (closed_book sheet.now)) a b }
{
    let order = sheet.edges().of(Edge::Order);
    m.needs(sheet, a, b) & (!order.has(a, b) & !order.has(b, a))
}

// An open pair, the lower event first.
fn is_listed<M: MemoryModel>(m: &M, sheet: &ClosedSheet, a: usize, b: usize) -> bool
    ensures { result ≡ (nat_lt a b && is_open (M.meaning m.now) (facts_of (closed_book sheet.now)) a b) }
{
    a < b && is_open(m, sheet, a, b)
}

// Adds the open pairs of a with higher events; none where there are more than there is room for.
fn open_row<M: MemoryModel>(
    m: &M,
    sheet: &ClosedSheet,
    a: usize,
    pairs: &mut OpenPairs,
) -> Option<()>
    requires { a < 64 }
    ensures { let f = is_open (M.meaning m.now) (facts_of (closed_book sheet.now)) in
        let all = listed pairs.old ++ open_in_row f a (length (closed_book sheet.now).events) in
        MatchOption result (most_open < length all) (λ _. listed pairs.new ≡ all) }
{
    for b in 0..sheet.events().len() {
        if is_listed(m, sheet, a, b) {
            pairs.push(a, b)?;
        }
    }
    Some(())
}

// The open pairs, by lower event and then higher; none where there are more than 12. The last two clauses are theorems: the
// list has exactly the open pairs, and trying one of them both ways leaves the others open and splits the completions, so that
// some completion is consistent exactly if one is in one of the two trials.
pub fn open_pairs<M: MemoryModel>(m: &M, sheet: &ClosedSheet) -> Option<OpenPairs>
    ensures listed { let open_ones = open_pairs (M.meaning m.now) (facts_of (closed_book sheet.now)) in
        MatchOption result (most_open < length open_ones) (λ p. listed p ≡ open_ones) }
    ensures exact { ListsOpen (M.meaning m.now) (facts_of (closed_book sheet.now)) }
    ensures splits { Splits (M.meaning m.now) (facts_of (closed_book sheet.now)) }
{
    let mut pairs = OpenPairs::none();
    for a in 0..sheet.events().len() {
        open_row(m, sheet, a, &mut pairs)?;
    }
    Some(pairs)
}
