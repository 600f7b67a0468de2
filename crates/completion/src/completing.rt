// The order that a completion gives.
ghost use Rattle.std.specs.Prelude.{◌≡◌};
ghost use Rattle.relation.specs.Algebra.{◌∪◌};
ghost use Rattle.relation.specs.Meaning.{holds};
ghost use Rattle.completion.specs.Openings.{added};
ghost use Rattle.completion.specs.Listed.{listed};

use crate::pairs::OpenPairs;
use relation::Relation;

// An order with one edge more for each pair: bit i, lowest first, is 0 if the lower event of pair i comes first.
pub fn complete(order: &Relation, pairs: &OpenPairs, completion: u16) -> Relation
    ensures { holds result ≡ holds order.now ∪ added (listed pairs.now) completion }
{
    let mut all = *order;
    for (i, pair) in pairs.list.iter().enumerate() {
        let (low, high) = *pair;
        if (completion >> i) & 1 == 1 {
            all.add(high, low);
        } else {
            all.add(low, high);
        }
    }
    all
}
