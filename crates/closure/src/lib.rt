// The closure of a table of steps: what all chains of at most 64 steps come to, for every kind of step whose joining
// and chaining keep the laws of `Laws`.
#![tactic(auto)]

ghost use Rattle.std.specs.Prelude.{◌≡◌, ◌*◌, ◌<◌, ◌≤◌, false, ◌&&◌, ◌||◌, length, Ok, Err};
ghost use Rattle.closure.specs.declared.Misfit.{Misfit as Reason};
ghost use Rattle.closure.specs.Kinds.{no_steps, fewer, further};
ghost use Rattle.closure.specs.Fitting.{fitting};
ghost use Rattle.closure.specs.Ways.{Reaches, Single, Measures};
ghost use Rattle.closure.specs.Steps.{Laws, Relaxed, Swept, Passed, Closed};
ghost use Rattle.closure.specs.KindLaws.{reach_laws, count_laws};

// One kind of step. `join` makes one value of two ways from an event to another, `chain` one of a step and the step
// after it, and `none` is the absence of a step.
pub trait Step: Copy {
    ghost none: { Self };

    ghost join: { Self → Self → Self };

    ghost chain: { Self → Self → Self };

    fn none() -> Self
        ensures { result ≡ none };

    fn join(self, other: Self) -> Self
        ensures { result ≡ join self other };

    fn chain(self, other: Self) -> Self
        ensures { result ≡ chain self other };

    // Each kind proves these.
    ghost lawful: { Laws none join chain };
}

// The most rows that a table may have.
const ROWS: usize = 64;

// Why a table is refused.
#[derive(Clone, Copy, PartialEq, Eq, Debug)]
pub enum Misfit {
    // more than 64 rows
    Rows,
    // fewer values than the table has entries
    Values,
}

// Joins to each entry of a row the way over one event: `via` is the row's step to that event, `over` the event's own row.
fn relax<S: Step + Copy>(row: &mut [S], via: S, over: &[S])
    requires { length row.old ≡ length over.now }
    ensures { Relaxed S.none S.join S.chain via over.now row.old row.new (length row.old) }
{
    // Behind a `zip` over `iter_mut` a proof knows no entry of the row, so `over` is read by the index.
    for (j, to) in row.iter_mut().enumerate() {
        *to = to.join(via.chain(over[j]));
    }
}

// Joins the way over k, whose own row is `over`, to each of these rows. How many they are is the caller's to tell: a division of
// the lengths would cost more than all else in a small table.
fn sweep<S: Step + Copy>(rows: &mut [S], count: usize, k: usize, over: &[S])
    requires { (length rows.old ≡ count * length over.now) × (k < length over.now) }
    ensures { Swept S.none S.join S.chain k over.now rows.old rows.new count }
{
    let n = over.len();
    // After `chunks_exact_mut` a proof knows no entry of the rows, so each row is cut out by its range.
    for i in 0..count {
        let row = &mut rows[i * n..(i + 1) * n];
        let via = row[k];
        relax(row, via, over);
    }
}

// Joins the way over k to each entry. Row k itself gains nothing from it, and is lent to the rows above it and below it. The number of
// rows stands beside the table, whose length gives only its square.
fn pass<S: Step + Copy>(table: &mut [S], n: usize, k: usize)
    requires { (n ≤ 64) × ((length table.old ≡ n * n) × (k < n)) }
    ensures { Passed S.none S.join S.chain n k table.old table.new }
{
    let (above, rest) = table.split_at_mut(k * n);
    let (over, below) = rest.split_at_mut(n);
    sweep(above, k, k, over);
    sweep(below, n - k - 1, k, over);
}

// Closes, in place, the table of n rows and n columns at the front of the slice, entry (i, j) at i * n + j. A table of
// more than 64 rows or a slice too short for it is refused, and then nothing is altered. The number of rows stands beside the
// slice, since the slice may be longer than the table.
pub fn close<S: Step + Copy>(steps: &mut [S], n: usize) -> Result<(), Misfit>
    ensures answer { result ≡ fitting n (length steps.old) }
    ensures closed { result ≡ Ok tt → Closed S.none S.join S.chain n steps.old steps.new }
    ensures refused { (why : Reason) → result ≡ Err why → steps.new ≡ steps.old }
{
    if n > ROWS {
        return Err(Misfit::Rows);
    }
    if steps.len() < n * n {
        return Err(Misfit::Values);
    }
    let table = &mut steps[..n * n];
    for k in 0..n {
        pass(table, n, k);
    }
    Ok(())
}

// Yes or no: whether there is a way.
impl Step for bool {
    ghost none = { false };

    ghost join = { ◌||◌ };

    ghost chain = { ◌&&◌ };

    ghost lawful = { reach_laws };

    fn none() -> bool {
        false
    }

    fn join(self, other: bool) -> bool {
        self | other
    }

    fn chain(self, other: bool) -> bool {
        self & other
    }
}

// The longest way that is counted.
const LONGEST: u8 = 64;

// How many steps a way has, at most 64, or `None` where there is none.
impl Step for Option<u8> {
    ghost none = { no_steps };

    ghost join = { fewer };

    ghost chain = { further };

    ghost lawful = { count_laws };

    fn none() -> Option<u8> {
        None
    }

    // Where the other is `None`, the compiler sees that nothing is altered: a row with no step to k takes little time.
    fn join(self, other: Option<u8>) -> Option<u8> {
        match (self, other) {
            (_, None) => self,
            (None, _) => other,
            (Some(a), Some(b)) => Some(a.min(b)),
        }
    }

    fn chain(self, other: Option<u8>) -> Option<u8> {
        self?.checked_add(other?).filter(|&sum| sum <= LONGEST)
    }
}

// The closure at yes and no: an entry is true exactly if a chain of one or more true entries leads from i to j.
pub fn reach(steps: &mut [bool], n: usize) -> Result<(), Misfit>
    ensures answer { result ≡ fitting n (length steps.old) }
    ensures closed { result ≡ Ok tt → Closed false ◌||◌ ◌&&◌ n steps.old steps.new }
    ensures reaches { result ≡ Ok tt → Reaches n steps.old steps.new }
    ensures refused { (why : Reason) → result ≡ Err why → steps.new ≡ steps.old }
{
    close(steps, n)
}

// The closure at step counts. On a table of single steps an entry is the length of the shortest chain from i to j, or
// `None` if there is no chain of any length.
pub fn distances(steps: &mut [Option<u8>], n: usize) -> Result<(), Misfit>
    ensures answer { result ≡ fitting n (length steps.old) }
    ensures closed { result ≡ Ok tt → Closed no_steps fewer further n steps.old steps.new }
    ensures measures { result ≡ Ok tt → Single n steps.old → Measures n steps.old steps.new }
    ensures refused { (why : Reason) → result ≡ Err why → steps.new ≡ steps.old }
{
    close(steps, n)
}
