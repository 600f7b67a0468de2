// A short list of pairs of events.
ghost use Rattle.std.specs.Prelude.{ℕ, ◌<◌, ◌≤◌, length, slice_index_or};

use arrayvec::ArrayVec;

// How many open pairs are completed at most.
pub const MOST: usize = 12;

#[derive(Drop)]
pub struct OpenPairs {
    pub(crate) list: ArrayVec<(usize, usize), MOST>,
    ghost few: { length list.items ≤ 12 },
    ghost lows: { (k : ℕ) → (slice_index_or list.items k (0, 0)).0 < 64 },
    ghost highs: { (k : ℕ) → (slice_index_or list.items k (0, 0)).1 < 64 },
}
