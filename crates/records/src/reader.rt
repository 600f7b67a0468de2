// A reader over the bytes of a file, the form that is asked for: the whole file with a place, so that each record knows its own.
ghost use Rattle.std.specs.Prelude.{◌≤◌, length};

use crate::mark::Phase;

#[derive(Drop)]
pub struct Reader<'a> {
    pub(crate) file: &'a [u8],
    // where the next record's mark is due
    pub(crate) at: usize,
    pub(crate) phase: Phase,
    ghost within: { at ≤ length file.now },
}
