// The caller's memory, filled from its front and never past its end. Whether all fits is asked once, by `write`.
ghost use Rattle.std.specs.Prelude.{◌≡◌, ◌≤◌, length};

#[derive(Drop)]
pub(crate) struct Writer<'a> {
    memory: &'a mut [u8],
    at: usize,
    ghost within: { at ≤ length memory.now },
}

impl<'a> Writer<'a> {
    ghost use Rattle.casewriter.specs.Written.{Added};

    pub(crate) fn new(memory: &'a mut [u8]) -> Writer<'a>
        ensures same_reference { result.memory.ghost_name ≡ memory.entry.ghost_name }
        ensures bytes { result.memory.now ≡ memory.old }
        ensures none { result.at ≡ 0 }
    {
        Writer { memory, at: 0 }
    }

    // Puts bytes behind those that are written, as many as fit. A part that fits whole has a branch of its own, where the compiler
    // knows the length to copy.
    pub(crate) fn put(&mut self, part: &[u8])
        ensures { Added self.old part.now self.new }
    {
        let room = self.memory.len() - self.at;
        if part.len() <= room {
            let end = self.at + part.len();
            self.memory[self.at..end].copy_from_slice(part);
            self.at = end;
        } else {
            self.memory[self.at..].copy_from_slice(&part[..room]);
            self.at += room;
        }
    }

    // How many bytes are written.
    pub(crate) fn written(&self) -> usize
        ensures { result ≡ self.now.at }
    {
        self.at
    }
}
