// The rules on rows, and on the two events of an edge.
ghost use Rattle.std.specs.Prelude.{◌≡◌, ◌<◌, length};
ghost use Rattle.sheet.specs.Rules.{thread_fits, grade_fits, scope_fits, proxy_fits, contents_fit, lawful, can_read_from, can_order, can_join, can_depend, is_next, is_read, is_write, is_sc_fence};

use crate::row::{Event, Thread};
use crate::words::{Grade, Kind, Proxy, Scope};

const BLOCKS: u8 = 16;

const DEVICES: u8 = 4;

// Whether a thread of this block and device may come behind `threads`.
pub(crate) fn thread_fits(threads: &[Thread], block: u8, device: u8) -> bool
    ensures { result ≡ thread_fits threads.now block device }
{
    if block >= BLOCKS || device >= DEVICES {
        return false;
    }
    threads
        .iter()
        .all(|t| t.block != block || t.device == device)
}

fn grade_fits(kind: Kind, grade: Grade) -> bool
    ensures { result ≡ grade_fits kind grade }
{
    match (kind, grade) {
        (Kind::Read, Grade::Weak | Grade::Relaxed | Grade::Acquire) => true,
        (Kind::Write, Grade::Weak | Grade::Relaxed | Grade::Release) => true,
        (Kind::MemoryFence, Grade::Acquire | Grade::Release | Grade::AcquireRelease | Grade::Sc) =>
            true,
        (Kind::ProxyFence, Grade::Weak) => true,
        _ => false,
    }
}

fn scope_fits(grade: Grade, scope: Scope) -> bool
    ensures { result ≡ scope_fits grade scope }
{
    (grade == Grade::Weak) == (scope == Scope::Thread)
}

fn proxy_fits(kind: Kind, grade: Grade, proxy: Proxy) -> bool
    ensures { result ≡ proxy_fits kind grade proxy }
{
    match (kind, proxy) {
        (Kind::Read | Kind::Write | Kind::MemoryFence, Proxy::Generic) => true,
        (Kind::Read, _) => grade == Grade::Weak,
        (Kind::Write, Proxy::Surface) => grade == Grade::Weak,
        (Kind::ProxyFence, Proxy::Constant | Proxy::Texture | Proxy::Surface) => true,
        _ => false,
    }
}

fn contents_fit(kind: Kind, address: u16, value: u32) -> bool
    ensures { result ≡ contents_fit kind address value }
{
    match kind {
        Kind::Read | Kind::Write => true,
        Kind::MemoryFence | Kind::ProxyFence => address == 0 && value == 0,
    }
}

#[tactic(auto, unfolding(crate::specs::Rules::lawful))]
pub(crate) fn is_lawful(e: Event) -> bool
    ensures { result ≡ lawful e }
{
    grade_fits(e.kind, e.grade)
        && scope_fits(e.grade, e.scope)
        && proxy_fits(e.kind, e.grade, e.proxy)
        && contents_fit(e.kind, e.address, e.value)
}

fn is_read(e: Event) -> bool
    ensures { result ≡ is_read e }
{
    e.kind == Kind::Read
}

fn is_write(e: Event) -> bool
    ensures { result ≡ is_write e }
{
    e.kind == Kind::Write
}

fn is_sc_fence(e: Event) -> bool
    ensures { result ≡ is_sc_fence e }
{
    e.kind == Kind::MemoryFence && e.grade == Grade::Sc
}

#[tactic(auto, unfolding(crate::specs::Rules::can_read_from))]
pub(crate) fn can_read_from(write: Event, read: Event) -> bool
    ensures { result ≡ can_read_from write read }
{
    is_write(write) && is_read(read) && write.address == read.address
}

#[tactic(auto, unfolding(crate::specs::Rules::can_order))]
pub(crate) fn can_order(e: Event, f: Event) -> bool
    ensures { result ≡ can_order e f }
{
    is_write(e) && is_write(f) && e.address == f.address || is_sc_fence(e) && is_sc_fence(f)
}

#[tactic(auto, unfolding(crate::specs::Rules::can_join))]
pub(crate) fn can_join(read: Event, write: Event) -> bool
    ensures { result ≡ can_join read write }
{
    is_read(read)
        && is_write(write)
        && read.address == write.address
        && read.proxy == Proxy::Generic
        && write.proxy == Proxy::Generic
        && read.scope == write.scope
}

#[tactic(auto, unfolding(crate::specs::Rules::can_depend))]
pub(crate) fn can_depend(e: Event, f: Event) -> bool
    ensures { result ≡ can_depend e f }
{
    is_read(e) && e.thread == f.thread
}

// Whether event j is the next of event i's thread.
pub(crate) fn is_next(events: &[Event], i: usize, j: usize) -> bool
    requires { (i < length events.now) × (j < length events.now) }
    ensures { result ≡ is_next events.now i j }
{
    let thread = events[i].thread;
    i < j && thread == events[j].thread && events[i + 1..j].iter().all(|e| e.thread != thread)
}
