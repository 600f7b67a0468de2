// The vocabulary of events. Each word has a code: its place in the list of its sort.
ghost use Rattle.std.specs.Prelude.{◌≡◌};
ghost use Rattle.std.specs.Option.{ok_or};
ghost use Rattle.sheet.specs.Words.{nth, kinds, grades, scopes, proxies, kind_code, grade_code, scope_code, proxy_code};
ghost use Rattle.sheet.specs.declared.calls.Refusal.TheVariants.{BadField};

use crate::calls::Refusal;

// The word that stands at a code's place. An impl is for one type, so each word has its own two conversions.
fn word<T: Copy>(words: &[T], code: u8) -> Result<T, Refusal>
    ensures { result ≡ ok_or (nth words.now code) BadField }
{
    words
        .get(usize::from(code))
        .copied()
        .ok_or(Refusal::BadField)
}

#[derive(Clone, Copy, PartialEq, Eq, Debug, Default)]
pub enum Kind {
    #[default]
    Read,
    Write,
    MemoryFence,
    ProxyFence,
}

const KINDS: [Kind; 4] = [Kind::Read, Kind::Write, Kind::MemoryFence, Kind::ProxyFence];

impl TryFrom<u8> for Kind {
    type Error = Refusal;

    ghost try_from_gives = { λ n r. r ≡ ok_or (nth kinds n) BadField };

    fn try_from(code: u8) -> Result<Kind, Refusal> {
        word(&KINDS, code)
    }
}

impl From<Kind> for u8 {
    ghost from_gives = { λ k n. n ≡ kind_code k };

    fn from(kind: Kind) -> u8 {
        kind as u8
    }
}

#[derive(Clone, Copy, PartialEq, Eq, Debug, Default)]
pub enum Grade {
    #[default]
    Weak,
    Relaxed,
    Acquire,
    Release,
    AcquireRelease,
    // sequentially consistent
    Sc,
}

const GRADES: [Grade; 6] = [
    Grade::Weak,
    Grade::Relaxed,
    Grade::Acquire,
    Grade::Release,
    Grade::AcquireRelease,
    Grade::Sc,
];

impl TryFrom<u8> for Grade {
    type Error = Refusal;

    ghost try_from_gives = { λ n r. r ≡ ok_or (nth grades n) BadField };

    fn try_from(code: u8) -> Result<Grade, Refusal> {
        word(&GRADES, code)
    }
}

impl From<Grade> for u8 {
    ghost from_gives = { λ g n. n ≡ grade_code g };

    fn from(grade: Grade) -> u8 {
        grade as u8
    }
}

#[derive(Clone, Copy, PartialEq, Eq, Debug, Default)]
pub enum Scope {
    #[default]
    Thread,
    Block,
    Device,
    System,
}

const SCOPES: [Scope; 4] = [Scope::Thread, Scope::Block, Scope::Device, Scope::System];

impl TryFrom<u8> for Scope {
    type Error = Refusal;

    ghost try_from_gives = { λ n r. r ≡ ok_or (nth scopes n) BadField };

    fn try_from(code: u8) -> Result<Scope, Refusal> {
        word(&SCOPES, code)
    }
}

impl From<Scope> for u8 {
    ghost from_gives = { λ s n. n ≡ scope_code s };

    fn from(scope: Scope) -> u8 {
        scope as u8
    }
}

#[derive(Clone, Copy, PartialEq, Eq, Debug, Default)]
pub enum Proxy {
    #[default]
    Generic,
    Constant,
    Texture,
    Surface,
}

const PROXIES: [Proxy; 4] = [
    Proxy::Generic,
    Proxy::Constant,
    Proxy::Texture,
    Proxy::Surface,
];

impl TryFrom<u8> for Proxy {
    type Error = Refusal;

    ghost try_from_gives = { λ n r. r ≡ ok_or (nth proxies n) BadField };

    fn try_from(code: u8) -> Result<Proxy, Refusal> {
        word(&PROXIES, code)
    }
}

impl From<Proxy> for u8 {
    ghost from_gives = { λ p n. n ≡ proxy_code p };

    fn from(proxy: Proxy) -> u8 {
        proxy as u8
    }
}
