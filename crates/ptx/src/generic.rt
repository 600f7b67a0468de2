// Where proxies make no difference.
ghost use Rattle.std.specs.Prelude.{◌≡◌, true};
ghost use Rattle.execution.specs.Facts.{facts};
ghost use Rattle.model.specs.View.{all_generic, SameMeaning};
ghost use Rattle.ptx.specs.Axioms.{ptx_meaning};
ghost use Rattle.ptx.specs.Generic.{ProxiesAgree};
ghost use Rattle.ptx.specs.declared.flavour.Ptx.TheVariants.{Plain, WithProxies};

use execution::execution::Execution;
use model::view::is_generic;

// Whether every event of an execution is generic. PTX with proxies then means the same as PTX.
pub fn needs_no_proxies(x: &Execution) -> bool
    ensures generic { result ≡ all_generic (facts x.now).events }
    ensures same { result ≡ true → SameMeaning (ptx_meaning WithProxies) (ptx_meaning Plain) (facts x.now) }
    ensures always { ProxiesAgree }
{
    is_generic(x.sheet())
}
