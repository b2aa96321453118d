//! The CPUs whose active request nobody served.
ghost use Rattle.std.specs.Prelude.{◌≡◌};
ghost use Rattle.lb_core.specs.Elsewhere.{unserved};
ghost use Rattle.lb_ready.specs.Ready.{IsReady};

use lb_base::Mask;
use lb_engine::Engine;

/// The CPUs whose active request is unserved.
pub fn unserved(engine: &Engine) -> Mask
    requires { IsReady engine.now.machine }
    ensures { result ≡ unserved engine.now.machine }
{
    let mut mask = Mask::none();
    for cpu in 0..engine.cpus() {
        if engine.queue(cpu).active().is_some() {
            mask = mask.or(Mask::one(cpu));
        }
    }
    mask
}
