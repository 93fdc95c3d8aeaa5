//! The trial is opened: a balancer in which the other configuration is active.
ghost use Rattle.std.specs.Prelude.{◌≡◌, Ok, IfOk, IfErr};
ghost use Rattle.whatif_core.specs.Whatif.{IsTrial, IsTrialFault};

use audit_core::answer;
use conn_core::{Core, OpenFault};
use conn_model::event::Event;
use conn_model::reply::StepFault;
use std::alloc::Global;

/// Why there is no trial.
#[derive(Clone, Copy, Debug, PartialEq, Eq)]
pub enum TrialFault {
    /// The configuration of the record is refused.
    Config(OpenFault),
    /// The other one cannot replace it in a reload.
    Other(StepFault),
    NoMemory,
}

/// A core that opens with a configuration, which the other one replaces at time 0 ms. So frontends and listeners have the
/// numbers of the first one.
pub fn open_trial(alloc: Global, config: &str, other: &str) -> Result<Core, TrialFault>
    ensures ok { IfOk result (λ core. IsTrial config.now other.now core) }
    ensures fault { IfErr result (λ fault. IsTrialFault config.now other.now fault) }
{
    match Core::open(alloc, config) {
        Ok(mut core) => match answer(&mut core, 0, &Event::Reload(other)) {
            Ok(Ok(_reloaded)) => Ok(core),
            Ok(Err(fault)) => {
                core.end();
                Err(TrialFault::Other(fault))
            }
            Err(_) => {
                core.end();
                Err(TrialFault::NoMemory)
            }
        },
        Err(OpenFault::NoMemory) => Err(TrialFault::NoMemory),
        Err(fault) => Err(TrialFault::Config(fault)),
    }
}
