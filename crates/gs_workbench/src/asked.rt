ghost use Rattle.std.specs.Prelude.{◌≡◌};
ghost use Rattle.gs_workbench.specs.Settings.{policy_of, settings_of};

use gs_script::NamedPolicy;
use gs_simulate::Settings;
use gs_workload::Workload;

/// How a workload is to be simulated. What is not said here the workload says.
#[derive(Clone, Copy, PartialEq, Eq, Debug)]
pub struct Asked<P> {
    /// The policy of its agents. Without one it is that of the workload, or that of a header that names none.
    pub policy: Option<P>,
    /// How many ticks there are. Without a number the workload says it.
    pub ticks: Option<u32>,
    /// What all numbers are drawn by.
    pub seed: u64,
}

/// Returns the policy of a simulation: the one that is asked for, else that of the workload, else that of a header that names none.
pub fn policy_of<P: NamedPolicy>(asked: Option<P>, workload: &Workload<P>) -> P
    ensures { result ≡ policy_of P.naming asked workload.now.policy }
{
    match asked.or(workload.policy) {
        Some(policy) => policy,
        None => P::unnamed(),
    }
}

/// Returns how a workload is simulated: as it is asked for, and else as the workload says.
pub fn settings_of<P: NamedPolicy>(asked: Asked<P>, workload: &Workload<P>) -> Settings<P>
    ensures { result ≡ settings_of P.naming asked workload.now }
{
    Settings {
        policy: policy_of(asked.policy, workload),
        ticks: asked.ticks.unwrap_or(workload.ticks),
        seed: asked.seed,
    }
}
