//! What an agent has in mind beside what it knows of each thread.

use gs_beliefs::Running;
use gs_core::Machine;
use gs_policy::AnyPolicy;
use std::alloc::{AllocError, Global};

/// What an agent believes, and who waits.
#[derive(Drop, PartialEq)]
pub(crate) struct Mind {
    /// Who is believed to run on each CPU.
    believed: Vec<Option<Running>>,
    /// Who waits, in order.
    waiting: Vec<u32>,
}

impl Mind {
    /// Returns what the agent of a machine has in mind: nothing, if there is none.
    pub(crate) fn of(alloc: Global, machine: &Machine<AnyPolicy>) -> Result<Mind, AllocError> {
        let mut believed = Vec::new(alloc);
        let mut waiting = Vec::new(alloc);
        if let Some(role) = machine.role() {
            for cpu in 0..machine.region().cpus() {
                believed.push(role.believed(cpu))?;
            }
            for tid in role.waiting() {
                waiting.push(tid)?;
            }
        }
        Ok(Mind { believed, waiting })
    }
}
