use crate::about::Row;
use crate::rows::{
    a_script, exit_statuses, faults_of_a_script, how_agents_come_and_go, looks, outcomes, refusals,
    the_agent, the_header, threads_and_cpus,
};
use std::alloc::{AllocError, Global};

/// Returns the rows of docs/REFERENCE.md about words of the language, refusals, outcomes, faults and exit statuses, in the order of
/// that page. It fails only if out of memory.
pub fn reference_rows(alloc: Global) -> Result<Vec<Row>, AllocError> {
    let mut rows = Vec::new(alloc);
    rows.extend_from_slice(&a_script())?;
    rows.extend_from_slice(&the_header())?;
    rows.extend_from_slice(&threads_and_cpus())?;
    rows.extend_from_slice(&the_agent())?;
    rows.extend_from_slice(&how_agents_come_and_go())?;
    rows.extend_from_slice(&looks())?;
    rows.extend_from_slice(&refusals())?;
    rows.extend_from_slice(&outcomes())?;
    rows.extend_from_slice(&faults_of_a_script())?;
    rows.extend_from_slice(&exit_statuses())?;
    Ok(rows)
}
