//! Tests of a locked enclave in threads: whether its calls can succeed, and what no clause says of threads.
#![tactic(auto)]

#[cfg(test)]
mod callers;
#[cfg(test)]
mod closing;
#[cfg(test)]
mod hand_off;
#[cfg(test)]
mod in_order;
#[cfg(test)]
mod planned;
#[cfg(test)]
mod running;
#[cfg(test)]
mod shifts;
#[cfg(test)]
mod shown;
