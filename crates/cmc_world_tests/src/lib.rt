//! Tests of informers, work queues and worlds: what no clause says, and that each call has an answer where memory is
//! ample.
#![tactic(auto)]

#[cfg(test)]
mod answers;
#[cfg(test)]
mod audit;
#[cfg(test)]
mod begins;
#[cfg(test)]
mod checks;
#[cfg(test)]
mod deciding;
#[cfg(test)]
mod fixtures;
#[cfg(test)]
mod handed_in;
#[cfg(test)]
mod informer;
#[cfg(test)]
mod laws;
#[cfg(test)]
mod queue;
#[cfg(test)]
mod restarts;
#[cfg(test)]
mod work_queues;
#[cfg(test)]
mod world;
