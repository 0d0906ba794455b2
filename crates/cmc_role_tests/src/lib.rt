//! Tests of the controllers: what no clause says, and that each call has an answer where memory is ample. They stand
//! apart from `cmc_tests`, so that a change of what roles do proves no test of readers and objects again.
#![tactic(auto)]

#[cfg(test)]
mod approver;
#[cfg(test)]
mod checks;
#[cfg(test)]
mod fixtures;
#[cfg(test)]
mod issuer;
#[cfg(test)]
mod issuing;
#[cfg(test)]
mod keymanager;
#[cfg(test)]
mod requestmanager;
#[cfg(test)]
mod status;
#[cfg(test)]
mod telling;
#[cfg(test)]
mod trigger;
