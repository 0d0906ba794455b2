//! Tests of values, certificates, keys, policies, matching and objects, a module for each crate: what no clause says,
//! and that each call has an answer where memory is ample. `values` and `whole` build the objects that all tests use.
#![tactic(auto)]

#[cfg(test)]
mod answers;
#[cfg(test)]
mod checks;
#[cfg(test)]
mod der;
#[cfg(test)]
mod facts;
#[cfg(test)]
mod keys;
#[cfg(test)]
mod made_certificates;
#[cfg(test)]
mod made_keys;
#[cfg(test)]
mod made_requests;
#[cfg(test)]
mod made_values;
#[cfg(test)]
mod marks;
#[cfg(test)]
mod matching;
#[cfg(test)]
mod meta;
#[cfg(test)]
mod objects;
#[cfg(test)]
mod orders;
#[cfg(test)]
mod pass;
#[cfg(test)]
mod policies;
#[cfg(test)]
mod policy_rules;
#[cfg(test)]
mod requests;
#[cfg(test)]
mod summary;
#[cfg(test)]
mod time;
pub mod values;
pub mod whole;
#[cfg(test)]
mod x509;
#[cfg(test)]
mod x509_build;
