//! Tests of the store, the history, the readers and printers of objects and scenarios, and the report: what no clause
//! says, and that each call has an answer where memory is ample. They stand apart from `cmc_tests`, so that a change of
//! what is read and printed proves no test of certificates and keys again.
#![tactic(auto)]

#[cfg(test)]
mod admission;
#[cfg(test)]
mod applied_forms;
#[cfg(test)]
mod checks;
#[cfg(test)]
mod codec;
#[cfg(test)]
mod collector;
#[cfg(test)]
mod cursor;
#[cfg(test)]
mod history;
#[cfg(test)]
mod history_read;
#[cfg(test)]
mod json_texts;
#[cfg(test)]
mod objects_read;
#[cfg(test)]
mod report;
#[cfg(test)]
mod scenario;
#[cfg(test)]
mod store;
