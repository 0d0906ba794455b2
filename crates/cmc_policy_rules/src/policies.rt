//! Lists of policies.
use crate::policy::Policy;
use cmc_meta::{Item, Items};
use std::alloc::AllocError;

/// The policies of an approver, in order.
pub type Policies = Items<Policy>;

impl Item for Policy {
    fn copy(&self) -> Result<Policy, AllocError> {
        Policy::copy(self)
    }

    fn same(&self, other: &Policy) -> bool {
        Policy::same(self, other)
    }
}
