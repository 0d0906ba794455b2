//! Conditions that are True.
ghost use Rattle.std.specs.Prelude.{◌≡◌, ◌==◌, ◌&&◌};
ghost use Rattle.cmc_meta.specs.declared.conditions.ConditionKind.TheVariants as kinds;
ghost use Rattle.cmc_meta.specs.declared.conditions.Tri.TheVariants.{True};
ghost use Rattle.cmc_meta.specs.ConditionLists.{condition_rank, tri_eq};
ghost use Rattle.cmc_objects.specs.Requests.{is_stated};

use cmc_meta::{Condition, ConditionKind, Tri};

fn says_ready(condition: &Condition) -> bool
    ensures { result ≡ ((condition_rank condition.now.kind == condition_rank kinds.Ready) && tri_eq condition.now.status True) }
{
    match condition.kind {
        ConditionKind::Ready => condition.status.same(Tri::True),
        _ => false,
    }
}

fn says_issuing(condition: &Condition) -> bool
    ensures { result ≡ ((condition_rank condition.now.kind == condition_rank kinds.Issuing) && tri_eq condition.now.status True) }
{
    match condition.kind {
        ConditionKind::Issuing => condition.status.same(Tri::True),
        _ => false,
    }
}

/// Whether Ready is True.
pub fn is_ready(conditions: &[Condition]) -> bool
    ensures { result ≡ is_stated kinds.Ready conditions.now }
{
    conditions.iter().any(says_ready)
}

/// Whether Issuing is True.
pub fn is_issuing(conditions: &[Condition]) -> bool
    ensures { result ≡ is_stated kinds.Issuing conditions.now }
{
    conditions.iter().any(says_issuing)
}
