// The approver as JSON.
ghost use Rattle.std.specs.Prelude.{◌≡◌, codes, IfOk, OnOk};
ghost use Rattle.cmc_print.specs.Puts.{strings};
ghost use Rattle.cmc_print.specs.Trees.{members_of};
ghost use Rattle.cmc_scenario_print.specs.Defaults.{is_every_issuer, put_unless};
ghost use Rattle.cmc_scenario_print.specs.PolicyTrees.{approver_members};

use crate::policies::put_policies;
use cmc_meta::Text;
use cmc_objects::Rules;
use cmc_print::{Members, put_texts, texts_tree};
use std::alloc::{AllocError, Global};

fn is_for_every_issuer(issuers: &[Text]) -> bool
    ensures { result ≡ is_every_issuer issuers.now }
{
    match issuers {
        [issuer] => issuer.as_str() == "*",
        _ => false,
    }
}

fn put_issuers(members: &mut Members, alloc: Global, issuers: &[Text]) -> Result<(), AllocError>
    ensures { OnOk result (members_of members.new ≡ put_unless (is_every_issuer issuers.now) strings (codes "issuers") issuers.now (members_of members.old)) }
{
    if is_for_every_issuer(issuers) {
        return Ok(());
    }
    let tree = texts_tree(alloc, issuers)?;
    members.put(alloc, "issuers", tree)
}

/// The members of the approver: none where it is the usual one.
#[tactic(auto, unfolding(crate::specs::PolicyTrees::approver_members))]
pub fn members_of_approver(alloc: Global, rules: &Rules) -> Result<Members, AllocError>
    ensures { IfOk result (λ m. members_of m ≡ approver_members rules.now) }
{
    let mut members = Members::new(alloc);
    put_issuers(&mut members, alloc, rules.issuers.as_slice())?;
    put_policies(&mut members, alloc, rules.policies.as_slice())?;
    put_texts(&mut members, alloc, "refuse", rules.refuse.as_slice())?;
    Ok(members)
}
