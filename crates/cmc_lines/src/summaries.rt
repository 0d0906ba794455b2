// A summary as a JSON tree.
ghost use Rattle.std.specs.Prelude.{◌≡◌, map, IfOk};
ghost use Rattle.cmc_print.specs.Trees.{data_of, items_in};
ghost use Rattle.cmc_report.specs.Trees.{counts_tree, summary_tree, wait_name, waiting_tree};

use crate::parts::put_name;
use cmc_print::{Members, Tree, Trees, put_count, put_text};
use cmc_summary::{Summary, WaitName, Waiting};
use std::alloc::{AllocError, Global};

fn wait_word(wait: WaitName) -> &'static str
    ensures { result.now ≡ wait_name wait }
{
    match wait {
        WaitName::Stopped => "stopped",
        WaitName::Backoff => "backoff",
        WaitName::Key => "key",
        WaitName::Unapproved => "unapproved",
        WaitName::Name => "name",
        WaitName::Pending => "pending",
    }
}

#[tactic(auto, unfolding(cmc_report::specs::Trees::waiting_tree))]
fn waiting_of(alloc: Global, waiting: &Waiting) -> Result<Tree, AllocError>
    ensures { IfOk result (λ t. data_of t ≡ waiting_tree waiting.now) }
{
    let mut members = Members::new(alloc);
    put_name(&mut members, alloc, "certificate", &waiting.certificate)?;
    put_text(&mut members, alloc, "wait", wait_word(waiting.wait))?;
    Ok(Tree::object(members))
}

fn waits_of(alloc: Global, waits: &[Waiting]) -> Result<Trees, AllocError>
    ensures { IfOk result (λ t. items_in t ≡ map waiting_tree waits.now) }
{
    let mut trees = Trees::new(alloc);
    for waiting in waits {
        trees.push(waiting_of(alloc, waiting)?)?;
    }
    Ok(trees)
}

#[tactic(auto, unfolding(cmc_report::specs::Trees::counts_tree))]
fn counts_of(alloc: Global, summary: &Summary) -> Result<Tree, AllocError>
    ensures { IfOk result (λ t. data_of t ≡ counts_tree summary.now) }
{
    let mut members = Members::new(alloc);
    put_count(&mut members, alloc, "certificates", summary.certificates)?;
    put_count(&mut members, alloc, "ready", summary.ready)?;
    put_count(&mut members, alloc, "secrets", summary.secrets)?;
    let waits = waits_of(alloc, summary.waiting.as_slice())?;
    members.put(alloc, "waiting", Tree::list(waits))?;
    Ok(Tree::object(members))
}

/// The line of the summary as a JSON tree.
#[tactic(auto, unfolding(cmc_report::specs::Trees::summary_tree))]
pub fn tree_of_summary(alloc: Global, summary: &Summary) -> Result<Tree, AllocError>
    ensures { IfOk result (λ t. data_of t ≡ summary_tree summary.now) }
{
    let counts = counts_of(alloc, summary)?;
    let mut members = Members::new(alloc);
    members.put(alloc, "summary", counts)?;
    Ok(Tree::object(members))
}
