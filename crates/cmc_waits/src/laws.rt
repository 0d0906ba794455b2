//! A law of runs that have come to rest.
ghost use Rattle.std.specs.Prelude.{List};
ghost use Rattle.cmc_objects.specs.declared.entry.Entry.{Entry};
ghost use Rattle.cmc_model.specs.Histories.{Setting};
ghost use Rattle.cmc_rules.specs.Rest.{IsAtRest};
ghost use Rattle.cmc_rules.specs.Runs.{IsRun};
ghost use Rattle.cmc_waits.specs.Named.{IsWhole, NamesEachWait};
ghost use Rattle.cmc_waits.specs.Waits.{summary_at};

/// A law: no Certificate is stuck without a cause. Where all is at rest in the history of a run, each Certificate that
/// stands and is not Ready waits for something that has a name: a role that does not run or an informer that is held,
/// the end of its back-off, a next key, a verdict on its next request, the name of its Secret, or its issuer. So the
/// summary has an item for each of them, and just as many items as there are Certificates that are not Ready.
pub fn each_wait_is_named()
    ensures named { (s : Setting) (h : List Entry) → IsRun s h → IsAtRest s h → NamesEachWait s h }
    ensures whole { (s : Setting) (h : List Entry) → IsRun s h → IsAtRest s h → IsWhole s h (summary_at s h) }
{}
