//! Laws of plain histories.
ghost use Rattle.std.specs.Prelude.{List, ◌≡◌, ◌⊎◌};
ghost use Rattle.cmc_objects.specs.declared.entry.Entry.{Entry};
ghost use Rattle.cmc_model.specs.Histories.{Setting};
ghost use Rattle.cmc_setup.specs.Setups.{LeavesNothingFree, Setup};
ghost use Rattle.cmc_kernel.specs.Kept.{setting_of};
ghost use Rattle.cmc_kernel.specs.Leads.{Extends};
ghost use Rattle.cmc_rules.specs.Runs.{IsFinished};
ghost use Rattle.cmc_world.specs.Histories.{IsPlain, IsEnd, IsFull, HasNoFree};

/// A law: a plain history is a function of its setting, as far as it has come. Of two plain histories of one
/// setting the one is the beginning of the other, entry by entry, with the replies and the values in them, if no
/// question in the first of them has a free row: of a free row any value may be given, and only there may two runs
/// come apart.
pub fn plain_histories_agree()
    ensures { (s : Setting) (h k : List Entry) → IsPlain s h → IsPlain s k → HasNoFree h → Extends h k ⊎ Extends k h }
{}

/// A law: a plain run has one end. Two plain histories of one setting that have come to their end are equal, so
/// that where the one is finished the other does not want room, if no question in the first of them has a free row.
pub fn plain_ends_agree()
    ensures one { (s : Setting) (h k : List Entry) → IsPlain s h → IsEnd s h → IsPlain s k → IsEnd s k → HasNoFree h → h ≡ k }
    ensures apart { (s : Setting) (h k : List Entry) → IsPlain s h → IsFinished s h → IsPlain s k → IsFull s k → HasNoFree h → ⊥ }
{}

/// A law: where a scenario leaves neither a key nor an answer open, no question of a plain history of it has a free
/// row. So by the two laws on plain histories it has one, and one end.
pub fn plain_histories_have_no_free_question()
    ensures { (u : Setup) (h : List Entry) → LeavesNothingFree u → IsPlain (setting_of u) h → HasNoFree h }
{}
