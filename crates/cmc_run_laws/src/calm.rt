//! Passes of the plain order run alone, on what there is to see.
ghost use Rattle.std.specs.Prelude.{◌≡◌, ◌<◌, ◌^◌, ℕ, List, Some, false, true};
ghost use Rattle.cmc_meta.specs.declared.key.Key.{Key};
ghost use Rattle.cmc_objects.specs.declared.entry.Entry.{Entry};
ghost use Rattle.cmc_objects.specs.declared.role.Role.{Role};
ghost use Rattle.cmc_model.specs.Histories.{Setting};
ghost use Rattle.cmc_rules.specs.Passes.{open_pass};
ghost use Rattle.cmc_rules.specs.Runs.{IsRun};
ghost use Rattle.cmc_rules.specs.Scripts.{has_held};
ghost use Rattle.cmc_rules.specs.Views.{present_views, views};
ghost use Rattle.cmc_rules.specs.declared.progress.OpenPass.{OpenPass};
ghost use Rattle.cmc_moves.specs.declared.moves.Move.TheVariants.{Begin};
ghost use Rattle.cmc_world.specs.Histories.{IsPlain};
ghost use Rattle.cmc_kernel.specs.Plain.{IsChosen};
ghost use Rattle.cmc_run_laws.specs.Calm.{is_before_writes, is_calm, HasCalmReplies, RunsAlone};

use cmc_store_laws::generated_names_are_free;

/// A law: a pass that the plain order begins sees what there is to see. Where the plain move of a run's history begins a
/// pass of a role of which no informer is held, what the role sees of the key is what exists.
pub fn plain_begins_see_all()
    ensures { (s : Setting) (h : List Entry) (role : Role) (key : Key) → IsRun s h → IsChosen s h (Begin role key) → has_held s h role ≡ false
        → views s h role key ≡ present_views s h role key }
{}

/// A law: a pass of the plain order runs alone. Where no step of the script holds an informer or waits for a count of
/// writes, all entries since the begin of an open pass are its own; until its first write it sees what there is to see; and
/// each call of a pass is answered Ok, Unchanged, Found, or Unavailable, so that the store refuses none.
pub fn plain_passes_run_alone()
    ensures alone { (s : Setting) (h : List Entry) → IsPlain s h → is_calm s.script ≡ true → s.events < 2 ^ 64
        → (n : ℕ) (p : OpenPass) → open_pass s h n ≡ Some p → RunsAlone n h }
    ensures sees { (s : Setting) (h : List Entry) → IsPlain s h → is_calm s.script ≡ true → s.events < 2 ^ 64
        → (n : ℕ) (p : OpenPass) → open_pass s h n ≡ Some p → is_before_writes p.stage ≡ true → p.seen ≡ present_views s h p.role p.key }
    ensures served { (s : Setting) (h : List Entry) → IsPlain s h → is_calm s.script ≡ true → s.events < 2 ^ 64 → HasCalmReplies h }
{
    generated_names_are_free();
}
