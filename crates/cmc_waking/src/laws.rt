//! Laws of work queues.
ghost use Rattle.std.specs.Prelude.{◌≡◌, List, true};
ghost use Rattle.cmc_meta.specs.declared.key.Key.{Key};
ghost use Rattle.cmc_objects.specs.declared.entry.Entry.{Entry};
ghost use Rattle.cmc_objects.specs.declared.role.Role.{Role};
ghost use Rattle.cmc_model.specs.Histories.{Setting, runs};
ghost use Rattle.cmc_queue.specs.declared.row.Row.{Row};
ghost use Rattle.cmc_waking.specs.WakeUps.{AreTended, IsSearched, IsTended, LosesNoWakeUp};

/// A law: rows that are tended lose no wake-up of a role that runs, and say what searches have to find.
pub fn no_wake_up_is_lost()
    ensures wakes { (s : Setting) → (h : List Entry) → (role : Role) → (row : Key → Row) → runs s h role ≡ true → AreTended s h role row → LosesNoWakeUp s h role row }
    ensures finds { (s : Setting) → (h : List Entry) → (role : Role) → (key : Key) → (row : Row) → runs s h role ≡ true → IsTended s h role key row → IsSearched s h role key row }
{}
