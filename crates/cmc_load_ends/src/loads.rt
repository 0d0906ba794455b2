//! How long a plain run of a load gets.
ghost use Rattle.std.specs.Prelude.{◌≤◌, ℕ, List};
ghost use Rattle.cmc_objects.specs.declared.entry.Entry.{Entry};
ghost use Rattle.cmc_model.specs.Histories.{Setting};
ghost use Rattle.cmc_kernel.specs.Kept.{setting_of};
ghost use Rattle.cmc_world.specs.Histories.{IsFull, IsPlain};
ghost use Rattle.cmc_safety.specs.Formed.{IsFormed};
ghost use Rattle.cmc_scenario.specs.Loads.{load_setup};
ghost use Rattle.cmc_load_laws.specs.Loads.{HasAllRoles, IsLoad};
ghost use Rattle.cmc_load_ends.specs.LoadLengths.{HasLinearLength};
ghost use Rattle.cmc_load_ends.specs.LoadWrites.{HasFewRoleWrites};

use cmc_load_laws::each_load_write_lowers_the_measure;
use cmc_store_laws::generated_names_are_free;

/// A law: the length of a plain run of a load is linear in the steps made and in the accepted writes: 2 for each step, 18 for
/// each write of a user, 28 for each write of a role, and 3. Roles are told 7 times of each write at most. Each write is
/// something new to see for 8 roles at most, on one key each, and a pass that finds nothing to do sees something new. A pass
/// that finds something to do writes, and has 5 entries at most.
pub fn load_length_is_linear()
    ensures { (s : Setting) (h : List Entry) → IsFormed s → IsLoad s → IsPlain s h → HasLinearLength h }
{
    generated_names_are_free();
}

/// A law: the scenario of a generated load is one, whatever its count of Certificates, and all its roles run.
pub fn generated_scenario_is_a_load()
    ensures load { (count : ℕ) → IsLoad (setting_of (load_setup count)) }
    ensures roles { (count : ℕ) → HasAllRoles (setting_of (load_setup count)) }
{}

/// A law: in a plain run of a load whose roles all run, roles write 14 times for each write of a user at most, and as often as
/// ticks add: at each tick 14 times for each Certificate, and once for each request that it owns.
pub fn role_writes_are_few()
    ensures { (s : Setting) (h : List Entry) → IsFormed s → IsLoad s → HasAllRoles s → IsPlain s h → HasFewRoleWrites s h }
{
    generated_names_are_free();
    each_load_write_lowers_the_measure();
}

/// A law: the plain run of a generated load never fills its history. So it comes to its end.
pub fn generated_loads_end()
    ensures { (count : ℕ) (h : List Entry) → 1 ≤ count → count ≤ 200 → IsPlain (setting_of (load_setup count)) h → IsFull (setting_of (load_setup count)) h → ⊥ }
{
    generated_names_are_free();
    each_load_write_lowers_the_measure();
}
