// The law that the output is a function of the input.
ghost use Rattle.std.specs.Prelude.{◌≡◌, ◌≤◌, ℕ, Bool, List};
ghost use Rattle.cmc_scenario.specs.Loads.{load_setup};
ghost use Rattle.cmrun.specs.Headline.{IsLoadOf, IsRunOf, Spends, SpendsAll};

/// A law: with 0 workers the output is a function of the input. Two texts that answer the same bytes, or a load of the
/// same count, are equal; and where there is such a text the history does not come to be full.
pub fn output_is_a_function_of_the_input()
    ensures run { (alone : Bool) (bytes t u : List ℕ) → IsRunOf 0 alone bytes t → IsRunOf 0 alone bytes u → t ≡ u }
    ensures unspent { (alone : Bool) (bytes t : List ℕ) → IsRunOf 0 alone bytes t → SpendsAll bytes → ⊥ }
    ensures load { (alone : Bool) (count : ℕ) (t u : List ℕ) → 1 ≤ count → count ≤ 200 → IsLoadOf 0 alone count t → IsLoadOf 0 alone count u → t ≡ u }
    ensures load_unspent { (alone : Bool) (count : ℕ) (t : List ℕ) → 1 ≤ count → count ≤ 200 → IsLoadOf 0 alone count t → Spends (load_setup count) → ⊥ }
{}
