//! Laws of names that are generated.
ghost use Rattle.std.specs.Prelude.{List};
ghost use Rattle.cmc_objects.specs.declared.entry.Entry.{Entry};
ghost use Rattle.cmc_model.specs.Histories.{Setting};
ghost use Rattle.cmc_store_laws.specs.Names.{AreNamesFree};

/// A law: in each history, of fewer than 2^64 accepted writes, a create with a generated name is never refused because
/// the name is taken, and where it is accepted no object of its kind and namespace had the name.
///
/// The numbers that are tried are one more than the accepted writes, so more than the objects that exist, and no two
/// of them give the same name.
#[tactic(auto, using(crate::proofs::FreeNames::names_free))]
pub fn generated_names_are_free()
    ensures { (s : Setting) (h : List Entry) → AreNamesFree s h }
{}
