//! What was found out of the next moves, as long as it is so.
ghost use Rattle.std.specs.Prelude.{◌≡◌, ◌⊎◌, ◌≤◌, ◌<◌, List, length, IfSome, IsSome, Some, None, [], true, if◌then◌else◌};
ghost use Rattle.cmc_objects.specs.Roles.{role_rank};
ghost use Rattle.cmc_objects.specs.declared.entry.Entry.{Entry};
ghost use Rattle.cmc_model.specs.Histories.{Setting};
ghost use Rattle.cmc_pass.specs.declared.pass.Act.TheVariants as acts;
ghost use Rattle.cmc_moves.specs.Answers.{told_order};
ghost use Rattle.cmc_world.specs.KeptLooks.{AreCurrent, IsCurrent, IsMine};

use crate::openings::Opening;
use cmc_kernel::Stepped;
use cmc_meta::Key;
use cmc_moves::let_go;
use cmc_objects::Role;
use cmc_pass::Act;
use std::alloc::Global;

/// How many passes are kept at most. Most begin soon after they were found, and in that order.
const MOST: usize = 8;

/// What is known of the roles, of the newest pass and of passes that may begin.
pub(crate) struct Kept {
    /// No role before this place is behind.
    pub told: u8,
    /// What the newest pass does, which has only begun.
    pub act: Option<Act>,
    /// Passes that looks found: what their roles see there, and what they do.
    pub looked: Vec<Opening>,
}

impl Drop for Kept {
    fn drop(self) {
        let Kept {
            told: _told,
            act,
            looked,
        } = self;
        let_go(act);
        let_go(looked);
    }
}

impl Kept {
    /// Nothing is known. It takes no memory.
    pub(crate) fn new(alloc: Global) -> Kept
        ensures told { result.told ≡ 0 }
        ensures act { result.act ≡ None }
        ensures looked { result.looked.items ≡ [] }
    {
        Kept {
            told: 0,
            act: None,
            looked: Vec::new(alloc),
        }
    }

    /// Notes the pass, where there is room for it and memory.
    pub(crate) fn note(&mut self, opening: Opening)
        ensures told { self.new.told ≡ self.old.told }
        ensures act { self.new.act ≡ self.old.act }
        ensures looked { (s : Setting) → (h : List Entry) → AreCurrent s h self.old.looked.items → IsCurrent s h opening → AreCurrent s h self.new.looked.items }
    {
        if self.looked.len() < MOST {
            let _kept = self.looked.push(opening);
        }
    }

    /// The place of the pass of the role on the key among those that are kept.
    fn place_of(&self, role: Role, key: &Key) -> Option<usize>
        ensures { IfSome result (λ place. place < length self.now.looked.items) }
    {
        for (place, opening) in self.looked.iter().enumerate() {
            if opening.is_on(role, key) {
                return Some(place);
            }
        }
        None
    }

    /// Takes the pass of the role on the key, where it is kept.
    #[tactic(auto, using(crate::proofs::Taking::all_taken))]
    pub(crate) fn take_pass(&mut self, role: Role, key: &Key) -> Option<Opening>
        ensures told { self.new.told ≡ self.old.told }
        ensures act { self.new.act ≡ self.old.act }
        ensures mine { IfSome result (IsMine role key.now) }
        ensures found { (s : Setting) → (h : List Entry) → AreCurrent s h self.old.looked.items → IfSome result (IsCurrent s h) }
        ensures looked { (s : Setting) → (h : List Entry) → AreCurrent s h self.old.looked.items → AreCurrent s h self.new.looked.items }
    {
        let place = self.place_of(role, key)?;
        self.looked.swap_remove(place).only_on(role, key)
    }

    /// Takes what the newest pass does, where that is known.
    pub(crate) fn take_act(&mut self) -> Option<Act>
        ensures taken { result ≡ self.old.act }
        ensures told { self.new.told ≡ self.old.told }
        ensures act { self.new.act ≡ None }
        ensures looked { self.new.looked.items ≡ self.old.looked.items }
    {
        self.act.take()
    }

    /// A pass has begun, and does this, if that is known.
    pub(crate) fn begun(&mut self, does: Option<Act>)
        ensures told { self.new.told ≡ self.old.told }
        ensures act { self.new.act ≡ does }
        ensures looked { self.new.looked.items ≡ self.old.looked.items }
    {
        self.act = does;
    }

    /// Forgets what the role's being told may have changed.
    pub(crate) fn forget_told(&mut self, role: Role)
        ensures below { self.new.told ≤ self.old.told }
        ensures told { self.new.told ≤ role_rank role }
        ensures act { self.new.act ≡ None }
        ensures looked { self.new.looked.items ≡ [] }
    {
        let told = self.told.min(role.rank());
        self.forget();
        self.told = told;
    }

    /// Forgets what a move of a pass may have changed. Where the pass had nothing to do, it can only have ended; else it may have
    /// written. After a question all is forgotten, since what roles do may hang on how many were asked.
    pub(crate) fn forget_gone(&mut self, idle: bool, answer: &Stepped)
        ensures told { (self.new.told ≡ 0) ⊎ ((idle ≡ true) × (self.new.told ≡ self.old.told)) }
        ensures act { self.old.act ≡ None → self.new.act ≡ None }
        ensures asked { IsSome (told_order answer.now) → (self.new.told ≡ 0) × (self.new.looked.items ≡ []) }
        ensures looked { (s : Setting) → (h : List Entry) → AreCurrent s h self.old.looked.items → AreCurrent s h self.new.looked.items }
    {
        if matches!(answer, Stepped::Order { .. }) {
            self.forget();
        }
        if !idle {
            self.told = 0;
        }
    }

    /// Forgets all.
    pub(crate) fn forget(&mut self)
        ensures told { self.new.told ≡ 0 }
        ensures act { self.new.act ≡ None }
        ensures looked { self.new.looked.items ≡ [] }
    {
        self.told = 0;
        self.act = None;
        self.looked.clear();
    }
}

/// What a pass does, where it was begun.
pub(crate) fn only_if(begun: bool, does: Option<Act>) -> Option<Act>
    ensures { result ≡ (if begun then does else None) }
{
    if begun {
        return does;
    }
    let_go(does);
    None
}

/// Whether it is known that there is nothing to do.
pub(crate) fn is_idle(does: &Option<Act>) -> bool
    ensures { result ≡ true → does.now ≡ Some acts.Nothing }
{
    matches!(does, Some(Act::Nothing))
}
