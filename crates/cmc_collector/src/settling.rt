//! Settling: the caches are told of all, and what is due is examined, until nothing is left to do.
ghost use Rattle.std.specs.Prelude.{◌≡◌, ◌≤◌, IfOk, OnErr, MatchOption, length};
ghost use Rattle.cmc_meta.specs.declared.key.Key.{Key as KeyValue};
ghost use Rattle.cmc_collector.specs.Owners.{CollectsWell, IsGoodCollect};
ghost use Rattle.cmc_collector.specs.Replays.{on, played, setting};
ghost use Rattle.cmc_collector.specs.Settles as spec;
ghost use Rattle.cmc_collect_moves.specs.declared.moves.Collected.TheVariants.{Done};

use crate::collection::Collection;
use cmc_collect_moves::{CollectMove, Collected, examine};
use cmc_meta::Kind;
use std::alloc::{AllocError, Global};

impl Collection {
    fn is_behind(&self, kind: Kind) -> bool
        ensures { result ≡ on (spec.is_behind kind) self.now }
    {
        self.position(kind) < self.newest(kind)
    }

    /// The first kind, in the order of kinds, whose cache was not told of the newest write.
    fn behind(&self) -> Option<Kind>
        ensures { result ≡ on spec.first_kind_behind self.now }
    {
        if self.is_behind(Kind::Certificate) {
            return Some(Kind::Certificate);
        }
        if self.is_behind(Kind::CertificateRequest) {
            return Some(Kind::CertificateRequest);
        }
        if self.is_behind(Kind::Secret) {
            return Some(Kind::Secret);
        }
        None
    }

    /// The next move of settling; `None` where nothing is left to do.
    fn next_turn(&self) -> Result<Option<CollectMove>, AllocError>
        ensures { IfOk result (λ turn. MatchOption turn (on spec.IsSettled self.now) (λ step. on (spec.IsSettlingMove step) self.now)) }
    {
        if let Some(kind) = self.behind() {
            let to = self.newest(kind);
            return Ok(Some(CollectMove::Deliver { kind, to }));
        }
        Ok(examine(self.orphan()?))
    }

    /// Makes the next move of settling; what settling ends as, where it ends.
    fn turn(&mut self, alloc: Global, now: i64) -> Result<Option<Collected>, AllocError>
        ensures ok { IfOk result (λ end. spec.IsTurned now self.old end self.new) }
        ensures err { OnErr result (self.new ≡ self.old) }
    {
        let Some(step) = self.next_turn()? else {
            return Ok(Some(Collected::Done));
        };
        self.turn_by(alloc, now, step)
    }

    fn turn_by(
        &mut self,
        alloc: Global,
        now: i64,
        step: CollectMove,
    ) -> Result<Option<Collected>, AllocError>
        requires { on (spec.IsSettlingMove step) self.old }
        ensures ok { IfOk result (λ end. spec.IsTurned now self.old end self.new) }
        ensures err { OnErr result (self.new ≡ self.old) }
    {
        let answer = self.step(alloc, now, step)?;
        if answer.is_done() {
            return Ok(None);
        }
        Ok(Some(answer))
    }

    /// Tells each cache of the newest write of its kind, and then examines `orphan` once, over and over, until every cache is
    /// current and there is no orphan. It is `Done` then, and `Spent` where one more entry does not fit.
    ///
    /// Where memory runs out, the moves that were made stay made.
    pub fn settle(&mut self, alloc: Global, now: i64) -> Result<Collected, AllocError>
        ensures same { self.new ≡ record self.old { moments = self.new.moments } }
        ensures settles { on (spec.Settles now) self.old self.new.moments }
        ensures ends { IfOk result (λ end. on spec.EndsAs self.new end) }
        ensures none_left { IfOk result (λ end. end ≡ Done → (key : KeyValue) → IsGoodCollect (setting self.new) (played self.new.moments) key → ⊥) }
        ensures promise { IfOk result (λ end. on CollectsWell self.new) }
    {
        for _turn in 0..=self.events() {
            if let Some(end) = self.turn(alloc, now)? {
                self.collects_well();
                return Ok(end);
            }
        }
        let _count = self.count();
        unreachable!()
    }
}
