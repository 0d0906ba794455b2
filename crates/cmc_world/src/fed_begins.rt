//! A pass begins, and its key is in process.
ghost use Rattle.std.specs.Prelude.{◌≡◌, IfOk, IfSome, OnErr, OnOk, false, true};
ghost use Rattle.cmc_meta.specs.declared.key.Key.{Key as KeyValue};
ghost use Rattle.cmc_objects.specs.declared.role.Role.{Role as RoleValue};
ghost use Rattle.cmc_model.specs.Histories.{moment, runs};
ghost use Rattle.cmc_queue.specs.Queues.{fresh_count, has_room};
ghost use Rattle.cmc_rules.specs.Memory.{past};
ghost use Rattle.cmc_rules.specs.Passes.{IsWorking};
ghost use Rattle.cmc_rules.specs.Positions.{positions};
ghost use Rattle.cmc_rules.specs.Origins.{begun as begun_by};
ghost use Rattle.cmc_rules.specs.Rest.{IsIdle};
ghost use Rattle.cmc_rules.specs.Runs.{IsRun};
ghost use Rattle.cmc_rules.specs.Sameness.{IsDue};
ghost use Rattle.cmc_rules.specs.Sound.{IsDueMoment};
ghost use Rattle.cmc_rules.specs.Views.{views};
ghost use Rattle.cmc_moves.specs.Answers.{Answers, AnswersBegin, IsQueued, Leaves};
ghost use Rattle.cmc_moves.specs.Prospects.{IsFirstAct};
ghost use Rattle.cmc_moves.specs.declared.moves.Move.TheVariants as moves;
ghost use Rattle.cmc_waking.specs.Queues.{queue_in, row_at, HasPlaceAt};
ghost use Rattle.cmc_kernel.specs.Kept.{on};
ghost use Rattle.cmc_world.specs.DueMoments.{HasDatedMoments, IsFirstAfter};
ghost use Rattle.cmc_world.specs.Fed.{IsFed};
ghost use Rattle.cmc_world.specs.KeptLooks.{IsCurrent, IsMine, DoesOn};
ghost use Rattle.cmc_queue.specs.Rows.{is_free, is_unknown};
ghost use Rattle.cmc_queue.specs.declared.row.Found.TheVariants as found;

use crate::due::due_after;
use crate::kept::only_if;
use crate::openings::Opening;
use cmc_kernel::{Kernel, Stepped};
use cmc_meta::Key;
use cmc_moves::let_go;
use cmc_objects::{Role, Shared};
use cmc_pass::{Act, Views};
use cmc_queue::Found;
use cmc_waking::Queues;
use std::alloc::{AllocError, Global};

/// What the role sees of the key.
pub(crate) fn dated_views(
    alloc: Global,
    kernel: &Kernel,
    role: Role,
    key: &Key,
) -> Result<Shared<Views>, AllocError>
    ensures sees { IfOk result (λ seen. seen ≡ on views kernel.now role key.now) }
    ensures dated { IfOk result HasDatedMoments }
{
    kernel.is_run();
    kernel.is_formed();
    kernel.can_act();
    kernel.views(alloc, role, key)
}

/// The next moment at which the role, which sees this, may come to have something to do without seeing anything new.
pub(crate) fn next_due(kernel: &Kernel, role: Role, seen: &Shared<Views>) -> Option<i64>
    requires { HasDatedMoments seen.now }
    ensures { IsFirstAfter (on moment kernel.now) (IsDueMoment role seen.now) result }
{
    due_after(kernel.moment(), role, seen)
}

/// Makes room for the key, and for its next due moment, if there is one. No row changes.
pub(crate) fn room_at(
    queues: &mut Queues,
    role: Role,
    key: &Key,
    next: Option<i64>,
) -> Result<(), AllocError>
    ensures made { OnOk result (has_room (queue_in queues.new role) key.now ≡ true) }
    ensures place { OnOk result (HasPlaceAt next key.now (queue_in queues.new role)) }
    ensures rows { (r : RoleValue) → (k : KeyValue) → row_at queues.new r k ≡ row_at queues.old r k }
    ensures fresh { fresh_count (queue_in queues.new role).rows ≡ fresh_count (queue_in queues.old role).rows }
{
    match next {
        Some(at) => queues.room_at(role, key, at),
        None => queues.room_to_find(role, key),
    }
}

/// Makes room for the next due moment of the key, which has a row, if there is one. No row changes.
pub(crate) fn place_at(
    queues: &mut Queues,
    role: Role,
    key: &Key,
    next: Option<i64>,
) -> Result<(), AllocError>
    requires { has_room (queue_in queues.old role) key.now ≡ true }
    ensures made { has_room (queue_in queues.new role) key.now ≡ true }
    ensures place { OnOk result (HasPlaceAt next key.now (queue_in queues.new role)) }
    ensures rows { (r : RoleValue) → (k : KeyValue) → row_at queues.new r k ≡ row_at queues.old r k }
    ensures fresh { fresh_count (queue_in queues.new role).rows ≡ fresh_count (queue_in queues.old role).rows }
{
    match next {
        Some(at) => queues.place_at(role, key, at),
        None => Ok(()),
    }
}

/// Begins a pass of the role on the key.
pub(crate) fn begin(
    alloc: Global,
    kernel: &mut Kernel,
    queues: &mut Queues,
    role: Role,
    key: Key,
) -> Result<Stepped, AllocError>
    requires { on IsFed kernel.old queues.old }
    ensures answer { IfOk result (λ r. on Answers kernel.old (moves.Begin role key) r) }
    ensures leaves { IfOk result (λ r. on Leaves kernel.old (moves.Begin role key) r kernel.new.history) }
    ensures scenario { kernel.new.scenario ≡ kernel.old.scenario }
    ensures run { on IsRun kernel.new }
    ensures err { OnErr result (kernel.new ≡ kernel.old) }
    ensures fed { on IsFed kernel.new queues.new }
{
    kernel.is_run();
    let seen = dated_views(alloc, kernel, role, &key)?;
    let next = next_due(kernel, role, &seen);
    let own = key.copy()?;
    room_at(queues, role, &own, next)?;
    let answer = kernel.step_begin(alloc, role, key)?;
    if !answer.is_done() {
        return Ok(answer);
    }
    queues.begun(role, &own, next);
    Ok(answer)
}

/// Begins a pass of the role on the key, of which all that the begin needs is known.
pub(crate) fn begin_due(
    kernel: &mut Kernel,
    queues: &mut Queues,
    role: Role,
    key: Key,
    seen: Shared<Views>,
) -> Result<Stepped, AllocError>
    requires fed { on IsFed kernel.old queues.old }
    requires running { on runs kernel.old role ≡ true }
    requires free { on IsWorking kernel.old role key → ⊥ }
    requires due { IsDue (on past kernel.old role key) seen (on moment kernel.old) (positions kernel.old.history role) }
    requires queued { on IsQueued kernel.old role key }
    requires sees { seen ≡ on views kernel.old role key }
    requires dated { HasDatedMoments seen }
    ensures answer { IfOk result (λ r. on AnswersBegin kernel.old role key r) }
    ensures leaves { IfOk result (λ r. on Leaves kernel.old (moves.Begin role key) r kernel.new.history) }
    ensures scenario { kernel.new.scenario ≡ kernel.old.scenario }
    ensures run { on IsRun kernel.new }
    ensures err { OnErr result (kernel.new ≡ kernel.old) }
    ensures fed { on IsFed kernel.new queues.new }
{
    kernel.is_run();
    let next = next_due(kernel, role, &seen);
    let own = key.copy()?;
    place_at(queues, role, &own, next)?;
    let answer = kernel.begin_due(role, key, seen)?;
    if !answer.is_done() {
        return Ok(answer);
    }
    queues.begun(role, &own, next);
    Ok(answer)
}

/// Begins a pass of the role on the key, whose next due moment is noted.
fn begin_noted(
    kernel: &mut Kernel,
    queues: &mut Queues,
    role: Role,
    key: Key,
    seen: Shared<Views>,
) -> Result<Stepped, AllocError>
    requires fed { on IsFed kernel.old queues.old }
    requires running { on runs kernel.old role ≡ true }
    requires free { is_free (row_at queues.old role key) ≡ true }
    requires nothing { (row_at queues.old role key).work ≡ found.Nothing }
    requires sees { seen ≡ on views kernel.old role key }
    ensures answer { IfOk result (λ r. on Answers kernel.old (moves.Begin role key) r) }
    ensures leaves { IfOk result (λ r. on Leaves kernel.old (moves.Begin role key) r kernel.new.history) }
    ensures scenario { kernel.new.scenario ≡ kernel.old.scenario }
    ensures run { on IsRun kernel.new }
    ensures err { OnErr result (kernel.new ≡ kernel.old) }
    ensures fed { on IsFed kernel.new queues.new }
{
    kernel.is_run();
    let own = key.copy()?;
    let answer = kernel.begin_due(role, key, seen)?;
    if !answer.is_done() {
        return Ok(answer);
    }
    queues.begun(role, &own, None);
    Ok(answer)
}

/// What the role sees of the key, on which a look found this, and what it does, where that is known: as the look left it, or
/// made again.
fn found_on(
    alloc: Global,
    kernel: &Kernel,
    role: Role,
    key: &Key,
    work: Found,
    opening: Option<Opening>,
) -> Result<(Shared<Views>, Option<Act>), AllocError>
    requires mine { IfSome opening (IsMine role key.now) }
    requires found { IfSome opening (on IsCurrent kernel.now) }
    requires idle { work ≡ found.Nothing → on IsIdle kernel.now role (on views kernel.now role key.now) }
    ensures sees { IfOk result (λ r. r.0 ≡ on views kernel.now role key.now) }
    ensures dated { IfOk result (λ r. HasDatedMoments r.0) }
    ensures does { IfOk result (λ r. IfSome r.1 (on DoesOn kernel.now role key.now)) }
{
    kernel.is_run();
    kernel.is_formed();
    kernel.can_act();
    if let Some(opening) = opening {
        let (_role, _key, seen, does) = opening.into_parts();
        return Ok((seen, does));
    }
    let seen = dated_views(alloc, kernel, role, key)?;
    if work.may_work() {
        return Ok((seen, None));
    }
    Ok((seen, Some(Act::Nothing)))
}

/// Begins a pass of the role, which runs, on the key, of which a look found that one may begin.
fn begin_seen(
    kernel: &mut Kernel,
    queues: &mut Queues,
    role: Role,
    key: Key,
    work: Found,
    seen: Shared<Views>,
) -> Result<Stepped, AllocError>
    requires fed { on IsFed kernel.old queues.old }
    requires running { on runs kernel.old role ≡ true }
    requires free { is_free (row_at queues.old role key) ≡ true }
    requires looked { is_unknown work ≡ false }
    requires work { work ≡ (row_at queues.old role key).work }
    requires sees { seen ≡ on views kernel.old role key }
    requires dated { HasDatedMoments seen }
    ensures answer { IfOk result (λ r. on Answers kernel.old (moves.Begin role key) r) }
    ensures leaves { IfOk result (λ r. on Leaves kernel.old (moves.Begin role key) r kernel.new.history) }
    ensures scenario { kernel.new.scenario ≡ kernel.old.scenario }
    ensures run { on IsRun kernel.new }
    ensures err { OnErr result (kernel.new ≡ kernel.old) }
    ensures fed { on IsFed kernel.new queues.new }
{
    kernel.is_run();
    if !work.may_work() {
        return begin_noted(kernel, queues, role, key, seen);
    }
    begin_due(kernel, queues, role, key, seen)
}

/// Begins a pass of the role, which runs, on the key, of which a look found that one may begin; what the pass does, where it
/// was begun and that is known.
fn begin_looked(
    alloc: Global,
    kernel: &mut Kernel,
    queues: &mut Queues,
    role: Role,
    key: Key,
    work: Found,
    opening: Option<Opening>,
) -> Result<(Stepped, Option<Act>), AllocError>
    requires fed { on IsFed kernel.old queues.old }
    requires running { on runs kernel.old role ≡ true }
    requires free { is_free (row_at queues.old role key) ≡ true }
    requires looked { is_unknown work ≡ false }
    requires work { work ≡ (row_at queues.old role key).work }
    requires mine { IfSome opening (IsMine role key) }
    requires found { IfSome opening (on IsCurrent kernel.old) }
    ensures answer { IfOk result (λ r. on Answers kernel.old (moves.Begin role key) r.0) }
    ensures leaves { IfOk result (λ r. on Leaves kernel.old (moves.Begin role key) r.0 kernel.new.history) }
    ensures scenario { kernel.new.scenario ≡ kernel.old.scenario }
    ensures run { on IsRun kernel.new }
    ensures err { OnErr result (kernel.new ≡ kernel.old) }
    ensures fed { on IsFed kernel.new queues.new }
    ensures does { IfOk result (λ r. IfSome r.1 (on IsFirstAct kernel.new (on begun_by kernel.new))) }
{
    kernel.is_run();
    let (seen, does) = found_on(alloc, kernel, role, &key, work, opening)?;
    match begin_seen(kernel, queues, role, key, work, seen) {
        Ok(answer) => {
            let does = only_if(answer.is_done(), does);
            Ok((answer, does))
        }
        Err(lack) => {
            let_go(does);
            Err(lack)
        }
    }
}

/// Begins a pass of the role on the key; what the pass does, where it was begun and that is known. Where
/// the key's row says that one may begin, the world is not asked for that, and the pass begins as the look found it, if that
/// was kept.
pub(crate) fn begin_kept(
    alloc: Global,
    kernel: &mut Kernel,
    queues: &mut Queues,
    role: Role,
    key: Key,
    opening: Option<Opening>,
) -> Result<(Stepped, Option<Act>), AllocError>
    requires fed { on IsFed kernel.old queues.old }
    requires mine { IfSome opening (IsMine role key) }
    requires found { IfSome opening (on IsCurrent kernel.old) }
    ensures answer { IfOk result (λ r. on Answers kernel.old (moves.Begin role key) r.0) }
    ensures leaves { IfOk result (λ r. on Leaves kernel.old (moves.Begin role key) r.0 kernel.new.history) }
    ensures scenario { kernel.new.scenario ≡ kernel.old.scenario }
    ensures run { on IsRun kernel.new }
    ensures err { OnErr result (kernel.new ≡ kernel.old) }
    ensures fed { on IsFed kernel.new queues.new }
    ensures does { IfOk result (λ r. IfSome r.1 (on IsFirstAct kernel.new (on begun_by kernel.new))) }
{
    let row = queues.queue(role).row(&key);
    if row.is_free() && !row.work.is_unknown() && kernel.runs(role) {
        return begin_looked(alloc, kernel, queues, role, key, row.work, opening);
    }
    let_go(opening);
    let answer = begin(alloc, kernel, queues, role, key)?;
    Ok((answer, None))
}
