//! Moves, and what a step answers.
ghost use Rattle.std.specs.Prelude.{◌≡◌, IfOk};
ghost use Rattle.cmc_pass.specs.GivenValues.{order_of};
ghost use Rattle.cmc_moves.specs.Tables.{delivery_answer, begin_answer, script_answer, IsValueAnswer};
ghost use Rattle.cmc_moves.specs.Answers as answers;

use crate::decision::Decided;
use cmc_meta::{Key, Kind};
use cmc_objects::{Order, Role};
use cmc_pass::Given;
use std::alloc::AllocError;

/// What may happen next.
#[derive(Drop)]
pub enum Move {
    /// The next step of the script is made, with what it brings about.
    Script,
    /// A role is told of the accepted writes of a kind up to this version.
    Deliver {
        role: Role,
        kind: Kind,
        to: u64,
    },
    /// A role begins a pass on a key.
    Begin {
        role: Role,
        key: Key,
    },
    /// The pass of this number, begun while its role had this incarnation, goes on: it asks its question,
    /// makes its call or ends.
    Next {
        pass: u64,
        incarnation: u64,
    },
    /// The pass of this number, begun while its role had this incarnation, is given the value of its question.
    Give {
        pass: u64,
        incarnation: u64,
        given: Given,
    },
    /// The pass of this number, begun while its role had this incarnation, goes on by a decision that was made on what it
    /// saw: its role need not decide once more.
    Decide {
        pass: u64,
        incarnation: u64,
        decided: Decided,
    },
}

/// Why a move is not possible now.
#[derive(Clone, Copy)]
pub enum Lack {
    /// No step of the script is left.
    ScriptOver,
    /// The next step waits until all is at rest, or until its count is reached.
    ScriptWaits,
    /// The role does not run.
    Stopped,
    /// The role is not told of objects of this kind.
    NoInformer,
    /// The script keeps the role from being told of this kind.
    Held,
    /// The role has been told of all accepted writes of the kind: its position is this one.
    Current { position: u64 },
    /// No accepted write of the kind above the role's position has this version.
    NotAWrite { to: u64 },
    /// The key is not in the role's work queue: the role works on keys of another kind, or no accepted write named the
    /// key, or the role has nothing to do on it and sees what it saw as it last began a pass there.
    NotQueued,
    /// The role has an open pass on the key.
    InProcess,
    /// The pass would do what the last one of the role on the key did.
    SameViews,
    /// The role has not been told of its own write of this version.
    OwnWrite { version: u64 },
    /// No pass of this number is open.
    NoPass { pass: u64 },
    /// The pass waits for no value: it has not asked, or was given one.
    NotAsked,
    /// The pass takes no decision: its role is one that decides by more than what it sees, or the pass has asked or
    /// called already.
    Settled,
}

/// What a step answers.
pub enum Stepped {
    /// The move was made: the history has its one or two entries more.
    Done,
    /// The pass asks this question, and waits for its value. The history has the question once: the first such
    /// answer of a pass adds its entry.
    Order { pass: u64, order: Order },
    /// The move is not possible now; all is as it was.
    NotNow(Lack),
    /// The pass has this number, and it or the move is not of the role's present incarnation, which is
    /// this one; all is as it was.
    Ended { incarnation: u64 },
    /// The pass waits for the value of another question than the one that is answered; all is as it was.
    NotMine { kept: Order, given: Order },
    /// The decision is not on what this pass saw: the role, the views or the moment differ; all is as it was.
    OtherViews { pass: u64 },
    /// The entries of the move do not fit in the history, which has this many; all is as it was.
    Spent { entries: u64 },
}

impl Drop for Stepped {
    fn drop(self) {
        match self {
            Stepped::Done => {}
            Stepped::Order {
                pass: _pass,
                order: _order,
            } => {}
            Stepped::NotNow(_value) => {}
            Stepped::Ended {
                incarnation: _incarnation,
            } => {}
            Stepped::NotMine {
                kept: _kept,
                given: _given,
            } => {}
            Stepped::OtherViews { pass: _pass } => {}
            Stepped::Spent { entries: _entries } => {}
        }
    }
}

impl Stepped {
    /// Whether the move was made.
    pub fn is_done(&self) -> bool
        ensures { result ≡ answers.is_done self.now }
    {
        matches!(self, Stepped::Done)
    }

    /// The question that the pass of this number asks; `None` where the move was answered otherwise.
    pub fn into_order(self) -> Option<(u64, Order)>
        ensures { result ≡ answers.told_order self }
    {
        match self {
            Stepped::Order { pass, order } => Some((pass, order)),
            _other => None,
        }
    }
}

/// What a delivery is answered, of what was found: whether the role runs, has the informer, and is held from the kind; how far it was
/// told, the newest accepted write of the kind, and whether `to` is one above its position; how many entries there are, and
/// whether one more fits.
pub fn answer_delivery(
    running: bool,
    informed: bool,
    held: bool,
    position: u64,
    newest: u64,
    to: u64,
    is_write: bool,
    entries: u64,
    room: bool,
) -> Stepped
    ensures { result ≡ delivery_answer running informed held position newest to is_write entries room }
{
    if !running {
        return Stepped::NotNow(Lack::Stopped);
    }
    if !informed {
        return Stepped::NotNow(Lack::NoInformer);
    }
    if held {
        return Stepped::NotNow(Lack::Held);
    }
    if newest <= position {
        return Stepped::NotNow(Lack::Current { position });
    }
    if !is_write {
        return Stepped::NotNow(Lack::NotAWrite { to });
    }
    if !room {
        return Stepped::Spent { entries };
    }
    Stepped::Done
}

/// What a begin is answered, of what was found: whether the role runs, and works on the key; the write of its own of which it was
/// not told; whether it would do the same again, and whether the key is in its queue; how many entries there are, and whether
/// one more fits.
pub fn answer_begin(
    running: bool,
    working: bool,
    own: Option<u64>,
    same: bool,
    queued: bool,
    entries: u64,
    room: bool,
) -> Stepped
    ensures { result ≡ begin_answer running working own same queued entries room }
{
    if !running {
        return Stepped::NotNow(Lack::Stopped);
    }
    if working {
        return Stepped::NotNow(Lack::InProcess);
    }
    if let Some(version) = own {
        return Stepped::NotNow(Lack::OwnWrite { version });
    }
    if same {
        return Stepped::NotNow(Lack::SameViews);
    }
    if !queued {
        return Stepped::NotNow(Lack::NotQueued);
    }
    if !room {
        return Stepped::Spent { entries };
    }
    Stepped::Done
}

/// What the next step is answered: whether one is left, and does not wait; how many entries there are, and whether what it adds
/// fits.
pub fn answer_script(left: bool, ready: bool, entries: u64, room: bool) -> Stepped
    ensures { result ≡ script_answer left ready entries room }
{
    if !left {
        return Stepped::NotNow(Lack::ScriptOver);
    }
    if !ready {
        return Stepped::NotNow(Lack::ScriptWaits);
    }
    if !room {
        return Stepped::Spent { entries };
    }
    Stepped::Done
}

/// What is answered where a pass that waits for the value of this question is given this: how many entries there are, and
/// whether one more fits.
pub fn answer_value(
    order: &Order,
    given: &Given,
    entries: u64,
    room: bool,
) -> Result<Stepped, AllocError>
    ensures { IfOk result (λ a. IsValueAnswer order.now (order_of given.now) entries room a) }
{
    if !given.is_for(order) {
        return Ok(Stepped::NotMine {
            kept: order.copy()?,
            given: given.order()?,
        });
    }
    if !room {
        return Ok(Stepped::Spent { entries });
    }
    Ok(Stepped::Done)
}
