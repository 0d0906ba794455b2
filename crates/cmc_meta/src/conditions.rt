ghost use Rattle.std.specs.Option.{option_copied};
ghost use Rattle.std.specs.Ordering.{nat_cmp};
ghost use Rattle.std.specs.Prelude.{◌≡◌, ◌↔◌, ◌==◌, [], IsTrue, IfOk, OnOk, OnErr};
ghost use Rattle.cmc_meta.specs.ConditionLists.{condition_rank, condition_at, kept_since, place_in, renewed, tri_eq};

use crate::items::{Item, copy_items, same_items};
use crate::text::Text;
use std::alloc::{AllocError, Global};
use std::cmp::Ordering;
use std::marker::Model;

/// The kinds of conditions, in the order that a list of conditions has.
#[derive(Clone, Copy)]
pub enum ConditionKind {
    Ready,
    Issuing,
    Approved,
    Denied,
    InvalidRequest,
}

impl ConditionKind {
    fn rank(self) -> u8
        ensures { result ≡ condition_rank self }
    {
        match self {
            ConditionKind::Ready => 0,
            ConditionKind::Issuing => 1,
            ConditionKind::Approved => 2,
            ConditionKind::Denied => 3,
            ConditionKind::InvalidRequest => 4,
        }
    }

    /// Whether both kinds are one.
    pub fn same(self, other: ConditionKind) -> bool
        ensures { IsTrue result ↔ (self ≡ other) }
    {
        match (self, other) {
            (ConditionKind::Ready, ConditionKind::Ready) => true,
            (ConditionKind::Issuing, ConditionKind::Issuing) => true,
            (ConditionKind::Approved, ConditionKind::Approved) => true,
            (ConditionKind::Denied, ConditionKind::Denied) => true,
            (ConditionKind::InvalidRequest, ConditionKind::InvalidRequest) => true,
            _ => false,
        }
    }
}

/// The status of a condition (Kubernetes API conventions).
#[derive(Clone, Copy)]
pub enum Tri {
    True,
    False,
    Unknown,
}

impl Tri {
    /// Whether both are one.
    pub fn same(self, other: Tri) -> bool
        ensures decides { IsTrue result ↔ (self ≡ other) }
        ensures value { result ≡ tri_eq self other }
    {
        match (self, other) {
            (Tri::True, Tri::True) => true,
            (Tri::False, Tri::False) => true,
            (Tri::Unknown, Tri::Unknown) => true,
            _ => false,
        }
    }
}

/// One condition of a status.
pub struct Condition {
    pub kind: ConditionKind,
    pub status: Tri,
    pub reason: Text,
    pub message: Text,
    /// The last moment at which the status changed (`lastTransitionTime`), in seconds since
    /// 1970-01-01T00:00:00Z.
    pub since: i64,
}

impl Drop for Condition {
    fn drop(self) {
        let Condition {
            kind: _kind,
            status: _status,
            reason: _reason,
            message: _message,
            since: _since,
        } = self;
    }
}

impl Condition {
    /// An equal condition.
    pub fn copy(&self) -> Result<Condition, AllocError>
        ensures { IfOk result (λ c. c ≡ self.now) }
    {
        Ok(Condition {
            kind: self.kind,
            status: self.status,
            reason: self.reason.copy()?,
            message: self.message.copy()?,
            since: self.since,
        })
    }

    /// Whether both are equal in each field.
    pub fn same(&self, other: &Condition) -> bool
        ensures { IsTrue result ↔ (self.now ≡ other.now) }
    {
        self.kind.same(other.kind)
            && self.status.same(other.status)
            && self.reason.same(&other.reason)
            && self.message.same(&other.message)
            && self.since == other.since
    }
}

impl Item for Condition {
    fn copy(&self) -> Result<Condition, AllocError> {
        Condition::copy(self)
    }

    fn same(&self, other: &Condition) -> bool {
        Condition::same(self, other)
    }
}

/// The conditions of a status, in order of kind, each kind at most once.
pub struct Conditions {
    items: Vec<Condition>,
}

impl Drop for Conditions {
    fn drop(self) {
        let Conditions { items: _items } = self;
    }
}

impl Model for Conditions {
    ghost use Rattle.std.specs.Prelude.{List};
    ghost use Rattle.cmc_meta.specs.declared.conditions.Condition.{Condition};
    ghost use Rattle.cmc_meta.specs.ConditionLists.{IsInOrder};

    ghost Value = { List Condition };

    ghost view = { λ t. t.items.items };

    ghost invariant = { λ t. IsInOrder t.items.items };
}

impl Conditions {
    ghost use Rattle.cmc_meta.specs.ConditionLists.{IsInOrder, transitioned};

    /// No conditions. It takes no memory.
    pub fn new(alloc: Global) -> Conditions
        ensures { result ≡ [] }
    {
        Conditions {
            items: Vec::new(alloc),
        }
    }

    /// The conditions, as a slice.
    pub fn as_slice(&self) -> &[Condition]
        ensures list { result.now ≡ self.now }
        ensures order { IsInOrder self.now }
    {
        self.items.as_slice()
    }

    /// The condition of that kind; `None` exactly where no condition has it.
    pub fn get(&self, kind: ConditionKind) -> Option<&Condition>
        ensures { option_copied result ≡ condition_at self.now kind }
    {
        find_kind(self.items.as_slice(), kind)
    }

    /// Puts the condition in its place, where an older one of its kind goes. Where the status stays,
    /// the old moment of the last transition stays with it (Kubernetes API conventions).
    #[tactic(auto, unfolding(crate::specs::ConditionLists::transitioned))]
    pub fn set(&mut self, new: Condition) -> Result<(), AllocError>
        ensures ok { OnOk result (self.new ≡ transitioned self.old new) }
        ensures err { OnErr result (self.new ≡ self.old) }
    {
        let new = keep_since(self.get(new.kind), new);
        self.renew(new)
    }

    /// Puts the condition in its place, where an older one of its kind goes. Its own moment of the
    /// last transition stands, also where the status stays.
    #[tactic(auto, using(crate::proofs::Orders::renewed_in_order))]
    pub fn renew(&mut self, new: Condition) -> Result<(), AllocError>
        ensures ok { OnOk result (self.new ≡ renewed self.old new) }
        ensures err { OnErr result (self.new ≡ self.old) }
    {
        put_condition(&mut self.items, new)
    }

    /// An equal list.
    pub fn copy(&self) -> Result<Conditions, AllocError>
        ensures { IfOk result (λ c. c ≡ self.now) }
    {
        Ok(Conditions {
            items: copy_items(*self.items.allocator(), self.items.as_slice())?,
        })
    }

    /// Whether both have the same conditions.
    pub fn same(&self, other: &Conditions) -> bool
        ensures { IsTrue result ↔ (self.now ≡ other.now) }
    {
        same_items(self.items.as_slice(), other.items.as_slice())
    }
}

fn find_kind(conditions: &[Condition], kind: ConditionKind) -> Option<&Condition>
    ensures { option_copied result ≡ condition_at conditions.now kind }
{
    conditions
        .iter()
        .find(|condition| condition.kind.rank() == kind.rank())
}

fn keep_since(old: Option<&Condition>, new: Condition) -> Condition
    ensures { result ≡ kept_since (option_copied old.entry) new }
{
    let mut kept = new;
    match old {
        Some(old) if old.status.same(kept.status) => kept.since = old.since,
        _ => {}
    }
    kept
}

/// Where the kind stands or would stand, and whether it is there.
fn place_of(conditions: &[Condition], kind: ConditionKind) -> (usize, bool)
    ensures { result ≡ place_in conditions.now kind }
{
    for (i, condition) in conditions.iter().enumerate() {
        match kind.rank().cmp(&condition.kind.rank()) {
            Ordering::Less => return (i, false),
            Ordering::Equal => return (i, true),
            Ordering::Greater => {}
        }
    }
    (conditions.len(), false)
}

fn put_condition(items: &mut Vec<Condition>, new: Condition) -> Result<(), AllocError>
    ensures ok { OnOk result (items.new.items ≡ renewed items.old.items new) }
    ensures err { OnErr result (items.new.items ≡ items.old.items) }
{
    let (place, taken) = place_of(items.as_slice(), new.kind);
    if taken {
        items[place] = new;
        return Ok(());
    }
    items.insert(place, new)?;
    Ok(())
}
