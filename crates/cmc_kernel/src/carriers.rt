//! What a move of a pass carries to the changes that it makes.
ghost use Rattle.std.specs.Prelude.{◌≡◌, IfOk};
ghost use Rattle.cmc_pass.specs.GivenValues.{order_of, value_of};
ghost use Rattle.cmc_pass.specs.Values.{IsValue};
ghost use Rattle.cmc_moves.specs.Answers.{value_entry};

use cmc_meta::Key;
use cmc_moves::value_entry_of;
use cmc_objects::{Call, Entry, Order, Role};
use cmc_pass::{Given, Value};
use cmc_rules::Ending;
use std::alloc::AllocError;

/// A call of a pass, with what it needs to know of the pass, and the key that it names.
pub(crate) struct PendingCall {
    pub role: Role,
    pub key: Key,
    pub named: Key,
    pub stand_in: bool,
    pub call: Call,
}

impl Drop for PendingCall {
    fn drop(self) {
        let PendingCall {
            role: _role,
            key: _key,
            named: _named,
            stand_in: _stand_in,
            call: _call,
        } = self;
    }
}

impl PendingCall {
    pub(crate) fn into_call(self) -> Call
        ensures { result ≡ self.call }
    {
        let PendingCall {
            role: _role,
            key: _key,
            named: _named,
            stand_in: _stand_in,
            call,
        } = self;
        call
    }
}

/// What the end of a pass needs to know of it.
pub(crate) struct PassEnd {
    pub role: Role,
    pub key: Key,
    pub ending: Ending,
}

impl Drop for PassEnd {
    fn drop(self) {
        let PassEnd {
            role: _role,
            key: _key,
            ending: _ending,
        } = self;
    }
}

/// A value that a pass is given, with its question and its entry.
pub(crate) struct ReceivedValue {
    pub order: Order,
    pub value: Value,
    pub entry: Entry,
}

impl Drop for ReceivedValue {
    fn drop(self) {
        let ReceivedValue {
            order: _order,
            value: _value,
            entry: _entry,
        } = self;
    }
}

impl ReceivedValue {
    /// What the pass of this number is given. An error is one of memory.
    pub(crate) fn of(pass: u64, given: Given) -> Result<ReceivedValue, AllocError>
        ensures order { IfOk result (λ t. t.order ≡ order_of given) }
        ensures value { IfOk result (λ t. t.value ≡ value_of given) }
        ensures entry { IfOk result (λ t. t.entry ≡ value_entry pass (value_of given)) }
        ensures right { IfOk result (λ _. IsValue (order_of given) (value_of given)) }
    {
        let order = given.order()?;
        let value = given.into_value();
        let entry = value_entry_of(pass, &value)?;
        Ok(ReceivedValue {
            order,
            value,
            entry,
        })
    }

    pub(crate) fn into_parts(self) -> (Order, Value, Entry)
        ensures order { result.0 ≡ self.order }
        ensures value { result.1 ≡ self.value }
        ensures entry { result.2 ≡ self.entry }
    {
        let ReceivedValue {
            order,
            value,
            entry,
        } = self;
        (order, value, entry)
    }
}

/// A question, and the same once more for the pass that waits for its value.
pub(crate) struct PendingQuestion {
    pub order: Order,
    pub kept: Order,
}

impl Drop for PendingQuestion {
    fn drop(self) {
        let PendingQuestion {
            order: _order,
            kept: _kept,
        } = self;
    }
}

impl PendingQuestion {
    /// An error is one of memory.
    pub(crate) fn of(order: Order) -> Result<PendingQuestion, AllocError>
        ensures order { IfOk result (λ a. a.order ≡ order) }
        ensures kept { IfOk result (λ a. a.kept ≡ order) }
    {
        let kept = order.copy()?;
        Ok(PendingQuestion { order, kept })
    }

    pub(crate) fn into_parts(self) -> (Order, Order)
        ensures order { result.0 ≡ self.order }
        ensures kept { result.1 ≡ self.kept }
    {
        let PendingQuestion { order, kept } = self;
        (order, kept)
    }
}
