//! What no clause says: that a set or renewed condition stands, with ample memory, and what texts write numbers.
use crate::checks::passes;
use crate::values::text;
use crate::whole::conditions;
use cmc_meta::{Condition, ConditionKind, Conditions, Text, Tri, number_in};
use std::alloc::Global;
use std::test::Fail;

fn again(alloc: Global) -> Result<Condition, Fail> {
    Ok(Condition {
        kind: ConditionKind::Approved,
        status: Tri::True,
        reason: text(alloc, "again")?,
        message: Text::new(alloc),
        since: 5,
    })
}

fn is_since(conditions: &Conditions, since: i64) -> bool {
    match conditions.get(ConditionKind::Approved) {
        Some(condition) => condition.since == since,
        None => false,
    }
}

#[test]
fn keeps_the_moment_of_a_transition(rt: HostRuntime) -> Result<(), Fail> {
    let alloc = rt.alloc();
    let mut conditions = conditions(alloc)?;
    conditions.set(again(alloc)?)?;
    passes(&rt, "set", is_since(&conditions, 1_893_456_000));
    conditions.renew(again(alloc)?)?;
    passes(&rt, "renewed", is_since(&conditions, 5));
    passes(
        &rt,
        "denied",
        conditions.get(ConditionKind::Denied).is_none(),
    );
    Ok(())
}

/// Texts, and the numbers that they write.
static NUMBERS: [(&str, Option<u64>); 13] = [
    ("0", Some(0)),
    ("7", Some(7)),
    ("10", Some(10)),
    ("18446744073709551615", Some(18_446_744_073_709_551_615)),
    ("18446744073709551616", None),
    ("99999999999999999999999", None),
    ("", None),
    ("00", None),
    ("07", None),
    ("+7", None),
    ("-7", None),
    ("7 ", None),
    ("0x7", None),
];

#[test]
fn reads_numbers(rt: HostRuntime) {
    for (word, number) in NUMBERS {
        passes(&rt, word, number_in(word) == number);
    }
}
