ghost use Rattle.std.specs.Prelude.{◌≡◌, [], ◌∷◌};
ghost use Rattle.cmc_policies.specs.Reasons.{first_of as first_reason, known};

use crate::checks::passes;
use cmc_policies::*;

// As a controller builds its chain: each closure captures the frame alone.
fn first_of(frame: Frame, facts: &Facts) -> Option<Reason>
    ensures { result ≡ first_reason
        (Reason.DoesNotExist ∷ Reason.MissingData ∷ Reason.Renewing ∷ []) frame (known facts.now) }
{
    let renewing = Check::new(Reason::Renewing, frame, move |facts: &Facts| {
        facts.is_due(frame)
    });
    let missing = Check::new(Reason::MissingData, frame, |facts: &Facts| !facts.filled);
    let absent = Check::new(Reason::DoesNotExist, frame, |facts: &Facts| !facts.secret);
    Link::new(absent, Link::new(missing, Link::new(renewing, Empty))).first(facts)
}

fn facts(secret: bool, filled: bool) -> Facts {
    Facts {
        secret,
        filled,
        pair: filled,
        issuer: true,
        owner: true,
        kind: true,
        request: true,
        not_before: 0,
        not_after: 7_776_000,
    }
}

#[test]
fn first_reason(rt: HostRuntime) {
    let early = Frame {
        now: 5_183_999,
        renew: Renew::Default,
    };
    let due = Frame {
        now: 5_184_000,
        renew: Renew::Default,
    };
    let reason = first_of(due, &facts(false, false));
    passes(&rt, "no Secret", reason == Some(Reason::DoesNotExist));
    let reason = first_of(due, &facts(true, false));
    passes(&rt, "not filled", reason == Some(Reason::MissingData));
    let reason = first_of(due, &facts(true, true));
    passes(&rt, "due", reason == Some(Reason::Renewing));
    let reason = first_of(early, &facts(true, true));
    passes(&rt, "early", reason.is_none());
    passes(&rt, "expired", !facts(true, true).is_expired(due));
}

static ATTEMPTS: [(&str, Option<u32>, i64); 5] = [
    ("never", None, 3600),
    ("none", Some(0), 3600),
    ("one", Some(1), 3600),
    ("six", Some(6), 115_200),
    ("seven", Some(7), 115_200),
];

#[test]
fn times(rt: HostRuntime) {
    let whole = renewal_time(0, 7_776_000, Renew::Before(7_776_000));
    passes(&rt, "as long before", whole == 5_184_000);
    let less = renewal_time(0, 7_776_000, Renew::Before(7_775_999));
    passes(&rt, "a second less", less == 1);
    let third = renewal_time(0, 10, Renew::Default);
    passes(&rt, "two thirds", third == 6);
    let quarter = renewal_time(0, 3600, Renew::Percent(25));
    passes(&rt, "a quarter", quarter == 2700);
    let least = renewal_time(0, 50, Renew::Percent(1));
    passes(&rt, "one percent", least == 49);
    let most = renewal_time(0, 3600, Renew::Percent(99));
    passes(&rt, "99 percent", most == 36);
    for (row, attempts, until) in &ATTEMPTS {
        passes(&rt, row, backoff_until(0, *attempts) == *until);
    }
}
