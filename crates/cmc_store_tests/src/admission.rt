//! The admission rules at their bounds, and the store's refusals by them.
use crate::checks::{counts, passes};
use crate::store::{Replied, delete, replies};
use cmc_admit::{Invalid, admit, is_spec_kept};
use cmc_meta::{
    Bytes, Condition, ConditionKind, Conditions, Numbers, ObjectMeta, Text, Texts, Tri,
};
use cmc_objects::{
    Algorithm, Call, CertSpec, CertStatus, Certificate, CertificateRequest, Object, Parts,
    RequestSpec, RequestStatus, Secret, Shared,
};
use cmc_store::Store;
use cmc_tests::values::{least_spec, name, new_meta, text, texts};
use cmc_tests::whole::{request, secret};
use std::alloc::{AllocError, Global};
use std::process::Abort;
use std::test::Fail;

/// What is changed of a Certificate that each rule admits.
#[derive(Clone, Copy)]
enum Change {
    /// No name at all.
    NoName,
    /// A common name of so many bytes.
    CommonName,
    /// A duration of so many seconds.
    Duration,
    /// Renewal so many seconds before the end.
    RenewBefore,
    /// The same, of a certificate for one hour.
    RenewBeforeOfHour,
    /// An RSA key of so many bits.
    RsaSize,
    /// An ECDSA key of so many bits.
    EcdsaSize,
    /// So many requests are kept.
    HistoryLimit,
    /// A name of so many bytes.
    Name,
    /// So many DNS names of one byte.
    DnsNames,
    /// The same of URIs.
    Uris,
    /// One email address of so many bytes, and a common name of one.
    Bytes,
    /// So many usages.
    Usages,
    /// A usage of so many bytes.
    Usage,
    /// Renewal before the end and by this percentage.
    Both,
    /// Renewal by percentage.
    Percent,
    /// The same, of a certificate for one hour.
    PercentOfHour,
}

/// The change, its number, and the rule that refuses, 0 where none does.
static ROWS: [(Change, u32, u32); 51] = [
    (Change::NoName, 0, 1),
    (Change::CommonName, 1, 0),
    (Change::CommonName, 64, 0),
    (Change::CommonName, 65, 2),
    (Change::Duration, 3_540, 3),
    (Change::Duration, 3_599, 3),
    (Change::Duration, 3_600, 0),
    (Change::Duration, 3_153_600_000, 0),
    (Change::Duration, 3_153_600_001, 3),
    (Change::RenewBefore, 240, 4),
    (Change::RenewBefore, 299, 4),
    (Change::RenewBefore, 300, 0),
    (Change::RenewBefore, 7_775_999, 0),
    (Change::RenewBefore, 7_776_000, 5),
    (Change::RenewBeforeOfHour, 3_599, 0),
    (Change::RenewBeforeOfHour, 3_600, 5),
    (Change::RsaSize, 2_048, 0),
    (Change::RsaSize, 3_072, 0),
    (Change::RsaSize, 4_096, 0),
    (Change::RsaSize, 8_192, 0),
    (Change::RsaSize, 0, 6),
    (Change::RsaSize, 1_024, 6),
    (Change::RsaSize, 256, 6),
    (Change::EcdsaSize, 256, 0),
    (Change::EcdsaSize, 384, 0),
    (Change::EcdsaSize, 521, 0),
    (Change::EcdsaSize, 512, 6),
    (Change::EcdsaSize, 2_048, 6),
    (Change::HistoryLimit, 0, 12),
    (Change::HistoryLimit, 1, 0),
    (Change::Name, 240, 0),
    (Change::Name, 241, 13),
    (Change::DnsNames, 100, 0),
    (Change::DnsNames, 101, 13),
    (Change::Uris, 100, 0),
    (Change::Uris, 101, 13),
    (Change::Bytes, 16_372, 0),
    (Change::Bytes, 16_373, 13),
    (Change::Usages, 40, 0),
    (Change::Usages, 41, 13),
    (Change::Usage, 0, 13),
    (Change::Usage, 1, 0),
    (Change::Usage, 64, 0),
    (Change::Usage, 65, 13),
    (Change::Both, 25, 15),
    (Change::Percent, 0, 16),
    (Change::Percent, 1, 0),
    (Change::Percent, 99, 0),
    (Change::Percent, 100, 16),
    (Change::PercentOfHour, 8, 16),
    (Change::PercentOfHour, 9, 0),
];

/// A text of so many bytes.
fn long(alloc: Global, length: u32) -> Result<Text, Fail> {
    let mut text = Text::new(alloc);
    for _ in 0..length {
        text.push('a')?;
    }
    Ok(text)
}

/// So many texts of one byte.
fn many(alloc: Global, count: u32) -> Result<Texts, Fail> {
    let mut texts = Texts::new(alloc);
    for _ in 0..count {
        texts.push(long(alloc, 1)?)?;
    }
    Ok(texts)
}

fn one(alloc: Global, length: u32) -> Result<Texts, Fail> {
    let mut texts = Texts::new(alloc);
    texts.push(long(alloc, length)?)?;
    Ok(texts)
}

/// A Certificate that each rule admits, with the DNS name `example.com`.
fn admitted(alloc: Global, word: &str, secret: &str) -> Result<Certificate, Fail> {
    Ok(Certificate {
        meta: new_meta(alloc, word)?,
        spec: Shared::new(alloc, least_spec(alloc, secret, "example.com")?)?,
        status: Shared::new(alloc, CertStatus::new(alloc))?,
    })
}

/// Changes the name.
fn change_name(
    alloc: Global,
    meta: &mut ObjectMeta,
    change: Change,
    number: u32,
) -> Result<(), Fail> {
    if let Change::Name = change {
        meta.name = name(alloc, long(alloc, number)?.as_str())?;
    }
    Ok(())
}

/// Changes the names that the certificate is for, all but email addresses.
fn change_names(
    alloc: Global,
    spec: &mut CertSpec,
    change: Change,
    number: u32,
) -> Result<(), Fail> {
    match change {
        Change::NoName => spec.dns_names = Texts::new(alloc),
        Change::CommonName => spec.common_name = long(alloc, number)?,
        Change::DnsNames => spec.dns_names = many(alloc, number)?,
        Change::Uris => spec.uris = many(alloc, number)?,
        _ => {}
    }
    Ok(())
}

/// Changes the other texts.
fn change_texts(
    alloc: Global,
    spec: &mut CertSpec,
    change: Change,
    number: u32,
) -> Result<(), Fail> {
    match change {
        Change::Bytes => {
            spec.common_name = long(alloc, 1)?;
            spec.emails = one(alloc, number)?;
        }
        Change::Usages => spec.usages = many(alloc, number)?,
        Change::Usage => spec.usages = one(alloc, number)?,
        _ => {}
    }
    Ok(())
}

/// Changes numbers.
fn change_numbers(spec: &mut CertSpec, change: Change, number: u32) {
    match change {
        Change::Duration => spec.duration = Some(u64::from(number)),
        Change::RenewBefore => spec.renew_before = Some(u64::from(number)),
        Change::RenewBeforeOfHour => {
            spec.duration = Some(3_600);
            spec.renew_before = Some(u64::from(number));
        }
        Change::RsaSize => spec.key.size = Some(number),
        Change::EcdsaSize => {
            spec.key.algorithm = Some(Algorithm::Ecdsa);
            spec.key.size = Some(number);
        }
        Change::HistoryLimit => spec.history_limit = Some(number),
        Change::Both => {
            spec.renew_before = Some(300);
            spec.renew_percent = Some(number);
        }
        Change::Percent => spec.renew_percent = Some(number),
        Change::PercentOfHour => {
            spec.duration = Some(3_600);
            spec.renew_percent = Some(number);
        }
        _ => {}
    }
}

fn rule_of(answer: Result<(), Invalid>) -> u32 {
    match answer {
        Ok(()) => 0,
        Err(invalid) => invalid.rule,
    }
}

/// The rule that refuses the object as a new one, 0 where none does.
fn rule_on(object: &Object) -> u32 {
    rule_of(admit(None, object, false, false))
}

/// The rule that refuses the object in the place of the old one, with its spec or with its status alone.
fn rule_after(old: &Object, object: &Object, is_status: bool) -> u32 {
    rule_of(admit(Some(old), object, is_status, false))
}

/// The same, where the name of its Secret is another Certificate's.
fn rule_where_taken(object: &Object, is_status: bool) -> u32 {
    rule_of(admit(Some(object), object, is_status, true))
}

fn is_rule(rt: &impl Abort, row: &str, rule: u32, want: u32) {
    counts(rt, row, u64::from(rule), u64::from(want));
}

// The Certificate comes by reference, so that no `?` lets it go.
fn change_all(alloc: Global, c: &mut Certificate, change: Change, number: u32) -> Result<(), Fail> {
    change_name(alloc, &mut c.meta, change, number)?;
    let mut spec = CertSpec::copy(&c.spec)?;
    change_names(alloc, &mut spec, change, number)?;
    change_texts(alloc, &mut spec, change, number)?;
    change_numbers(&mut spec, change, number);
    c.spec = Shared::new(alloc, spec)?;
    Ok(())
}

fn changed(alloc: Global, change: Change, number: u32) -> Result<Object, Fail> {
    let mut c = admitted(alloc, "web", "web-tls")?;
    change_all(alloc, &mut c, change, number)?;
    Ok(Object::of_certificate(alloc, c)?)
}

/// The rules that refuse the changed Certificate, as a new one and by its status.
fn changed_rules(alloc: Global, change: Change, number: u32) -> Result<(u32, u32), Fail> {
    let object = changed(alloc, change, number)?;
    Ok((rule_on(&object), rule_where_taken(&object, true)))
}

#[test]
fn each_rule_on_certificates_at_its_bound(rt: HostRuntime) -> Result<(), Fail> {
    for (change, number, rule) in &ROWS {
        let (as_new, as_status) = changed_rules(rt.alloc(), *change, *number)?;
        is_rule(&rt, "new", as_new, *rule);
        is_rule(&rt, "status", as_status, 0);
    }
    Ok(())
}

#[test]
fn the_rule_on_the_name_of_a_secret(rt: HostRuntime) -> Result<(), Fail> {
    let alloc = rt.alloc();
    let web = named(alloc, "web", "web-tls")?;
    is_rule(&rt, "taken", rule_where_taken(&web, false), 7);
    passes(&rt, "kept", is_spec_kept(&web, &web));
    Ok(())
}

/// What stands of the conditions Approved and Denied.
#[derive(Clone, Copy)]
struct Verdicts {
    approved: Option<Tri>,
    denied: Option<Tri>,
    reason: &'static str,
}

const NONE: Verdicts = Verdicts {
    approved: None,
    denied: None,
    reason: "Script",
};

const APPROVED: Verdicts = Verdicts {
    approved: Some(Tri::True),
    ..NONE
};

const DENIED: Verdicts = Verdicts {
    denied: Some(Tri::True),
    ..NONE
};

static CHANGES: [(Verdicts, Verdicts, u32); 14] = [
    (NONE, NONE, 0),
    (NONE, APPROVED, 0),
    (NONE, DENIED, 0),
    (APPROVED, APPROVED, 0),
    (DENIED, DENIED, 0),
    (
        NONE,
        Verdicts {
            approved: Some(Tri::False),
            ..NONE
        },
        9,
    ),
    (
        NONE,
        Verdicts {
            denied: Some(Tri::Unknown),
            ..NONE
        },
        9,
    ),
    (
        NONE,
        Verdicts {
            denied: Some(Tri::True),
            ..APPROVED
        },
        10,
    ),
    (
        DENIED,
        Verdicts {
            denied: Some(Tri::True),
            ..APPROVED
        },
        10,
    ),
    (APPROVED, NONE, 11),
    (DENIED, NONE, 11),
    (DENIED, APPROVED, 11),
    (
        APPROVED,
        Verdicts {
            reason: "cert-manager.io",
            ..APPROVED
        },
        11,
    ),
    (
        DENIED,
        Verdicts {
            reason: "cert-manager.io",
            ..DENIED
        },
        11,
    ),
];

fn put(
    alloc: Global,
    conditions: &mut Conditions,
    kind: ConditionKind,
    status: Option<Tri>,
    reason: &str,
) -> Result<(), AllocError> {
    if let Some(status) = status {
        conditions.set(Condition {
            kind,
            status,
            reason: Text::from_str(alloc, reason)?,
            message: Text::new(alloc),
            since: 1_893_456_000,
        })?;
    }
    Ok(())
}

fn conditions(alloc: Global, verdicts: &Verdicts) -> Result<Conditions, AllocError> {
    let mut conditions = Conditions::new(alloc);
    let reason = verdicts.reason;
    put(
        alloc,
        &mut conditions,
        ConditionKind::Approved,
        verdicts.approved,
        reason,
    )?;
    put(
        alloc,
        &mut conditions,
        ConditionKind::Denied,
        verdicts.denied,
        reason,
    )?;
    Ok(conditions)
}

fn judged(alloc: Global, verdicts: &Verdicts) -> Result<CertificateRequest, Fail> {
    let mut request = request(alloc)?;
    let mut status = RequestStatus::copy(&request.status)?;
    status.conditions = conditions(alloc, verdicts)?;
    request.status = Shared::new(alloc, status)?;
    Ok(request)
}

fn judged_object(alloc: Global, verdicts: &Verdicts) -> Result<Object, Fail> {
    Ok(Object::of_request(alloc, judged(alloc, verdicts)?)?)
}

/// The rule that refuses the verdicts after what stood, as a status and else.
fn verdict_rules(alloc: Global, old: &Object, verdicts: &Verdicts) -> Result<(u32, u32), Fail> {
    let new = judged_object(alloc, verdicts)?;
    Ok((rule_after(old, &new, true), rule_after(old, &new, false)))
}

/// The same, where these verdicts stood.
fn rules_after(alloc: Global, old: &Verdicts, new: &Verdicts) -> Result<(u32, u32), Fail> {
    let old = judged_object(alloc, old)?;
    verdict_rules(alloc, &old, new)
}

#[test]
fn rules_on_verdicts(rt: HostRuntime) -> Result<(), Fail> {
    let alloc = rt.alloc();
    for (old, new, rule) in &CHANGES {
        let (as_status, else_rule) = rules_after(alloc, old, new)?;
        is_rule(&rt, "status", as_status, *rule);
        is_rule(&rt, "spec", else_rule, 0);
    }
    Ok(())
}

static OPEN: Verdicts = NONE;

/// A request for a certificate of a CA.
fn of_authority(alloc: Global) -> Result<Object, Fail> {
    let mut request = judged(alloc, &OPEN)?;
    let mut spec = RequestSpec::copy(&request.spec)?;
    spec.is_ca = true;
    request.spec = Shared::new(alloc, spec)?;
    Ok(Object::of_request(alloc, request)?)
}

// The objects come by reference, so that no assertion has one in hand.
fn keeps_spec(rt: &impl Abort, old: &Object, other: &Object) {
    is_rule(rt, "changed", rule_after(old, other, false), 8);
    is_rule(rt, "status", rule_after(old, other, true), 0);
    is_rule(rt, "new", rule_on(other), 0);
    passes(rt, "not kept", !is_spec_kept(old, other));
}

#[test]
fn the_rule_on_the_spec_of_requests(rt: HostRuntime) -> Result<(), Fail> {
    let alloc = rt.alloc();
    let old = judged_object(alloc, &OPEN)?;
    let other = of_authority(alloc)?;
    keeps_spec(&rt, &old, &other);
    Ok(())
}

fn put_part(alloc: Global, parts: &mut Parts, stands: bool, word: &str) -> Result<(), AllocError> {
    if stands {
        parts.set(Text::from_str(alloc, word)?, Bytes::new(alloc))?;
    }
    Ok(())
}

fn parts(alloc: Global, key: bool, certificate: bool) -> Result<Parts, AllocError> {
    let mut parts = Parts::new(alloc);
    put_part(alloc, &mut parts, key, "tls.key")?;
    put_part(alloc, &mut parts, certificate, "tls.crt")?;
    Ok(parts)
}

/// A Secret of the type, with those of the names that are given and no bytes under them.
fn typed(alloc: Global, kind: &str, key: bool, certificate: bool) -> Result<Object, Fail> {
    let mut secret = secret(alloc)?;
    secret.kind_text = text(alloc, kind)?;
    secret.parts = parts(alloc, key, certificate)?;
    Ok(Object::of_secret(alloc, secret)?)
}

fn keeps_type(rt: &impl Abort, opaque: &Object, tls: &Object) {
    is_rule(rt, "opaque", rule_on(opaque), 0);
    is_rule(rt, "tls", rule_on(tls), 0);
    is_rule(rt, "tls again", rule_after(tls, tls, false), 0);
    is_rule(rt, "now tls", rule_after(opaque, tls, false), 14);
    is_rule(rt, "now opaque", rule_after(tls, opaque, false), 14);
    is_rule(rt, "status", rule_after(opaque, opaque, true), 14);
}

#[test]
fn the_rule_on_the_type_of_secrets(rt: HostRuntime) -> Result<(), Fail> {
    let alloc = rt.alloc();
    let opaque = typed(alloc, "Opaque", false, false)?;
    let tls = typed(alloc, "kubernetes.io/tls", true, true)?;
    keeps_type(&rt, &opaque, &tls);
    Ok(())
}

/// Which of the key and the certificate stand, where not both do.
static LACKING: [(bool, bool); 3] = [(false, false), (true, false), (false, true)];

/// The rules that refuse a Secret with those of the parts, as a new one and in the place of a whole one.
fn part_rules(
    alloc: Global,
    whole: &Object,
    key: bool,
    certificate: bool,
) -> Result<(u32, u32), Fail> {
    let part = typed(alloc, "kubernetes.io/tls", key, certificate)?;
    Ok((rule_on(&part), rule_after(whole, &part, false)))
}

fn keeps_parts(rt: &impl Abort, alloc: Global, whole: &Object) -> Result<(), Fail> {
    for (key, certificate) in &LACKING {
        let (as_new, as_changed) = part_rules(alloc, whole, *key, *certificate)?;
        is_rule(rt, "new", as_new, 14);
        is_rule(rt, "changed", as_changed, 14);
    }
    Ok(())
}

#[test]
fn the_rule_on_the_parts_of_secrets(rt: HostRuntime) -> Result<(), Fail> {
    let alloc = rt.alloc();
    let whole = typed(alloc, "kubernetes.io/tls", true, true)?;
    keeps_parts(&rt, alloc, &whole)
}

/// A Certificate of this name is created with a Secret of that name, or updated at this version, or deleted.
#[derive(Clone, Copy)]
enum Asked {
    Create(&'static str, &'static str),
    Update(&'static str, u64),
    Delete(&'static str),
}

fn named(alloc: Global, word: &str, secret: &str) -> Result<Object, Fail> {
    Ok(Object::of_certificate(alloc, admitted(alloc, word, secret)?)?)
}

fn create(alloc: Global, word: &str, secret: &str) -> Result<Call, Fail> {
    Ok(Call::Create {
        object: named(alloc, word, secret)?,
        generate: false,
    })
}

fn update(alloc: Global, secret: &str, version: u64) -> Result<Call, Fail> {
    Ok(Call::Update {
        object: named(alloc, "web", secret)?,
        version,
    })
}

fn call_of(alloc: Global, asked: Asked) -> Result<Call, Fail> {
    match asked {
        Asked::Create(word, secret) => create(alloc, word, secret),
        Asked::Update(secret, version) => update(alloc, secret, version),
        Asked::Delete(word) => delete(alloc, word, None),
    }
}

/// A Secret has one Certificate.
static TAKEN: [(Asked, Replied); 2] = [
    (Asked::Create("web", "web-tls"), ("ok", 1)),
    (Asked::Create("api", "web-tls"), ("invalid", 7)),
];

/// That may name it again, or another; then it is free, and so it is where its Certificate is gone.
static FREED: [(Asked, Replied); 6] = [
    (Asked::Update("web-tls", 1), ("unchanged", 1)),
    (Asked::Update("other", 1), ("ok", 2)),
    (Asked::Create("api", "web-tls"), ("ok", 3)),
    (Asked::Update("web-tls", 2), ("invalid", 7)),
    (Asked::Delete("api"), ("ok", 4)),
    (Asked::Update("web-tls", 2), ("ok", 5)),
];

fn asks_all(
    rt: &impl Abort,
    alloc: Global,
    store: &mut Store,
    rows: &[(Asked, Replied)],
) -> Result<(), Fail> {
    for (asked, want) in rows {
        replies(rt, alloc, store, call_of(alloc, *asked), want)?;
    }
    Ok(())
}

// The store comes by reference, so that no `?` lets it go.
fn takes_and_frees(rt: &impl Abort, alloc: Global, store: &mut Store) -> Result<(), Fail> {
    asks_all(rt, alloc, store, &TAKEN)?;
    counts(rt, "accepted", store.accepted(), 1);
    counts(rt, "calls", store.calls(), 2);
    asks_all(rt, alloc, store, &FREED)?;
    counts(rt, "calls in the end", store.calls(), 8);
    Ok(())
}

#[test]
fn a_secret_has_one_certificate(rt: HostRuntime) -> Result<(), Fail> {
    let alloc = rt.alloc();
    let mut store = Store::new(alloc, Numbers::new(alloc));
    takes_and_frees(&rt, alloc, &mut store)
}

static STATUSES: [(Verdicts, u64, Replied); 2] = [
    (DENIED, 1, ("ok", 2)),
    (
        Verdicts {
            approved: Some(Tri::True),
            ..DENIED
        },
        2,
        ("invalid", 10),
    ),
];

fn new_request(alloc: Global) -> Result<Call, Fail> {
    Ok(Call::Create {
        object: judged_object(alloc, &OPEN)?,
        generate: false,
    })
}

fn status(alloc: Global, verdicts: &Verdicts, version: u64) -> Result<Call, Fail> {
    Ok(Call::UpdateStatus {
        object: judged_object(alloc, verdicts)?,
        version,
    })
}

/// A request with other usages.
fn other_usages(alloc: Global) -> Result<Object, Fail> {
    let mut request = judged(alloc, &OPEN)?;
    let mut spec = RequestSpec::copy(&request.spec)?;
    spec.usages = texts(alloc, "client auth")?;
    request.spec = Shared::new(alloc, spec)?;
    Ok(Object::of_request(alloc, request)?)
}

fn changed_request(alloc: Global) -> Result<Call, Fail> {
    Ok(Call::Update {
        object: other_usages(alloc)?,
        version: 2,
    })
}

fn new_secret(alloc: Global) -> Result<Call, Fail> {
    Ok(Call::Create {
        object: typed(alloc, "kubernetes.io/tls", true, false)?,
        generate: false,
    })
}

static ACCEPTED: Replied = ("ok", 1);

static CHANGED_SPEC: Replied = ("invalid", 8);

static LACKING_PART: Replied = ("invalid", 14);

fn judges(rt: &impl Abort, alloc: Global, store: &mut Store) -> Result<(), Fail> {
    for (verdicts, version, want) in &STATUSES {
        replies(rt, alloc, store, status(alloc, verdicts, *version), want)?;
    }
    Ok(())
}

fn refuses_by_each_kind(rt: &impl Abort, alloc: Global, store: &mut Store) -> Result<(), Fail> {
    replies(rt, alloc, store, new_request(alloc), &ACCEPTED)?;
    judges(rt, alloc, store)?;
    replies(rt, alloc, store, changed_request(alloc), &CHANGED_SPEC)?;
    replies(rt, alloc, store, new_secret(alloc), &LACKING_PART)?;
    counts(rt, "accepted", store.accepted(), 2);
    Ok(())
}

#[test]
fn the_store_refuses_by_each_kind(rt: HostRuntime) -> Result<(), Fail> {
    let alloc = rt.alloc();
    let mut store = Store::new(alloc, Numbers::new(alloc));
    refuses_by_each_kind(&rt, alloc, &mut store)
}
