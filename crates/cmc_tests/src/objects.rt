//! What no clause says: that copies are made where memory is ample, and are equal.
use crate::checks::{passes, tells};
use crate::values::{key, least_spec, text, texts};
use crate::whole::{bytes, certificate, request, secret};
use cmc_meta::{Key, Kind, Texts};
use cmc_objects::{
    Algorithm, Call, CertSpec, Certificate, CsrOrder, Encoding, JudgeOrder, KeyOrder, KeyRow,
    KeyRows, Material, Object, Order, Role, Rotation, Rows, Rules, Shared, SignRow, SignRows,
    Signing, Step,
};
use cmc_policy_rules::Policies;
use cmc_setup::Steps;
use std::alloc::{AllocError, Global};
use std::process::Abort;
use std::test::Fail;

fn signature(alloc: Global) -> Result<Order, Fail> {
    let key = bytes(alloc)?;
    let order = CsrOrder {
        key,
        body: bytes(alloc)?,
    };
    Ok(Order::Csr(Shared::new(alloc, order)?))
}

fn key_question(alloc: Global) -> Result<Order, Fail> {
    let order = KeyOrder {
        number: 1,
        certificate: key(alloc, Kind::Certificate, "web")?,
        algorithm: Algorithm::Rsa,
        size: 2048,
        encoding: Encoding::Pkcs1,
        row: KeyRow::Synthetic(5),
    };
    Ok(Order::Key(Shared::new(alloc, order)?))
}

fn rules(alloc: Global) -> Result<Rules, Fail> {
    Ok(Rules {
        issuers: texts(alloc, "*")?,
        refuse: Texts::new(alloc),
        policies: Policies::new(alloc),
    })
}

fn judgement(alloc: Global) -> Result<Order, Fail> {
    let request = Shared::new(alloc, request(alloc)?)?;
    let order = JudgeOrder {
        request,
        rules: rules(alloc)?,
    };
    Ok(Order::Judge(Shared::new(alloc, order)?))
}

/// The copy is the same question, and not the other one.
fn is_copied(order: &Order, other: &Order) -> Result<bool, AllocError> {
    let copy = order.copy()?;
    Ok(copy.same(order) && !copy.same(other))
}

#[test]
fn copies_questions(rt: HostRuntime) -> Result<(), Fail> {
    let alloc = rt.alloc();
    let csr = signature(alloc)?;
    passes(&rt, "key", is_copied(&key_question(alloc)?, &csr)?);
    passes(&rt, "judge", is_copied(&judgement(alloc)?, &csr)?);
    Ok(())
}

fn raw(alloc: Global) -> Result<SignRow, Fail> {
    Ok(SignRow::Raw { der: bytes(alloc)? })
}

fn is_row_copied(row: &SignRow) -> Result<bool, AllocError> {
    let copy = row.copy()?;
    Ok(copy.same(row))
}

#[test]
fn copies_rows(rt: HostRuntime) -> Result<(), Fail> {
    passes(&rt, "raw", is_row_copied(&raw(rt.alloc())?)?);
    Ok(())
}

/// Rows of every sort.
fn each_key(alloc: Global) -> Result<KeyRows, Fail> {
    let mut keys = KeyRows::new(alloc);
    keys.push(KeyRow::Default)?;
    keys.push(KeyRow::Synthetic(5))?;
    keys.push(KeyRow::Der(bytes(alloc)?))?;
    keys.push(KeyRow::Free)?;
    Ok(keys)
}

fn issue(alloc: Global) -> Result<SignRow, Fail> {
    Ok(SignRow::Issue {
        seconds: Some(3_600),
        before: 60,
        serial: Some(7),
        key: None,
        ca: bytes(alloc)?,
    })
}

fn fail(alloc: Global) -> Result<SignRow, Fail> {
    Ok(SignRow::Fail {
        message: text(alloc, "no")?,
    })
}

// A row of any shape goes by value into a function that holds nothing else.
fn push_reply(replies: &mut SignRows, row: Result<SignRow, Fail>) -> Result<(), Fail> {
    replies.push(row?)?;
    Ok(())
}

fn push_each(alloc: Global, replies: &mut SignRows) -> Result<(), Fail> {
    push_reply(replies, issue(alloc))?;
    replies.push(SignRow::Pending)?;
    push_reply(replies, fail(alloc))?;
    push_reply(replies, raw(alloc))?;
    replies.push(SignRow::Free)?;
    Ok(())
}

fn each_reply(alloc: Global) -> Result<SignRows, Fail> {
    let mut replies = SignRows::new(alloc);
    push_each(alloc, &mut replies)?;
    Ok(replies)
}

fn each_row(alloc: Global) -> Result<Rows, Fail> {
    let keys = each_key(alloc)?;
    Ok(Rows {
        keys,
        replies: each_reply(alloc)?,
    })
}

fn are_keys(keys: &[KeyRow]) -> bool {
    matches!(
        keys,
        [
            KeyRow::Default,
            KeyRow::Synthetic(5),
            KeyRow::Der(_),
            KeyRow::Free
        ]
    )
}

/// The row, in a word.
fn reply_word(row: &SignRow) -> &'static str {
    match row {
        SignRow::Issue {
            seconds: Some(3_600),
            before: 60,
            serial: Some(7),
            key: None,
            ..
        } => "issue",
        SignRow::Issue { .. } => "another issue",
        SignRow::Pending => "pending",
        SignRow::Fail { .. } => "fail",
        SignRow::Raw { .. } => "raw",
        SignRow::Free => "free",
    }
}

static REPLIES: [&str; 5] = ["issue", "pending", "fail", "raw", "free"];

// A pattern over five rows at once is a tree of all their shapes.
fn are_replies(rt: &impl Abort, replies: &[SignRow]) {
    passes(rt, "5 replies", replies.len() == 5);
    for (row, word) in replies.iter().zip(REPLIES.iter()) {
        tells(rt, word, reply_word(row), word);
    }
}

fn are_rows(rt: &impl Abort, rows: Option<&Rows>) {
    match rows {
        Some(rows) => {
            passes(rt, "keys", are_keys(rows.keys.as_slice()));
            are_replies(rt, rows.replies.as_slice());
        }
        None => passes(rt, "rows", false),
    }
}

fn copied_rows(alloc: Global) -> Result<Rows, Fail> {
    let rows = each_row(alloc)?;
    Ok(rows.copy()?)
}

fn material(alloc: Global) -> Result<Material, Fail> {
    let mut material = Material::new(alloc);
    let web = key(alloc, Kind::Certificate, "web")?;
    material.set(web, copied_rows(alloc)?)?;
    Ok(material)
}

/// The key has its rows, and has them in a copy, until they are removed.
fn is_kept(rt: &impl Abort, material: &mut Material, web: &Key) -> Result<(), AllocError> {
    are_rows(rt, material.get(web));
    are_rows(rt, material.copy()?.get(web));
    material.remove(web);
    passes(rt, "removed", material.get(web).is_none());
    Ok(())
}

fn keeps(rt: &impl Abort, alloc: Global, material: &mut Material) -> Result<(), Fail> {
    let web = key(alloc, Kind::Certificate, "web")?;
    is_kept(rt, material, &web)?;
    Ok(())
}

#[test]
fn keeps_material(rt: HostRuntime) -> Result<(), Fail> {
    let mut material = material(rt.alloc())?;
    keeps(&rt, rt.alloc(), &mut material)
}

fn issued(alloc: Global) -> Result<Signing, Fail> {
    let certificate = bytes(alloc)?;
    Ok(Signing::Issued {
        certificate,
        ca: bytes(alloc)?,
    })
}

fn failed(alloc: Global) -> Result<Signing, Fail> {
    Ok(Signing::Failed {
        message: text(alloc, "The issuer refused")?,
    })
}

fn is_answer_copied(answer: &Signing) -> Result<bool, AllocError> {
    let copy = answer.copy()?;
    Ok(copy.same(answer))
}

#[test]
fn copies_each_answer(rt: HostRuntime) -> Result<(), Fail> {
    let alloc = rt.alloc();
    let failed = failed(alloc)?;
    passes(&rt, "issued", is_answer_copied(&issued(alloc)?)?);
    passes(&rt, "pending", is_answer_copied(&Signing::Pending)?);
    passes(&rt, "failed", is_answer_copied(&failed)?);
    passes(&rt, "not pending", !failed.same(&Signing::Pending));
    Ok(())
}

/// What a step does, in a word.
fn called(step: &Step) -> &'static str {
    match step {
        Step::Apply { .. } => "apply",
        Step::Delete { .. } => "delete",
        Step::Approve { .. } => "approve",
        Step::Deny { .. } => "deny",
        Step::Answer { revision: 1, .. } => "answer",
        Step::Answer { .. } => "another answer",
        Step::Renew { .. } => "renew",
        Step::Tick { .. } => "tick",
        Step::Stop { .. } => "stop",
        Step::Start { .. } => "start",
        Step::Hold { .. } => "hold",
        Step::Release { .. } => "release",
        Step::Until { .. } => "until",
        Step::Settle => "settle",
    }
}

fn apply(alloc: Global) -> Result<Step, Fail> {
    Ok(Step::Apply {
        object: Object::of_certificate(alloc, certificate(alloc)?)?,
        version: Some(1),
    })
}

fn answer(alloc: Global) -> Result<Step, Fail> {
    Ok(Step::Answer {
        certificate: key(alloc, Kind::Certificate, "web")?,
        revision: 1,
        row: raw(alloc)?,
    })
}

/// The steps that name a key.
fn steps_on_keys(alloc: Global, steps: &mut Steps) -> Result<(), Fail> {
    steps.push(apply(alloc)?)?;
    steps.push(Step::Delete {
        key: key(alloc, Kind::Certificate, "web")?,
        version: None,
    })?;
    steps.push(Step::Approve {
        certificate: key(alloc, Kind::Certificate, "web")?,
        revision: 1,
    })?;
    steps.push(Step::Deny {
        certificate: key(alloc, Kind::Certificate, "web")?,
        revision: 1,
    })?;
    steps.push(answer(alloc)?)?;
    steps.push(Step::Renew {
        certificate: key(alloc, Kind::Certificate, "web")?,
    })?;
    Ok(())
}

/// The steps that name none.
fn other_steps(steps: &mut Steps) -> Result<(), AllocError> {
    let role = Role::Trigger;
    let kind = Kind::Secret;
    steps.push(Step::Tick { seconds: 1 })?;
    steps.push(Step::Stop { role })?;
    steps.push(Step::Start { role, behind: 1 })?;
    steps.push(Step::Hold { role, kind })?;
    steps.push(Step::Release { role, kind })?;
    steps.push(Step::Until {
        role,
        kind,
        writes: 1,
    })?;
    steps.push(Step::Settle)
}

static PLACES: [&str; 13] = [
    "apply", "delete", "approve", "deny", "answer", "renew", "tick", "stop", "start", "hold",
    "release", "until", "settle",
];

fn all_steps(alloc: Global) -> Result<Steps, Fail> {
    let mut steps = Steps::new(alloc);
    steps_on_keys(alloc, &mut steps)?;
    other_steps(&mut steps)?;
    Ok(steps)
}

/// The steps are called so, one after the other.
fn are_called(rt: &impl Abort, steps: &[Step]) {
    passes(rt, "13 steps", steps.len() == 13);
    for (step, word) in steps.iter().zip(PLACES.iter()) {
        tells(rt, word, called(step), word);
    }
}

#[test]
fn copies_each_step(rt: HostRuntime) -> Result<(), Fail> {
    let copied = all_steps(rt.alloc())?.copy()?;
    are_called(&rt, copied.as_slice());
    Ok(())
}

fn create(alloc: Global) -> Result<Call, Fail> {
    Ok(Call::Create {
        object: Object::of_request(alloc, request(alloc)?)?,
        generate: true,
    })
}

fn update(alloc: Global) -> Result<Call, Fail> {
    Ok(Call::Update {
        object: Object::of_secret(alloc, secret(alloc)?)?,
        version: 2,
    })
}

fn update_status(alloc: Global) -> Result<Call, Fail> {
    Ok(Call::UpdateStatus {
        object: Object::of_certificate(alloc, certificate(alloc)?)?,
        version: 2,
    })
}

fn delete(alloc: Global) -> Result<Call, Fail> {
    Ok(Call::Delete {
        key: key(alloc, Kind::Certificate, "web")?,
        version: Some(3),
    })
}

fn get(alloc: Global) -> Result<Call, Fail> {
    Ok(Call::Get {
        key: key(alloc, Kind::Certificate, "web")?,
    })
}

/// The call, in a word.
fn word_of(call: &Call) -> &'static str {
    match call {
        Call::Create {
            object: Object::Request(_),
            generate: true,
        } => "create",
        Call::Update { version: 2, .. } => "update",
        Call::UpdateStatus { version: 2, .. } => "update status",
        Call::Delete {
            version: Some(3),
            ..
        } => "delete",
        Call::Get { .. } => "get",
        _ => "another call",
    }
}

/// The copy of the call that was made, in a word.
fn copied(made: Result<Call, Fail>) -> Result<&'static str, Fail> {
    Ok(word_of(&made?.copy()?))
}

#[test]
fn copies_each_call(rt: HostRuntime) -> Result<(), Fail> {
    let alloc = rt.alloc();
    tells(&rt, "create", copied(create(alloc))?, "create");
    tells(&rt, "update", copied(update(alloc))?, "update");
    tells(
        &rt,
        "status",
        copied(update_status(alloc))?,
        "update status",
    );
    tells(&rt, "delete", copied(delete(alloc))?, "delete");
    tells(&rt, "get", copied(get(alloc))?, "get");
    Ok(())
}

fn is_numbered(object: &Object) -> bool {
    object.meta().version == 7 && object.meta().generation == 3
}

fn is_as_before(object: &Object, before: &Certificate) -> bool {
    match object {
        Object::Cert(certificate) => certificate.spec.same(&before.spec),
        _ => false,
    }
}

#[test]
fn numbers_objects(rt: HostRuntime) -> Result<(), Fail> {
    let alloc = rt.alloc();
    let before = certificate(alloc)?;
    let held = Object::of_certificate(alloc, before.copy()?)?;
    let numbered = held.copy()?.numbered(alloc, 7, 3)?;
    passes(&rt, "certificate", is_numbered(&numbered));
    passes(&rt, "its spec", is_as_before(&numbered, &before));
    passes(&rt, "another holder's", held.meta().same(&before.meta));
    let request = Object::of_request(alloc, request(alloc)?)?;
    passes(&rt, "request", is_numbered(&request.numbered(alloc, 7, 3)?));
    let secret = Object::of_secret(alloc, secret(alloc)?)?;
    passes(&rt, "Secret", is_numbered(&secret.numbered(alloc, 7, 3)?));
    Ok(())
}

fn are_issuer_defaults(spec: &CertSpec) -> bool {
    spec.issuer.kind_at_use() == "Issuer" && spec.issuer.group_at_use() == "cert-manager.io"
}

fn are_key_defaults(spec: &CertSpec) -> bool {
    spec.key.size_at_use() == 2048
        && matches!(spec.key.encoding_at_use(), Encoding::Pkcs1)
        && matches!(spec.key.rotation_at_use(), Rotation::Always)
}

#[test]
fn fills_in_defaults(rt: HostRuntime) -> Result<(), Fail> {
    let spec = least_spec(rt.alloc(), "web-tls", "example.com")?;
    passes(&rt, "duration", spec.duration_at_use() == 7_776_000);
    passes(&rt, "issuer", are_issuer_defaults(&spec));
    passes(&rt, "key", are_key_defaults(&spec));
    Ok(())
}
