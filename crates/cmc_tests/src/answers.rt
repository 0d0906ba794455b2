//! What no clause says: that questions are answered where memory is ample, and that a certificate has the octets
//! that another writer of DER gave for the same fields; openssl reads them so.
ghost use Rattle.std.specs.Prelude.{◌≡◌, ◌≤◌, true};
ghost use Rattle.cmc_objects.specs.Requests.{is_lifetime, is_row_form};

use crate::checks::{passes, tells};
use crate::orders::question;
use crate::values::{made, octets, patterns, policy, text, texts};
use crate::whole::request;
use crate::{made_keys, made_requests};
use cmc_answers::{
    Answered, Denial, ScriptedSigner, Signer, judge, signing_of, temporary, temporary_is_read,
};
use cmc_meta::{Bytes, Text, Texts};
use cmc_objects::{
    CertificateRequest, JudgeOrder, RequestSpec, Rules, Shared, SignOrder, SignRow, Signing,
    SigningRequest,
};
use cmc_policy_rules::{Field, Policies, Policy};
use std::alloc::{AllocError, Global};
use std::process::Abort;
use std::test::Fail;

const NOW: i64 = 1_893_456_000;

// The request of openssl with all names, serial 300, from a minute before the moment for the hour that the request
// asks for.
static OF_REQUEST: &str =
    "3082014330820110a0030201020202012c300a06082a8648ce3d040302300d310b300906035504030c026361301e170d3239313233313233353930305a170d3330303130313030353930305a30163114301206035504030c0b6578616d706c652e636f6d3059301306072a8648ce3d020106082a8648ce3d03010703420004c8d4912385d6e2891d6cfabb34b212e66324e6f7093596d65399c3133beba273bf1c4ba284d690d02756f61451a3b3791c0f7f9ef6d9ac371ee1fa5258d67588a357305530530603551d11044c304a820b6578616d706c652e636f6d820f7777772e6578616d706c652e636f6d87040a000001861568747470733a2f2f6578616d706c652e636f6d2f78810d61406578616d706c652e636f6d300a06082a8648ce3d040302032100c45a79e5fb53e5c67065464a6a9da05df562506b7d9aed4028425ed404d3f700";

// The same with the number of the question as its serial, for a day, and with the first stand-in key.
static OF_STAND_IN: &str =
    "308201423082010fa003020102020107300a06082a8648ce3d040302300d310b300906035504030c026361301e170d3330303130313030303030305a170d3330303130323030303030305a30163114301206035504030c0b6578616d706c652e636f6d3059301306072a8648ce3d020106082a8648ce3d0301070342000400000000000000000000000000000000000000000000000000000000000000010000000000000000000000000000000000000000000000000000000000000001a357305530530603551d11044c304a820b6578616d706c652e636f6d820f7777772e6578616d706c652e636f6d87040a000001861568747470733a2f2f6578616d706c652e636f6d2f78810d61406578616d706c652e636f6d300a06082a8648ce3d0403020321009bffffaa2fe67a9ae6a1e2099d9a1f2d530cf5c619a372ba6bca86a92d9f8473";

// What stands in for a certificate of that request and that key from the moment on; openssl reads it so.
static STANDING_IN: &str =
    "3082015530820122a0030201020204499602d2300a06082a8648ce3d040302301d311b301906035504030c12636572742d6d616e616765722e6c6f63616c301e170d3330303130313030303030305a170d3330303430313030303030305a30163114301206035504030c0b6578616d706c652e636f6d3059301306072a8648ce3d020106082a8648ce3d03010703420004c8d4912385d6e2891d6cfabb34b212e66324e6f7093596d65399c3133beba273bf1c4ba284d690d02756f61451a3b3791c0f7f9ef6d9ac371ee1fa5258d67588a357305530530603551d11044c304a820b6578616d706c652e636f6d820f7777772e6578616d706c652e636f6d87040a000001861568747470733a2f2f6578616d706c652e636f6d2f78810d61406578616d706c652e636f6d300a06082a8648ce3d0403020321008e637fd94d5398f950f81012c766a315a1fdf99c12efa02bc6df7f0f8158e8de";

fn asking(alloc: Global, name: &str) -> Result<CertificateRequest, Fail> {
    let octets = made(alloc, &[made_requests::made()], name)?;
    let mut request = request(alloc)?;
    let mut spec = RequestSpec::copy(&request.spec)?;
    spec.request = SigningRequest::new(alloc, octets)?;
    request.spec = Shared::new(alloc, spec)?;
    Ok(request)
}

fn issue(
    alloc: Global,
    seconds: Option<u64>,
    before: u64,
    serial: Option<u64>,
    key: Option<u64>,
) -> SignRow
    requires lasts { is_lifetime seconds ≡ true }
    requires begins { before ≤ 86400 }
    ensures { is_row_form result ≡ true }
{
    SignRow::Issue {
        seconds,
        before,
        serial,
        key,
        ca: Bytes::new(alloc),
    }
}

fn issued(answer: &Signing) -> &[u8] {
    match answer {
        Signing::Issued { certificate, ca: _ } => certificate.as_slice(),
        _ => &[],
    }
}

fn failure(answer: &Signing) -> &str {
    match answer {
        Signing::Failed { message } => message.as_str(),
        _ => "",
    }
}

/// The answer by the row has these octets.
fn issues(
    alloc: Global,
    row: &SignRow,
    asked: &CertificateRequest,
    want: &[u8],
) -> Result<bool, AllocError>
    requires { is_row_form row.now ≡ true }
{
    let answer = signing_of(alloc, row, 7, asked, NOW)?;
    Ok(issued(&answer) == want)
}

/// The answer by the row is a failure with this message.
fn fails(
    alloc: Global,
    row: &SignRow,
    asked: &CertificateRequest,
    want: &str,
) -> Result<bool, AllocError>
    requires { is_row_form row.now ≡ true }
{
    let answer = signing_of(alloc, row, 1, asked, NOW)?;
    Ok(failure(&answer) == want)
}

/// The answer by the row has these octets, of a text that is handed on by reference, so that it is not spelt in what is
/// proved.
fn is_issued(
    alloc: Global,
    row: &SignRow,
    asked: &CertificateRequest,
    want: &&str,
) -> Result<bool, AllocError>
    requires { is_row_form row.now ≡ true }
{
    let want = octets(alloc, want)?;
    issues(alloc, row, asked, &want)
}

fn is_of_request(alloc: Global, asked: &CertificateRequest) -> Result<bool, AllocError> {
    let row = issue(alloc, None, 60, Some(300), None);
    is_issued(alloc, &row, asked, &OF_REQUEST)
}

fn is_of_stand_in(alloc: Global, asked: &CertificateRequest) -> Result<bool, AllocError> {
    let row = issue(alloc, Some(86_400), 0, None, Some(1));
    is_issued(alloc, &row, asked, &OF_STAND_IN)
}

// The request comes by reference, so that no `?` lets it go.
fn issues_both(
    rt: &impl Abort,
    alloc: Global,
    asked: &CertificateRequest,
) -> Result<(), AllocError> {
    passes(rt, "of the request", is_of_request(alloc, asked)?);
    passes(rt, "of a stand-in key", is_of_stand_in(alloc, asked)?);
    Ok(())
}

#[test]
fn issues_certificates(rt: HostRuntime) -> Result<(), Fail> {
    let asked = asking(rt.alloc(), "P-256, all names")?;
    issues_both(&rt, rt.alloc(), &asked)?;
    Ok(())
}

fn is_temporary(
    alloc: Global,
    request: &[u8],
    key: &[u8],
    want: &[u8],
) -> Result<bool, AllocError> {
    match temporary(alloc, request, key, NOW)? {
        Some(certificate) => Ok(certificate.as_slice() == want),
        None => Ok(false),
    }
}

/// What stands in for the certificate of this request and this key has these octets.
fn stands_in(alloc: Global, request: &[u8], key: &[u8], want: &&str) -> Result<bool, AllocError> {
    let want = octets(alloc, want)?;
    is_temporary(alloc, request, key, &want)
}

fn is_none(alloc: Global, request: &[u8], key: &[u8]) -> Result<bool, AllocError> {
    Ok(temporary(alloc, request, key, NOW)?.is_none())
}

fn stands(rt: &impl Abort, alloc: Global, request: &[u8], key: &[u8]) -> Result<(), AllocError> {
    let is_made = stands_in(alloc, request, key, &STANDING_IN)?;
    passes(rt, "stands in", is_made);
    passes(rt, "no request", is_none(alloc, key, key)?);
    passes(rt, "no key", is_none(alloc, request, request)?);
    Ok(())
}

#[test]
fn stands_in_while_a_request_waits(rt: HostRuntime) -> Result<(), Fail> {
    let alloc = rt.alloc();
    let request = made(alloc, &[made_requests::made()], "P-256, all names")?;
    let key = made(alloc, &[made_keys::made()], "p256 as PrivateKeyInfo")?;
    stands(&rt, alloc, request.as_slice(), key.as_slice())?;
    temporary_is_read();
    Ok(())
}

static NOT_READABLE: &str = "The request is not readable";

fn is_not_readable(alloc: Global, asked: &CertificateRequest) -> Result<bool, AllocError> {
    let row = issue(alloc, None, 0, None, None);
    fails(alloc, &row, asked, NOT_READABLE)
}

#[test]
fn fails_what_is_not_readable(rt: HostRuntime) -> Result<(), Fail> {
    let asked = asking(rt.alloc(), "Ed25519")?;
    let is_refused = is_not_readable(rt.alloc(), &asked)?;
    passes(&rt, "Ed25519", is_refused);
    Ok(())
}

#[test]
fn fails_what_is_no_request(rt: HostRuntime) -> Result<(), Fail> {
    let asked = request(rt.alloc())?;
    let is_refused = is_not_readable(rt.alloc(), &asked)?;
    passes(&rt, "no request", is_refused);
    Ok(())
}

fn is_raw(alloc: Global, asked: &CertificateRequest) -> Result<bool, AllocError> {
    let der = Bytes::from_slice(alloc, &[1, 2])?;
    let row = SignRow::Raw { der };
    issues(alloc, &row, asked, &[1, 2])
}

fn is_refusal(alloc: Global, asked: &CertificateRequest) -> Result<bool, AllocError> {
    let message = Text::from_str(alloc, "no")?;
    let row = SignRow::Fail { message };
    fails(alloc, &row, asked, "no")
}

fn answers_both(
    rt: &impl Abort,
    alloc: Global,
    asked: &CertificateRequest,
) -> Result<(), AllocError> {
    passes(rt, "raw", is_raw(alloc, asked)?);
    passes(rt, "fail", is_refusal(alloc, asked)?);
    Ok(())
}

#[test]
fn answers_by_the_row(rt: HostRuntime) -> Result<(), Fail> {
    let asked = asking(rt.alloc(), "P-384, no names")?;
    answers_both(&rt, rt.alloc(), &asked)?;
    Ok(())
}

fn order(alloc: Global) -> Result<Shared<SignOrder>, Fail> {
    let request = Shared::new(alloc, asking(alloc, "P-384, no names")?)?;
    let order = question(request).ok_or("not to be asked")?;
    Ok(Shared::new(alloc, order)?)
}

fn answered(alloc: Global) -> Result<Answered, Fail> {
    Ok(ScriptedSigner.sign(alloc, &order(alloc)?)?)
}

/// The answer is a copy's, and its question is the order's.
fn is_copied(answered: &Answered) -> Result<bool, AllocError> {
    Ok(answered.copy()?.order().same(answered.order()))
}

// The answer comes by reference, so that no assertion has it in hand.
fn waits(rt: &impl Abort, answered: &Answered) -> Result<(), AllocError> {
    let is_pending = matches!(answered.answer(), Signing::Pending);
    passes(rt, "pending", is_pending);
    passes(rt, "copied", is_copied(answered)?);
    Ok(())
}

fn number_in(answered: Answered) -> u64 {
    let (order, _) = answered.into_parts();
    order.number()
}

/// The answer to the first question about the request is that it waits, and so is its copy, and its parts.
#[test]
fn answers_a_question(rt: HostRuntime) -> Result<(), Fail> {
    let answered = answered(rt.alloc())?;
    waits(&rt, &answered)?;
    passes(&rt, "parts", number_in(answered) == 1);
    Ok(())
}

fn allow_names(alloc: Global, policy: &mut Policy) -> Result<(), AllocError> {
    policy.common = Some(patterns(alloc, "*")?);
    policy.ips = Some(patterns(alloc, "*")?);
    Ok(())
}

fn allow_uses(alloc: Global, policy: &mut Policy) -> Result<(), AllocError> {
    policy.uris = Some(patterns(alloc, "https://*.com/*")?);
    policy.emails = Some(patterns(alloc, "*@example.com")?);
    policy.usages = patterns(alloc, "server auth")?;
    Ok(())
}

fn allow_terms(policy: &mut Policy) {
    policy.min = Some(3_600);
    policy.max = Some(3_600);
    policy.algorithm = Some(false);
    policy.min_size = Some(256);
    policy.max_size = Some(256);
}

// All over `&mut`: a policy is wide to drop at each `?`.
fn allow(alloc: Global, policy: &mut Policy) -> Result<(), AllocError> {
    allow_names(alloc, policy)?;
    allow_uses(alloc, policy)?;
    allow_terms(policy);
    Ok(())
}

/// A policy named `shops` for requests to these issuers, which allows these DNS names and all other names and usages
/// of the request that openssl made with all names.
fn shops(alloc: Global, issuers: &str, dns: &str) -> Result<Policy, AllocError> {
    let mut policy = policy(alloc, "shops", issuers, dns)?;
    allow(alloc, &mut policy)?;
    Ok(policy)
}

fn policies(alloc: Global, issuers: &str, dns: &str) -> Result<Policies, AllocError> {
    let mut policies = Policies::new(alloc);
    policies.push(shops(alloc, issuers, dns)?)?;
    Ok(policies)
}

fn denial_word(denial: Option<&Denial>) -> &'static str {
    match denial {
        None => "none",
        Some(Denial::Unreadable) => "unreadable",
        Some(Denial::Refused) => "refused",
        Some(Denial::Policy { name, field }) => {
            if *field == Field::DnsNames && name.as_str() == "shops" {
                "DNS names by shops"
            } else {
                "another policy"
            }
        }
        Some(Denial::Unbound) => "unbound",
    }
}

/// Why the request may not be approved, in a word.
fn denial(alloc: Global, request: CertificateRequest, rules: Rules) -> Result<&'static str, Fail> {
    let request = Shared::new(alloc, request)?;
    let order = Shared::new(alloc, JudgeOrder { request, rules })?;
    let judged = judge(alloc, order)?;
    Ok(denial_word(judged.denial()))
}

fn rules(alloc: Global, refuse: Texts, policies: Policies) -> Result<Rules, Fail> {
    Ok(Rules {
        issuers: texts(alloc, "*")?,
        refuse,
        policies,
    })
}

/// The name that is refused, or none.
fn refused(alloc: Global, word: &str) -> Result<Texts, Fail> {
    match word {
        "" => Ok(Texts::new(alloc)),
        _ => texts(alloc, word),
    }
}

fn without_policies(alloc: Global, word: &str) -> Result<Rules, Fail> {
    rules(alloc, refused(alloc, word)?, Policies::new(alloc))
}

/// A name that is refused, and why a request for all names may then not be approved.
static REFUSED: [(&str, &str); 2] = [("", "none"), ("www.example.com", "refused")];

fn denial_where(
    alloc: Global,
    asked: CertificateRequest,
    word: &str,
) -> Result<&'static str, Fail> {
    denial(alloc, asked, without_policies(alloc, word)?)
}

/// Why the request for all names may not be approved where this name is refused.
fn denial_of_all(alloc: Global, word: &str) -> Result<&'static str, Fail> {
    denial_where(alloc, asking(alloc, "P-256, all names")?, word)
}

#[test]
fn judges_by_names(rt: HostRuntime) -> Result<(), Fail> {
    let alloc = rt.alloc();
    let told = denial_where(alloc, request(alloc)?, "")?;
    tells(&rt, "no request", told, "unreadable");
    for (word, want) in &REFUSED {
        tells(&rt, word, denial_of_all(alloc, word)?, want);
    }
    Ok(())
}

/// The issuers and the DNS names of a policy, and why the request may not be approved.
static POLICIES: [(&str, &str, &str); 3] = [
    ("*", "*example.com", "none"),
    ("ca", "*.example.com", "DNS names by shops"),
    ("other", "*example.com", "unbound"),
];

fn denial_by(alloc: Global, issuers: &str, dns: &str) -> Result<&'static str, Fail> {
    let rules = rules(alloc, Texts::new(alloc), policies(alloc, issuers, dns)?)?;
    denial(alloc, asking(alloc, "P-256, all names")?, rules)
}

#[test]
fn judges_by_policies(rt: HostRuntime) -> Result<(), Fail> {
    for (issuers, dns, want) in &POLICIES {
        tells(&rt, issuers, denial_by(rt.alloc(), issuers, dns)?, want);
    }
    Ok(())
}
