//! What no clause says: that a scenario is read, with its defaults, where memory is ample, and which texts are
//! scenarios and where others fail.
use crate::checks::{counts, passes, tells};
use crate::json_texts::{between, value};
use cmc_objects::{KeyRow, Role, Rows, Rules, SignRow, Step};
use cmc_policy_rules::{Pattern, Policy};
use cmc_scenario::{BadScenario, Roles, Scenario, generate, read, value_of_scenario};
use cmc_tests::values::column;
use std::alloc::{AllocError, Global};
use std::process::Abort;
use std::test::Fail;

fn read_text(alloc: Global, text: &str) -> Result<Result<Scenario, BadScenario>, Fail> {
    let value = value(alloc, text)?;
    Ok(read(alloc, &value))
}

fn scenario(alloc: Global, text: &str) -> Result<Scenario, Fail> {
    match read_text(alloc, text)? {
        Ok(scenario) => Ok(scenario),
        Err(_) => Err(Fail::from("no scenario")),
    }
}

/// Where a text fails.
fn path_told(alloc: Global, bad: BadScenario) -> Result<String, AllocError> {
    match bad {
        BadScenario::Path(path) => format!(in alloc; "at {}", path.as_str()),
        BadScenario::NoMemory => Err(AllocError),
    }
}

/// Where a text fails, or `ok`.
fn told(alloc: Global, text: &str) -> Result<String, Fail> {
    match read_text(alloc, text)? {
        Ok(_scenario) => Ok(String::from_str(alloc, "ok")?),
        Err(bad) => Ok(path_told(alloc, bad)?),
    }
}

/// Where a text fails that stands between these.
fn told_between(alloc: Global, before: &str, text: &str, after: &str) -> Result<String, Fail> {
    let whole = between(alloc, before, text, after)?;
    told(alloc, whole.as_str())
}

/// Each text, between these, fails where its row says after its bar.
fn meets(
    rt: &impl Abort,
    alloc: Global,
    rows: &[&str],
    before: &str,
    after: &str,
) -> Result<(), Fail> {
    for row in rows {
        let told = told_between(alloc, before, column(row, 0), after)?;
        tells(rt, row, told.as_str(), column(row, 1));
    }
    Ok(())
}

/// What stands before a script, in a scenario whose role `trigger` runs at first.
static BEFORE_SCRIPT: &str = r#"{"roles":["trigger"],"script":["#;

/// Where a scenario with this script fails.
fn script_told(alloc: Global, steps: &str) -> Result<String, Fail> {
    told_between(alloc, BEFORE_SCRIPT, steps, "]}")
}

/// What is printed of the scenario that the text gives is as is wanted.
fn is_printed_as(rt: &impl Abort, alloc: Global, text: &str, want: &str) -> Result<(), Fail> {
    let print = printed(alloc, text)?;
    tells(rt, text, print.as_str(), want);
    Ok(())
}

/// What is printed of the scenario that the text gives.
fn printed(alloc: Global, text: &str) -> Result<String, Fail> {
    print_of(alloc, &scenario(alloc, text)?)
}

fn print_of(alloc: Global, scenario: &Scenario) -> Result<String, Fail> {
    Ok(value_of_scenario(alloc, scenario)?.to_string(alloc)?)
}

/// The members that the text leaves out.
fn has_defaults(rt: &impl Abort, scenario: &Scenario) {
    counts(rt, "events", scenario.events(), 100_000);
    counts(rt, "window", scenario.window(), 1_000);
    passes(rt, "now", scenario.now() == 1_893_456_000);
    passes(rt, "no roles", scenario.roles().is_empty());
    passes(rt, "no faults", scenario.faults().is_empty());
    passes(rt, "no material", scenario.material().as_map().is_empty());
    passes(rt, "rules", are_open(scenario.approver()));
}

/// The rules for all issuers, that refuse no name.
fn are_open(rules: &Rules) -> bool {
    match rules.issuers.as_slice() {
        [issuer] => issuer.as_str() == "*" && rules.refuse.as_slice().is_empty(),
        _ => false,
    }
}

static LITTLE: &str = r#"{"roles":[],"script":[{"do":"delete","key":"Secret/default/web"}]}"#;

/// A copy of the scenario that the text gives.
fn copied(alloc: Global, text: &str) -> Result<Scenario, Fail> {
    let scenario = scenario(alloc, text)?;
    Ok(scenario.copy()?)
}

/// A delete that names no version.
fn is_delete(script: &[Step]) -> bool {
    matches!(script, [Step::Delete { version: None, .. }])
}

#[test]
fn fills_in_what_a_scenario_leaves_out(rt: HostRuntime) -> Result<(), Fail> {
    let scenario = copied(rt.alloc(), LITTLE)?;
    has_defaults(&rt, &scenario);
    passes(&rt, "script", is_delete(scenario.script()));
    Ok(())
}

fn copied_roles(alloc: Global) -> Result<Roles, AllocError> {
    let mut roles = Roles::new(alloc);
    roles.push(Role::Trigger)?;
    roles.copy()
}

fn is_trigger(roles: &[Role]) -> bool {
    matches!(roles, [Role::Trigger])
}

#[test]
fn copies_roles(rt: HostRuntime) -> Result<(), Fail> {
    let copied = copied_roles(rt.alloc())?;
    passes(&rt, "copied", is_trigger(copied.as_slice()));
    Ok(())
}

static MEMBERS: &str =
    r#"{"events":7,"faults":[2,9],"now":"2031-01-01T00:00:00Z","roles":["trigger"],"window":3}"#;

fn has_members(rt: &impl Abort, scenario: &Scenario) {
    counts(rt, "events", scenario.events(), 7);
    counts(rt, "window", scenario.window(), 3);
    passes(rt, "now", scenario.now() == 1_924_992_000);
    passes(rt, "faults", matches!(scenario.faults(), [2, 9]));
    passes(rt, "roles", is_trigger(scenario.roles()));
}

#[test]
fn reads_the_members_that_stand(rt: HostRuntime) -> Result<(), Fail> {
    let scenario = scenario(rt.alloc(), MEMBERS)?;
    has_members(&rt, &scenario);
    Ok(())
}

/// All eight roles, in their order.
fn is_each(roles: &[Role]) -> bool {
    matches!(
        roles,
        [
            Role::Trigger,
            Role::KeyManager,
            Role::RequestManager,
            Role::Approver,
            Role::Issuer,
            Role::Issuing,
            Role::Readiness,
            Role::Revision
        ]
    )
}

fn runs_each(alloc: Global, text: &str) -> Result<bool, Fail> {
    Ok(is_each(scenario(alloc, text)?.roles()))
}

fn runs_one(alloc: Global, text: &str) -> Result<bool, Fail> {
    let scenario = scenario(alloc, text)?;
    Ok(matches!(scenario.roles(), [Role::RequestManager]))
}

static ONE_ROLE: &str = r#"{"roles":["requestmanager"]}"#;

/// Texts in which all roles run.
static ALL_ROLES: [&str; 2] = [
    r#"{}"#,
    r#"{"roles":["revision","readiness","issuing","issuer","approver","requestmanager","keymanager","trigger"]}"#,
];

#[test]
fn all_eight_roles_run_where_none_are_named(rt: HostRuntime) -> Result<(), Fail> {
    let alloc = rt.alloc();
    for text in &ALL_ROLES {
        passes(&rt, text, runs_each(alloc, text)?);
        is_printed_as(&rt, alloc, text, "{}")?;
    }
    passes(&rt, "one", runs_one(alloc, ONE_ROLE)?);
    Ok(())
}

/// A scenario that applies a Certificate with this duration, of an issuer with this name.
fn applying(alloc: Global, duration: &str, issuer: &str) -> Result<String, Fail> {
    Ok(format!(in alloc;
        "{{\"script\":[{{\"do\":\"apply\",\"object\":{{\"apiVersion\":\"cert-manager.io/v1\",\"kind\":\"Certificate\",\"metadata\":{{\"name\":\"web\"}},\"spec\":{{\"dnsNames\":[\"a\"],\"duration\":\"{duration}\",\"issuerRef\":{{\"name\":\"{issuer}\"}},\"secretName\":\"web-tls\"}}}}}}]}}"
    )?)
}

/// An issuer's name of so many letters.
fn issuer(alloc: Global, letters: usize) -> Result<String, Fail> {
    Ok("c".repeat(alloc, letters)?)
}

/// Where a scenario fails that applies a Certificate with this duration, of an issuer with a name of so many letters.
fn applied_told(alloc: Global, duration: &str, letters: usize) -> Result<String, Fail> {
    let issuer = issuer(alloc, letters)?;
    let text = applying(alloc, duration, issuer.as_str())?;
    told(alloc, text.as_str())
}

/// The duration, how many letters the issuer's name has, and where the scenario fails.
static APPLIED: [(&str, usize, &str); 5] = [
    ("999999999h", 253, "ok"),
    ("1h", 0, "ok"),
    ("1000000000h", 2, "at script.0.object.spec.duration"),
    ("999999999h1s", 2, "at script.0.object.spec.duration"),
    ("1h", 254, "at script.0.object.spec.issuerRef.name"),
];

#[test]
fn what_is_applied_is_within_its_bounds(rt: HostRuntime) -> Result<(), Fail> {
    let alloc = rt.alloc();
    for (duration, letters, want) in &APPLIED {
        let told = applied_told(alloc, duration, *letters)?;
        tells(&rt, duration, told.as_str(), want);
    }
    Ok(())
}

static ROWS_AND_POLICIES: &str =
    r#"{"approver":{"policies":[{"ipAddresses":["*","10.0.0.1"],"minDuration":"1h","name":"web"}],"refuse":["x"]},"material":{"default/web":{"keys":[{"synthetic":5}],"replies":[{"before":60,"reply":"issue"},{"reply":"fail"}]}},"roles":[]}"#;

/// A key of the number 5; an answer that issues, and one that fails.
fn are_rows(rows: &Rows) -> bool {
    let are_replies = matches!(
        rows.replies.as_slice(),
        [
            SignRow::Issue {
                seconds: None,
                before: 60,
                ..
            },
            SignRow::Fail { .. }
        ]
    );
    are_replies && matches!(rows.keys.as_slice(), [KeyRow::Synthetic(5)])
}

/// The second address is 10.0.0.1, in octets.
fn are_addresses(addresses: &[Pattern]) -> bool {
    match addresses {
        [_, address] => matches!(address.as_slice(), [10, 0, 0, 1]),
        _ => false,
    }
}

/// One policy, for all issuers.
fn are_policies(policies: &[Policy]) -> bool {
    match policies {
        [policy] => {
            policy.min == Some(3_600)
                && policy.issuers.as_slice().len() == 1
                && match &policy.ips {
                    Some(addresses) => are_addresses(addresses.as_slice()),
                    None => false,
                }
        }
        _ => false,
    }
}

fn has_rows(rt: &impl Abort, scenario: &Scenario) {
    for (key, rows) in scenario.material().as_map().iter() {
        passes(rt, "web", key.name.as_str() == "web");
        passes(rt, "rows", are_rows(rows));
    }
}

#[test]
fn reads_rows_and_policies(rt: HostRuntime) -> Result<(), Fail> {
    let scenario = scenario(rt.alloc(), ROWS_AND_POLICIES)?;
    has_rows(&rt, &scenario);
    let policies = scenario.approver().policies.as_slice();
    passes(&rt, "policies", are_policies(policies));
    Ok(())
}

/// Texts, and behind a bar where each fails that is no scenario.
static TEXTS: [&str; 37] = [
    r#"{"events":0}|at events"#,
    r#"{"events":1.5}|at events"#,
    r#"{"events":250001}|at events"#,
    r#"{"events":1e3}|at events"#,
    r#"{"events":1234567890123456789012345678901234567890}|at events"#,
    r#"{"events":1,"roles":[],"window":250000}|ok"#,
    r#"{"events":250000,"roles":[],"window":0}|at window"#,
    "{}|ok",
    r#"{"roles":null}|at roles"#,
    r#"{"x":1}|at x"#,
    r#"{"script":5}|at script"#,
    "[]|at ",
    r#"{"":1}|at "#,
    r#"{"":{"x":1}}|at "#,
    r#"{"material":{"":{}}}|at material."#,
    r#"{"approver":{"":1}}|at approver."#,
    r#"{"script":[{"":1}]}|at script.0."#,
    r#"{"script":[{"do":"apply","object":{"":{"":1}}}]}|at script.0.object."#,
    r#"{"script":[{"do":"apply","object":{"apiVersion":"cert-manager.io/v1","kind":"Certificate","metadata":{"name":"web","namespace":"default"},"spec":{"":1,"issuerRef":{"name":"ca"},"secretName":"web-tls"}}}]}|at script.0.object.spec."#,
    r#"{"now":[1.5]}|at now"#,
    r#"{"now":"1951-01-01T00:00:00Z","roles":[]}|ok"#,
    r#"{"now":"1950-12-31T23:59:59Z","roles":[]}|at now"#,
    r#"{"now":"9900-01-01T00:00:00Z","roles":[]}|ok"#,
    r#"{"now":"9900-01-01T00:00:01Z","roles":[]}|at now"#,
    r#"{"faults":[1,2,9],"roles":[]}|ok"#,
    r#"{"faults":[0],"roles":[]}|at faults.0"#,
    r#"{"faults":[2,2],"roles":[]}|at faults.1"#,
    r#"{"faults":[3,2,1],"roles":[]}|at faults.1"#,
    r#"{"roles":["trigger","trigger"]}|ok"#,
    r#"{"roles":["trigger","key-manager"]}|at roles.1"#,
    r#"{"roles":["trigger","ISSUER"]}|at roles.1"#,
    r#"{"script":[{"do":"stop","role":"issuing"},{"behind":0,"do":"start","role":"issuing"}]}|ok"#,
    r#"{"script":[{"behind":0,"do":"start","role":"issuing"}]}|at script.0"#,
    r#"{"script":[{"do":"settle"}],"z":1}|at z"#,
    r#"{"roles":["Trigger"]}|at roles.0"#,
    r#"{"approver":{"a":1}}|at approver.a"#,
    r#"{"approver":{"issuers":["x",1]}}|at approver.issuers.1"#,
];

#[test]
fn tells_where_members_fail(rt: HostRuntime) -> Result<(), Fail> {
    meets(&rt, rt.alloc(), &TEXTS, "", "")
}

/// Scripts, and where a scenario of each fails.
static SCRIPTS: [&str; 29] = [
    r#"{"do":"settle"}|ok"#,
    r#"{"a":1,"do":"x"}|at script.0.a"#,
    r#"{"DO":1}|at script.0.DO"#,
    r#"{"certificate":5,"do":"x"}|at script.0.do"#,
    r#"{"certificate":1.5,"do":"x"}|at script.0.certificate"#,
    r#"{"behind":0,"do":"stop","role":"trigger"}|at script.0.behind"#,
    r#"{"do":"stop","role":"trigger"}|ok"#,
    r#"{"do":"stop","role":"issuer"}|at script.0"#,
    r#"{"do":"settle"},{"do":"stop","role":"issuer"}|at script.1"#,
    r#"{"do":"stop","role":"Issuer"}|at script.0.role"#,
    r#"{"behind":0,"do":"start","role":"trigger"}|at script.0"#,
    r#"{"behind":0,"do":"start","role":"readiness"}|ok"#,
    r#"{"behind":0,"do":"start","role":"issuer"}|ok"#,
    r#"{"behind":0,"do":"start","role":"signer"}|at script.0.role"#,
    r#"{"do":"start","role":"issuer"}|at script.0.behind"#,
    r#"{"do":"hold","kind":"Secret","role":"trigger"}|ok"#,
    r#"{"do":"hold","kind":"Secret","role":"approver"}|at script.0"#,
    r#"{"do":"hold","kind":"CertificateRequest","role":"keymanager"}|at script.0"#,
    r#"{"do":"release","kind":"Secret","role":"trigger"}|at script.0"#,
    r#"{"do":"until","kind":"Secret","writes":1}|at script.0.role"#,
    r#"{"do":"tick","seconds":0}|at script.0.seconds"#,
    r#"{"do":"tick","seconds":1e3}|at script.0.seconds"#,
    r#"{"do":"tick","seconds":1000000000}|ok"#,
    r#"{"do":"tick","seconds":1000000001}|at script.0.seconds"#,
    r#"{"certificate":"default/web","do":"approve","revision":1}|ok"#,
    r#"{"certificate":"default/web","do":"deny"}|at script.0.revision"#,
    r#"{"certificate":"web","do":"renew"}|at script.0.certificate"#,
    r#"{"certificate":"a/b","do":"answer","revision":1,"row":{"reply":"pending"}}|ok"#,
    r#"{"certificate":"a/b","do":"answer","revision":1,"row":{"seconds":1}}|at script.0.row.reply"#,
];

#[test]
fn tells_where_steps_fail(rt: HostRuntime) -> Result<(), Fail> {
    meets(&rt, rt.alloc(), &SCRIPTS, BEFORE_SCRIPT, "]}")
}

/// The step that the word says.
fn step(word: &str) -> &'static str {
    match word {
        "hold" => r#"{"do":"hold","kind":"Secret","role":"trigger"}"#,
        "release" => r#"{"do":"release","kind":"Secret","role":"trigger"}"#,
        "stop" => r#"{"do":"stop","role":"trigger"}"#,
        _ => r#"{"behind":3,"do":"start","role":"trigger"}"#,
    }
}

/// The steps that the words say.
fn steps(alloc: Global, words: &str) -> Result<String, Fail> {
    let mut steps = String::new(alloc);
    for word in words.split(' ') {
        if !steps.is_empty() {
            steps.push_str(",")?;
        }
        steps.push_str(step(word))?;
    }
    Ok(steps)
}

fn turns_told(alloc: Global, words: &str) -> Result<String, Fail> {
    let steps = steps(alloc, words)?;
    script_told(alloc, steps.as_str())
}

/// Three steps, and where a scenario with them fails.
static TURNS: [&str; 8] = [
    "hold release hold|ok",
    "hold hold release|at script.1",
    "hold release release|at script.2",
    "stop start stop|ok",
    "stop stop start|at script.1",
    "stop start start|at script.2",
    "hold stop hold|at script.2",
    "hold stop release|ok",
];

#[test]
fn steps_come_in_turn(rt: HostRuntime) -> Result<(), Fail> {
    for row in &TURNS {
        let told = turns_told(rt.alloc(), column(row, 0))?;
        tells(&rt, row, told.as_str(), column(row, 1));
    }
    Ok(())
}

/// How many seconds pass in a scenario that begins a minute before the last moment, and where it fails.
static TICKS: [&str; 2] = ["60|ok", "61|at script.0"];

/// What stands before them.
static BEFORE_SECONDS: &str =
    r#"{"now":"9899-12-31T23:59:00Z","roles":[],"script":[{"do":"tick","seconds":"#;

#[test]
fn a_script_ends_in_time(rt: HostRuntime) -> Result<(), Fail> {
    meets(&rt, rt.alloc(), &TICKS, BEFORE_SECONDS, "}]}")
}

/// So many steps, and one of no form after them where that is wanted.
fn many_steps(alloc: Global, count: u32, end: &str) -> Result<String, Fail> {
    let mut steps = String::from_str(alloc, r#"{"do":"settle"}"#)?;
    for _ in 1..count {
        steps.push_str(r#",{"do":"settle"}"#)?;
    }
    steps.push_str(end)?;
    Ok(steps)
}

fn many_told(alloc: Global, end: &str) -> Result<String, Fail> {
    let steps = many_steps(alloc, 10_000, end)?;
    script_told(alloc, steps.as_str())
}

#[test]
fn a_script_has_ten_thousand_steps(rt: HostRuntime) -> Result<(), Fail> {
    let alloc = rt.alloc();
    tells(&rt, "all", many_told(alloc, "")?.as_str(), "ok");
    let more = many_told(alloc, ",5")?;
    tells(&rt, "one more", more.as_str(), "at script.10000");
    Ok(())
}

/// Material, and where a scenario with it fails.
static MATERIAL: [&str; 17] = [
    r#"{"a/b":{}}|ok"#,
    r#"{"b":{}}|at material.b"#,
    r#"{"a/b/c":{}}|at material.a/b/c"#,
    r#"{"a/b":{"keys":[{}]}}|at material.a/b.keys.0"#,
    r#"{"a/b":{"keys":[{"der":"AAAA","synthetic":1}]}}|at material.a/b.keys.0.synthetic"#,
    r#"{"a/b":{"keys":[{"synthetic":1},{"der":"AAA"}]}}|at material.a/b.keys.1.der"#,
    r#"{"a/b":{"keys":[{"Der":""}]}}|at material.a/b.keys.0.Der"#,
    r#"{"a/b":{"replies":[{"reply":{}}]}}|at material.a/b.replies.0.reply"#,
    r#"{"a/b":{"replies":[{"DER":"","reply":"raw"}]}}|at material.a/b.replies.0.DER"#,
    r#"{"a/b":{"replies":[{"reply":"issue","seconds":3153600000}]}}|ok"#,
    r#"{"a/b":{"replies":[{"reply":"issue","seconds":3153600001}]}}|at material.a/b.replies.0.seconds"#,
    r#"{"a/b":{"replies":[{"reply":"issue","seconds":0}]}}|at material.a/b.replies.0.seconds"#,
    r#"{"a/b":{"replies":[{"before":86400,"reply":"issue"}]}}|ok"#,
    r#"{"a/b":{"replies":[{"before":86401,"reply":"issue"}]}}|at material.a/b.replies.0.before"#,
    r#"{"a/b":{"replies":[{"reply":"pending","seconds":1}]}}|at material.a/b.replies.0.seconds"#,
    r#"{"a/b":{"replies":[{"key":1,"reply":"raw"}]}}|at material.a/b.replies.0.der"#,
    r#"{"a/b":{"replies":[{"der":"","reply":"raw"},{"reply":"fail"}]}}|ok"#,
];

#[test]
fn tells_where_rows_fail(rt: HostRuntime) -> Result<(), Fail> {
    meets(
        &rt,
        rt.alloc(),
        &MATERIAL,
        r#"{"material":"#,
        r#","roles":[]}"#,
    )
}

/// What stands before the only policy of a scenario.
static BEFORE_POLICY: &str = r#"{"approver":{"policies":["#;

/// Policies, and where a scenario with each fails.
static POLICIES: [&str; 13] = [
    r#"{"dnsNames":["*.example.com"],"name":"web"}|ok"#,
    r#"{"name":""}|ok"#,
    r#"{"dnsNames":["*.example.com"]}|at approver.policies.0.name"#,
    r#"{"dnsNames":["a",""],"name":"web"}|at approver.policies.0.dnsNames.1"#,
    r#"{"ipAddresses":["*","10.0.0.1","::1"],"name":"web"}|ok"#,
    r#"{"ipAddresses":["010.0.0.1"],"name":"web"}|at approver.policies.0.ipAddresses.0"#,
    r#"{"ipAddresses":["::ffff:1.2.3.4"],"name":"web"}|at approver.policies.0.ipAddresses.0"#,
    r#"{"maxDuration":"1000000000h","name":"web"}|at approver.policies.0.maxDuration"#,
    r#"{"maxDuration":"999999999h","name":"web"}|ok"#,
    r#"{"algorithm":"DSA","name":"web"}|at approver.policies.0.algorithm"#,
    r#"{"minSize":4294967296,"name":"web"}|at approver.policies.0.minSize"#,
    r#"{"isCA":1,"name":"web"}|at approver.policies.0.isCA"#,
    r#"{"name":"web","organizations":[]}|at approver.policies.0.organizations"#,
];

#[test]
fn tells_where_policies_fail(rt: HostRuntime) -> Result<(), Fail> {
    meets(
        &rt,
        rt.alloc(),
        &POLICIES,
        BEFORE_POLICY,
        r#"]},"roles":[]}"#,
    )
}

fn load_printed(alloc: Global) -> Result<String, Fail> {
    print_of(alloc, &generate(alloc, 1)?)
}

static LOAD: &str =
    r#"{"events":2000,"script":[{"do":"apply","object":{"apiVersion":"cert-manager.io/v1","kind":"Certificate","metadata":{"name":"c0001","namespace":"load"},"spec":{"dnsNames":["c0001.example"],"issuerRef":{"name":"ca"},"privateKey":{"algorithm":"ECDSA"},"revisionHistoryLimit":1,"secretName":"c0001-tls"}}},{"do":"settle"},{"do":"tick","seconds":5184000},{"do":"settle"}]}"#;

#[test]
fn prints_a_generated_load(rt: HostRuntime) -> Result<(), Fail> {
    tells(&rt, "load", load_printed(rt.alloc())?.as_str(), LOAD);
    Ok(())
}

/// The text as JSON is printed.
fn json_printed(alloc: Global, text: &str) -> Result<String, Fail> {
    Ok(value(alloc, text)?.to_string(alloc)?)
}

fn is_printed_again(rt: &impl Abort, alloc: Global, text: &str) -> Result<(), Fail> {
    let want = json_printed(alloc, text)?;
    is_printed_as(rt, alloc, text, want.as_str())
}

/// Scenarios in which each member stands that may stand, as they are printed.
static PRINTED: [&str; 6] = [
    r#"{"roles":[]}"#,
    r#"{"approver":{"issuers":["ca","other"],"policies":[{"algorithm":"RSA","commonName":["a.example"],"dnsNames":["*.example"],"emailAddresses":["a@example"],"ipAddresses":["10.0.0.1","2001:db8::1","::ffff:102:304","*"],"isCA":true,"issuers":["ca"],"maxDuration":"2160h0m0s","maxSize":4096,"minDuration":"1h0m0s","minSize":2048,"name":"web","uris":["https://*"],"usages":["server auth"]},{"algorithm":"ECDSA","name":"\u00e9"}],"refuse":["bad.example"]},"roles":["trigger"]}"#,
    r#"{"approver":{"issuers":[],"policies":[{"dnsNames":[],"issuers":[],"name":""}]},"roles":["readiness"]}"#,
    r#"{"events":500,"faults":[2,9],"material":{"a-b/web":{},"a/web":{"keys":[{"synthetic":7},{"der":"AQI="}],"replies":[{"before":60,"ca":"AQ==","key":3,"reply":"issue","seconds":3600,"serial":9},{"reply":"pending"},{"message":"","reply":"fail"},{"der":"AQID","reply":"raw"}]}},"now":"2031-01-01T00:00:00Z","roles":["trigger","readiness","revision"],"window":50}"#,
    r#"{"roles":["trigger"],"script":[{"do":"apply","object":{"apiVersion":"v1","data":{"a":"AQ=="},"kind":"Secret","metadata":{"name":"s","namespace":"default","resourceVersion":"7"},"type":"Opaque"}},{"do":"delete","key":"Secret/default/s"},{"do":"delete","key":"CertificateRequest/default/s","version":3},{"certificate":"default/web","do":"approve","revision":1},{"certificate":"default/web","do":"deny","revision":2},{"certificate":"default/web","do":"answer","revision":2,"row":{"reply":"issue","serial":1}},{"certificate":"default/web","do":"renew"},{"do":"tick","seconds":60}]}"#,
    r#"{"roles":["trigger"],"script":[{"do":"stop","role":"trigger"},{"behind":2,"do":"start","role":"trigger"},{"do":"hold","kind":"Certificate","role":"trigger"},{"do":"release","kind":"Certificate","role":"trigger"},{"do":"until","kind":"Certificate","role":"trigger","writes":1},{"do":"settle"}]}"#,
];

#[test]
fn prints_what_it_reads(rt: HostRuntime) -> Result<(), Fail> {
    for text in &PRINTED {
        is_printed_again(&rt, rt.alloc(), text)?;
    }
    Ok(())
}

/// What is left out where it has its default.
static DEFAULTS: [(&str, &str); 3] = [
    (
        r#"{"approver":{"issuers":["*"],"policies":[],"refuse":[]},"events":100000,"faults":[],"material":{},"now":"2030-01-01T00:00:00Z","roles":["trigger","trigger"],"script":[],"window":1000}"#,
        r#"{"roles":["trigger"]}"#,
    ),
    (
        r#"{"approver":{"policies":[{"isCA":false,"issuers":["*"],"name":"web","usages":[]}]},"roles":[]}"#,
        r#"{"approver":{"policies":[{"name":"web"}]},"roles":[]}"#,
    ),
    (
        r#"{"material":{"a/b":{"keys":[],"replies":[{"before":0,"ca":"","reply":"issue"},{"message":"The issuer refused","reply":"fail"}]}},"roles":[]}"#,
        r#"{"material":{"a/b":{"replies":[{"reply":"issue"},{"reply":"fail"}]}},"roles":[]}"#,
    ),
];

#[test]
fn leaves_out_what_is_the_default(rt: HostRuntime) -> Result<(), Fail> {
    for (text, want) in &DEFAULTS {
        is_printed_as(&rt, rt.alloc(), text, want)?;
    }
    Ok(())
}
