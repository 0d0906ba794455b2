//! What controllers do, as texts: a word for the call or the question, and each object as a history prints it.
use crate::trigger::KEY;
use cmc_meta::Bytes;
use cmc_objects::{
    Algorithm, Call, CsrOrder, JudgeOrder, KeyOrder, KeyRow, Object, Order, SignOrder, SignRow,
};
use cmc_pass::{Act, IssuePlan, TemporaryPlan};
use cmc_print::{key_word, name_word, tree_of};
use cmc_tests::values::{let_go, octets};
use std::alloc::{AllocError, Global};

/// The body of the request that `openssl req -new` made, without its signature.
static BODY: &str =
    "30818b02010030003059301306072a8648ce3d020106082a8648ce3d03010703420004c8d4912385d6e2891d6cfabb34b212e66324e6f7093596d65399c3133beba273bf1c4ba284d690d02756f61451a3b3791c0f7f9ef6d9ac371ee1fa5258d67588a029302706092a864886f70d01090e311a301830160603551d11040f300d820b6578616d706c652e636f6d";

/// Long texts of JSON and the words that stand for them in what is expected: the Certificate up to its status, and, in
/// base64 as `openssl base64 -A` gives it, the key file, its certificate, the certificate that stands in for it, and the
/// certificate that an issuer `ca` gives as its first for the request that openssl made; that request, a
/// CertificateRequest with it up to its status, and an approval. openssl reads each of the files.
static SHORT: [(&str, &str); 8] = [
    (
        r#"{"apiVersion":"cert-manager.io/v1","kind":"Certificate","metadata":{"name":"web","namespace":"default"},"spec":{"dnsNames":["example.com"],"issuerRef":{"name":"ca"},"privateKey":{"algorithm":"ECDSA"},"secretName":"web-tls"},"status":"#,
        "web ",
    ),
    (
        "MHcCAQEEIOzk8Y/zCbttUYjWhou0qZZ2bRm7rpj9aC28baysXGguoAoGCCqGSM49AwEHoUQDQgAEyNSRI4XW4okdbPq7NLIS5mMk5vcJNZbWU5nDEzvronO/HEuihNaQ0CdW9hRRo7N5HA9/nvbZrDce4fpSWNZ1iA==",
        "KEY",
    ),
    (
        "MIIB2DCCAX6gAwIBAgIUfoAbuZU2Nkx1a5Ki3D5ACkjdF5EwCgYIKoZIzj0EAwIwFjEUMBIGA1UEAwwLZXhhbXBsZS5jb20wHhcNMjYxMTI3MDMwOTMzWhcNMjcwMjI1MDMwOTMzWjAWMRQwEgYDVQQDDAtleGFtcGxlLmNvbTBZMBMGByqGSM49AgEGCCqGSM49AwEHA0IABMjUkSOF1uKJHWz6uzSyEuZjJOb3CTWW1lOZwxM766JzvxxLooTWkNAnVvYUUaOzeRwPf5722aw3HuH6UljWdYijgakwgaYwHQYDVR0OBBYEFP1GWibOaZ7qGm1ThWTyeofkyh80MB8GA1UdIwQYMBaAFP1GWibOaZ7qGm1ThWTyeofkyh80MA8GA1UdEwEB/wQFMAMBAf8wUwYDVR0RBEwwSoILZXhhbXBsZS5jb22CD3d3dy5leGFtcGxlLmNvbYcECgAAAYYVaHR0cHM6Ly9leGFtcGxlLmNvbS94gQ1hQGV4YW1wbGUuY29tMAoGCCqGSM49BAMCA0gAMEUCIQDB/dVL1/630XlIKMSzQV4WUswySCwYdfFoL6GNBmXWOgIgUhjEppqKPNiCrFxSC/DTG3lYPqxSkGefQqkca8gT1ao=",
        "CERTIFICATE",
    ),
    (
        "MIIBATCBz6ADAgECAgRJlgLSMAoGCCqGSM49BAMCMB0xGzAZBgNVBAMMEmNlcnQtbWFuYWdlci5sb2NhbDAeFw0zMDAxMDEwMDAxMDBaFw0zMDA0MDEwMDAxMDBaMAAwWTATBgcqhkjOPQIBBggqhkjOPQMBBwNCAATI1JEjhdbiiR1s+rs0shLmYyTm9wk1ltZTmcMTO+uic78cS6KE1pDQJ1b2FFGjs3kcD3+e9tmsNx7h+lJY1nWIoxowGDAWBgNVHREEDzANggtleGFtcGxlLmNvbTAKBggqhkjOPQQDAgMhAPgr7fYKuw8yv3mjKrGYB5w5hkj5sT+IBcKI+zvYEpet",
        "STAND-IN",
    ),
    (
        "MIHuMIG8oAMCAQICAQEwCgYIKoZIzj0EAwIwDTELMAkGA1UEAwwCY2EwHhcNMzAwMTAxMDAwMTAwWhcNMzAwNDAxMDAwMTAwWjAAMFkwEwYHKoZIzj0CAQYIKoZIzj0DAQcDQgAEyNSRI4XW4okdbPq7NLIS5mMk5vcJNZbWU5nDEzvronO/HEuihNaQ0CdW9hRRo7N5HA9/nvbZrDce4fpSWNZ1iKMaMBgwFgYDVR0RBA8wDYILZXhhbXBsZS5jb20wCgYIKoZIzj0EAwIDIQBI8xNl5GvImrg5EMg56rrHnGvoaReml+lmcwOxamgMBQ==",
        "BY-SCRIPT",
    ),
    (
        "MIHlMIGLAgEAMAAwWTATBgcqhkjOPQIBBggqhkjOPQMBBwNCAATI1JEjhdbiiR1s+rs0shLmYyTm9wk1ltZTmcMTO+uic78cS6KE1pDQJ1b2FFGjs3kcD3+e9tmsNx7h+lJY1nWIoCkwJwYJKoZIhvcNAQkOMRowGDAWBgNVHREEDzANggtleGFtcGxlLmNvbTAKBggqhkjOPQQDAgNJADBGAiEA5VPglRh3/md3QF4WUftrgSerWf06m54U7IkgmFt4hHMCIQCfGYAWkv//hiDyJ3KBCzFNADdIV+YLrwD5062g+JH4AA==",
        "REQUEST",
    ),
    (
        r#"{"apiVersion":"cert-manager.io/v1","kind":"CertificateRequest","metadata":{"annotations":{"cert-manager.io/certificate-revision":"2"},"name":"web-bbbbh","namespace":"default"},"spec":{"issuerRef":{"name":"ca"},"request":"REQUEST"},"status":"#,
        "request ",
    ),
    (
        r#"{"lastTransitionTime":"2030-01-01T00:00:00Z","message":"","reason":"Script","status":"True","type":"Approved"}"#,
        "APPROVED",
    ),
];

fn replaced(alloc: Global, text: &str, long: &str, word: &str) -> Result<String, AllocError> {
    let mut whole = String::new(alloc);
    let mut is_first = true;
    for piece in text.split(long) {
        if !is_first {
            whole.push_str(word)?;
        }
        whole.push_str(piece)?;
        is_first = false;
    }
    Ok(whole)
}

fn object_told(alloc: Global, object: &Object) -> Result<String, AllocError> {
    let line = tree_of(alloc, object)?.line(alloc)?;
    let mut text = String::from_str(alloc, line.as_str().trim_end())?;
    for (long, word) in &SHORT {
        text = replaced(alloc, text.as_str(), long, word)?;
    }
    Ok(text)
}

/// The call, the version that it names, and the object.
fn call_told(alloc: Global, call: &Call) -> Result<String, AllocError> {
    match call {
        Call::Create { object, generate } => {
            let word = if *generate { "generate" } else { "create" };
            let object = object_told(alloc, object)?;
            format!(in alloc; "{word} {object}")
        }
        Call::Update { object, version } => {
            let object = object_told(alloc, object)?;
            format!(in alloc; "update {version} {object}")
        }
        Call::UpdateStatus { object, version } => {
            let object = object_told(alloc, object)?;
            format!(in alloc; "status {version} {object}")
        }
        Call::Delete {
            key,
            version: Some(version),
        } => {
            let key = key_word(alloc, key)?;
            format!(in alloc; "delete {version} {key}")
        }
        _ => String::from_str(alloc, "another call"),
    }
}

fn key_row_word(row: &KeyRow) -> &'static str {
    match row {
        KeyRow::Default => "default",
        KeyRow::Der(_) => "der",
        _ => "another row",
    }
}

fn key_told(alloc: Global, order: &KeyOrder) -> Result<String, AllocError> {
    let number = order.number;
    let certificate = name_word(alloc, &order.certificate)?;
    let algorithm = match order.algorithm {
        Algorithm::Rsa => "RSA",
        Algorithm::Ecdsa => "ECDSA",
    };
    let size = order.size;
    let row = key_row_word(&order.row);
    format!(in alloc; "ask key {number} {certificate} {algorithm} {size} {row}")
}

static KEY_FILE: &str = KEY;

fn is_file(alloc: Global, file: &Bytes, expected: &str) -> Result<bool, AllocError> {
    Ok(file.as_slice() == octets(alloc, expected)?.as_slice())
}

fn csr_told(alloc: Global, order: &CsrOrder) -> Result<String, AllocError> {
    let is_body = is_file(alloc, &order.body, BODY)?;
    let is_key = is_file(alloc, &order.key, KEY_FILE)?;
    format!(in alloc; "ask signature, body {is_body}, key {is_key}")
}

fn row_word(row: &SignRow) -> &'static str {
    match row {
        SignRow::Issue { .. } => "issue",
        SignRow::Pending => "pending",
        _ => "another row",
    }
}

fn sign_told(alloc: Global, order: &SignOrder) -> Result<String, AllocError> {
    let number = order.number();
    let version = order.request().meta.version;
    let now = order.now();
    let row = row_word(order.row());
    format!(in alloc; "ask issuer {number} {version} {now} {row}")
}

fn judge_told(alloc: Global, order: &JudgeOrder) -> Result<String, AllocError> {
    let version = order.request.meta.version;
    let issuers = order.rules.issuers.as_slice().len();
    format!(in alloc; "judge {version} {issuers}")
}

fn order_told(alloc: Global, order: &Order) -> Result<String, AllocError> {
    match order {
        Order::Key(order) => key_told(alloc, order),
        Order::Csr(order) => csr_told(alloc, order),
        Order::Sign(order) => sign_told(alloc, order),
        Order::Judge(order) => judge_told(alloc, order),
    }
}

fn issue_told(alloc: Global, plan: &IssuePlan) -> Result<String, AllocError> {
    let key = key_word(alloc, &plan.get)?;
    let version = plan.version;
    let secret = call_told(alloc, &plan.secret)?;
    let status = call_told(alloc, &plan.status)?;
    format!(in alloc; "issue {version} {key}; {secret}; {status}")
}

fn temporary_told(alloc: Global, plan: &TemporaryPlan) -> Result<String, AllocError> {
    let key = key_word(alloc, &plan.get)?;
    let version = plan.version;
    let secret = call_told(alloc, &plan.secret)?;
    format!(in alloc; "temporary {version} {key}; {secret}")
}

/// What the controller does.
fn told(alloc: Global, act: &Act) -> Result<String, AllocError> {
    match act {
        Act::Nothing => String::from_str(alloc, "nothing"),
        Act::Call(call) => call_told(alloc, call),
        Act::Ask(order) => order_told(alloc, order),
        Act::Issue(plan) => issue_told(alloc, plan),
        Act::Temporary(plan) => temporary_told(alloc, plan),
    }
}

/// What the controller does; the act, a wide enum, is dropped after it.
pub(crate) fn told_then(alloc: Global, act: Act) -> Result<String, AllocError> {
    let told = told(alloc, &act);
    let_go(act);
    told
}

/// The call, which is dropped after it.
pub(crate) fn call_told_then(alloc: Global, call: Call) -> Result<String, AllocError> {
    call_told(alloc, &call)
}
