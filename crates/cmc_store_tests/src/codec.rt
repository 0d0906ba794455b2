//! What no clause says: each member of the printed objects, as the cert-manager.io/v1 API reference has them.
use crate::checks::{passes, tells};
use cmc_codec::value_of;
use cmc_objects::Object;
use cmc_tests::whole::{certificate, request, secret};
use std::alloc::Global;
use std::process::Abort;
use std::test::Fail;

pub(crate) fn printed(alloc: Global, object: &Object) -> Result<String, Fail> {
    Ok(value_of(alloc, object)?.to_string(alloc)?)
}

fn is_printed(rt: &impl Abort, alloc: Global, object: &Object, want: &&str) -> Result<(), Fail> {
    let print = printed(alloc, object)?;
    tells(rt, "print", print.as_str(), want);
    Ok(())
}

/// The copy of the object is the same, and is printed as the text.
fn is_copied(rt: &impl Abort, alloc: Global, object: &Object, want: &&str) -> Result<(), Fail> {
    let copy = object.copy()?;
    passes(rt, "copy", copy.same(object));
    is_printed(rt, alloc, &copy, want)
}

static CERTIFICATE: &str =
    r#"{"apiVersion":"cert-manager.io/v1","kind":"Certificate","metadata":{"labels":{"app":"shop"},"name":"web","namespace":"default","ownerReferences":[{"controller":true,"kind":"Certificate","name":"web","uid":"uid-7"}]},"spec":{"commonName":"example.com","dnsNames":["example.com"],"duration":"2160h0m0s","emailAddresses":["web@example.com"],"ipAddresses":["192.0.2.1"],"isCA":true,"issuerRef":{"kind":"ClusterIssuer","name":"ca"},"privateKey":{"algorithm":"ECDSA","encoding":"PKCS8","rotationPolicy":"Never","size":384},"renewBefore":"5m0s","renewBeforePercentage":25,"revisionHistoryLimit":1,"secretName":"web-tls","uris":["spiffe://example.com/web"],"usages":["server auth"]},"status":{"conditions":[{"lastTransitionTime":"2030-01-01T00:00:00Z","message":"approved by the script","reason":"Script","status":"True","type":"Approved"}],"failedIssuanceAttempts":2,"lastFailureTime":"1970-01-01T00:00:00Z","nextPrivateKeySecretName":"web-bbbbf","notAfter":"2030-04-01T00:00:00Z","notBefore":"2030-01-01T00:00:00Z","renewalTime":"2030-03-02T00:00:00Z","revision":3}}"#;

static REQUEST: &str =
    r#"{"apiVersion":"cert-manager.io/v1","kind":"CertificateRequest","metadata":{"labels":{"app":"shop"},"name":"web-1","namespace":"default","ownerReferences":[{"controller":true,"kind":"Certificate","name":"web","uid":"uid-7"}]},"spec":{"duration":"1h0m0s","issuerRef":{"kind":"ClusterIssuer","name":"ca"},"request":"AAAA","usages":["server auth"]},"status":{"ca":"AAAA","certificate":"AAAA","conditions":[{"lastTransitionTime":"2030-01-01T00:00:00Z","message":"approved by the script","reason":"Script","status":"True","type":"Approved"}],"failureTime":"2030-01-01T00:00:00Z"}}"#;

static SECRET: &str =
    r#"{"apiVersion":"v1","data":{"tls.key":"AAAA"},"kind":"Secret","metadata":{"labels":{"app":"shop"},"name":"web-tls","namespace":"default","ownerReferences":[{"controller":true,"kind":"Certificate","name":"web","uid":"uid-7"}]},"type":"Opaque"}"#;

#[test]
fn prints_whole_certificates(rt: HostRuntime) -> Result<(), Fail> {
    let alloc = rt.alloc();
    let object = Object::of_certificate(alloc, certificate(alloc)?)?;
    is_copied(&rt, alloc, &object, &CERTIFICATE)
}

#[test]
fn prints_whole_requests(rt: HostRuntime) -> Result<(), Fail> {
    let alloc = rt.alloc();
    let object = Object::of_request(alloc, request(alloc)?)?;
    is_copied(&rt, alloc, &object, &REQUEST)
}

#[test]
fn prints_whole_secrets(rt: HostRuntime) -> Result<(), Fail> {
    let alloc = rt.alloc();
    let object = Object::of_secret(alloc, secret(alloc)?)?;
    is_copied(&rt, alloc, &object, &SECRET)
}
