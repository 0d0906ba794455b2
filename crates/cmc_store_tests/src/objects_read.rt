//! What no clause says: what whole objects in JSON stand for, where memory is ample. A text that is read is printed
//! again as the second of its row, and one that is not fails at the path of its row.
use crate::checks::{passes, tells};
use crate::codec::printed;
use crate::cursor::path_told;
use crate::json_texts::{between, value};
use cmc_codec::{Applied, applied_of, object_of, print_gives_back, printed_is_read};
use cmc_cursor::BadField;
use cmc_objects::Object;
use cmc_tests::values::column;
use std::alloc::Global;
use std::process::Abort;
use std::test::Fail;

fn object(alloc: Global, text: &str) -> Result<Result<Object, BadField>, Fail> {
    let value = value(alloc, text)?;
    Ok(object_of(alloc, &value))
}

/// The print of an object, of which both laws hold.
fn print_of(alloc: Global, object: &Object) -> Result<String, Fail> {
    printed_is_read(object);
    print_gives_back(object);
    printed(alloc, object)
}

/// What a text is read as: the print of the object, or the path that it fails at.
fn told(alloc: Global, text: &str) -> Result<String, Fail> {
    match object(alloc, text)? {
        Ok(object) => print_of(alloc, &object),
        Err(bad) => Ok(path_told(alloc, bad)?),
    }
}

fn version_told(alloc: Global, text: &str) -> Result<Option<u64>, Fail> {
    match applied_of(alloc, &value(alloc, text)?) {
        Ok(Applied { version, .. }) => Ok(version),
        Err(_) => Err(Fail::from("no object")),
    }
}

/// What a text is read as that stands between these.
fn told_between(alloc: Global, before: &str, text: &str, after: &str) -> Result<String, Fail> {
    let whole = between(alloc, before, text, after)?;
    told(alloc, whole.as_str())
}

/// Each text, between these, is read as what comes after its bar.
fn meets(
    rt: &impl Abort,
    alloc: Global,
    rows: &[&str],
    before: &str,
    after: &str,
) -> Result<(), Fail> {
    for row in rows {
        let told = told_between(alloc, before, column(row, 0), after)?;
        tells(rt, row, told.as_str(), column(row, 1));
    }
    Ok(())
}

fn reads_as(rt: &impl Abort, alloc: Global, text: &str, want: &str) -> Result<(), Fail> {
    let told = told(alloc, text)?;
    tells(rt, text, told.as_str(), want);
    Ok(())
}

/// What each text is read as is printed as what stands beside it, and that is read as itself.
fn prints(rt: &impl Abort, alloc: Global, rows: &[(&str, &str)]) -> Result<(), Fail> {
    for (text, want) in rows {
        reads_as(rt, alloc, text, want)?;
        reads_as(rt, alloc, want, want)?;
    }
    Ok(())
}

/// Certificates in the shape of cert-manager's documentation.
static DOCUMENTED: [(&str, &str); 6] = [
    (
        r#"{"apiVersion":"cert-manager.io/v1","kind":"Certificate","metadata":{"name":"example-com","namespace":"sandbox"},"spec":{"commonName":"example.com","dnsNames":["example.com","www.example.com"],"duration":"2160h","emailAddresses":["john.doe@cert-manager.io"],"ipAddresses":["192.168.0.5"],"isCA":false,"issuerRef":{"group":"cert-manager.io","kind":"Issuer","name":"ca-issuer"},"privateKey":{"algorithm":"RSA","encoding":"PKCS1","size":2048},"renewBefore":"360h","secretName":"example-com-tls","uris":["spiffe://cluster.local/ns/sandbox/sa/example"],"usages":["server auth","client auth"]}}"#,
        r#"{"apiVersion":"cert-manager.io/v1","kind":"Certificate","metadata":{"name":"example-com","namespace":"sandbox"},"spec":{"commonName":"example.com","dnsNames":["example.com","www.example.com"],"duration":"2160h0m0s","emailAddresses":["john.doe@cert-manager.io"],"ipAddresses":["192.168.0.5"],"issuerRef":{"group":"cert-manager.io","kind":"Issuer","name":"ca-issuer"},"privateKey":{"algorithm":"RSA","encoding":"PKCS1","size":2048},"renewBefore":"360h0m0s","secretName":"example-com-tls","uris":["spiffe://cluster.local/ns/sandbox/sa/example"],"usages":["server auth","client auth"]}}"#,
    ),
    (
        r#"{"apiVersion":"cert-manager.io/v1","kind":"Certificate","metadata":{"name":"my-selfsigned-ca","namespace":"sandbox"},"spec":{"commonName":"my-selfsigned-ca","isCA":true,"issuerRef":{"group":"cert-manager.io","kind":"ClusterIssuer","name":"selfsigned-issuer"},"privateKey":{"algorithm":"ECDSA","size":256},"secretName":"root-secret"}}"#,
        r#"{"apiVersion":"cert-manager.io/v1","kind":"Certificate","metadata":{"name":"my-selfsigned-ca","namespace":"sandbox"},"spec":{"commonName":"my-selfsigned-ca","isCA":true,"issuerRef":{"group":"cert-manager.io","kind":"ClusterIssuer","name":"selfsigned-issuer"},"privateKey":{"algorithm":"ECDSA","size":256},"secretName":"root-secret"}}"#,
    ),
    (
        r#"{"apiVersion":"cert-manager.io/v1","kind":"Certificate","metadata":{"name":"example-com"},"spec":{"commonName":"*.example.com","dnsNames":["example.com","www.example.com"],"issuerRef":{"name":"letsencrypt-staging"},"privateKey":{},"secretName":"example-com-tls"}}"#,
        r#"{"apiVersion":"cert-manager.io/v1","kind":"Certificate","metadata":{"name":"example-com","namespace":"default"},"spec":{"commonName":"*.example.com","dnsNames":["example.com","www.example.com"],"issuerRef":{"name":"letsencrypt-staging"},"secretName":"example-com-tls"}}"#,
    ),
    (
        r#"{"apiVersion":"cert-manager.io/v1","kind":"Certificate","metadata":{"name":"vault-example","namespace":"default"},"spec":{"commonName":"","dnsNames":["www.example.com"],"ipAddresses":["2001:db8::1","::"],"issuerRef":{"kind":"","name":"vault-issuer"},"revisionHistoryLimit":0,"secretName":"example-com-tls","uris":[]}}"#,
        r#"{"apiVersion":"cert-manager.io/v1","kind":"Certificate","metadata":{"name":"vault-example","namespace":"default"},"spec":{"dnsNames":["www.example.com"],"ipAddresses":["2001:db8::1","::"],"issuerRef":{"kind":"","name":"vault-issuer"},"revisionHistoryLimit":0,"secretName":"example-com-tls"}}"#,
    ),
    (
        r#"{"apiVersion":"cert-manager.io/v1","kind":"Certificate","metadata":{"annotations":{"cert-manager.io/issue-temporary-certificate":"true"},"creationTimestamp":null,"generation":3,"labels":{"":"x","app":"shop"},"managedFields":[{"a":1}],"name":"rotated","namespace":"default","ownerReferences":[{"apiVersion":"cert-manager.io/v1","blockOwnerDeletion":false,"controller":true,"kind":"Certificate","name":"web","uid":"uid-7"},{"kind":"Pod","name":5,"uid":"uid-7"},{"kind":"Secret","name":"a","uid":"7"},{"kind":"Secret","name":"a","uid":"uid-07"},{"controller":false,"kind":"Secret","name":"b","uid":"uid-0"}],"resourceVersion":"18446744073709551615","uid":"x"},"spec":{"dnsNames":["example.com"],"duration":"90m","issuerRef":{"name":"ca-issuer"},"privateKey":{"rotationPolicy":"Always","size":0},"renewBeforePercentage":4294967295,"secretName":"any.name","usages":["digital signature",""]},"status":{"conditions":5}}"#,
        r#"{"apiVersion":"cert-manager.io/v1","kind":"Certificate","metadata":{"annotations":{"cert-manager.io/issue-temporary-certificate":"true"},"labels":{"":"x","app":"shop"},"name":"rotated","namespace":"default","ownerReferences":[{"controller":true,"kind":"Certificate","name":"web","uid":"uid-7"},{"kind":"Secret","name":"b","uid":"uid-0"}]},"spec":{"dnsNames":["example.com"],"duration":"1h30m0s","issuerRef":{"name":"ca-issuer"},"privateKey":{"rotationPolicy":"Always","size":0},"renewBeforePercentage":4294967295,"secretName":"any.name","usages":["digital signature",""]}}"#,
    ),
    (
        r#"{"apiVersion":"cert-manager.io/v1alpha2","kind":"Certificate","metadata":{"name":"example-com","namespace":"default"},"spec":{"commonName":"example.com","dnsNames":["example.com","www.example.com"],"duration":"2160h","emailSANs":["a@example.com"],"ipAddresses":["192.168.0.5"],"isCA":false,"issuerRef":{"kind":"Issuer","name":"ca-issuer"},"keyAlgorithm":"rsa","keyEncoding":"pkcs1","keySize":2048,"renewBefore":"360h","secretName":"example-com-tls","uriSANs":["spiffe://cluster.local/ns/sandbox/sa/example"],"usages":["server auth","client auth"]}}"#,
        r#"{"apiVersion":"cert-manager.io/v1","kind":"Certificate","metadata":{"name":"example-com","namespace":"default"},"spec":{"commonName":"example.com","dnsNames":["example.com","www.example.com"],"duration":"2160h0m0s","emailAddresses":["a@example.com"],"ipAddresses":["192.168.0.5"],"issuerRef":{"kind":"Issuer","name":"ca-issuer"},"privateKey":{"algorithm":"RSA","encoding":"PKCS1","size":2048},"renewBefore":"360h0m0s","secretName":"example-com-tls","uris":["spiffe://cluster.local/ns/sandbox/sa/example"],"usages":["server auth","client auth"]}}"#,
    ),
];

#[test]
fn reads_what_documentation_shows(rt: HostRuntime) -> Result<(), Fail> {
    prints(&rt, rt.alloc(), &DOCUMENTED)
}

/// Objects of each kind, in both versions.
static KINDS: [(&str, &str); 6] = [
    (
        r#"{"apiVersion":"cert-manager.io/v1","kind":"Certificate","metadata":{"name":"web","namespace":"default"},"spec":{"dnsNames":["example.com"],"issuerRef":{"name":"ca"},"privateKey":{"algorithm":"ECDSA"},"secretName":"web-tls"}}"#,
        r#"{"apiVersion":"cert-manager.io/v1","kind":"Certificate","metadata":{"name":"web","namespace":"default"},"spec":{"dnsNames":["example.com"],"issuerRef":{"name":"ca"},"privateKey":{"algorithm":"ECDSA"},"secretName":"web-tls"}}"#,
    ),
    (
        r#"{"apiVersion":"cert-manager.io/v1alpha2","kind":"Certificate","metadata":{"name":"web","namespace":"default"},"spec":{"dnsNames":["example.com"],"issuerRef":{"name":"ca"},"keyAlgorithm":"ecdsa","secretName":"web-tls"}}"#,
        r#"{"apiVersion":"cert-manager.io/v1","kind":"Certificate","metadata":{"name":"web","namespace":"default"},"spec":{"dnsNames":["example.com"],"issuerRef":{"name":"ca"},"privateKey":{"algorithm":"ECDSA"},"secretName":"web-tls"}}"#,
    ),
    (
        r#"{"apiVersion":"cert-manager.io/v1","kind":"CertificateRequest","metadata":{"name":"web-1","namespace":"default"},"spec":{"duration":"1h","isCA":true,"issuerRef":{"name":"ca"},"request":"MAA=","usages":["server auth"]}}"#,
        r#"{"apiVersion":"cert-manager.io/v1","kind":"CertificateRequest","metadata":{"name":"web-1","namespace":"default"},"spec":{"duration":"1h0m0s","isCA":true,"issuerRef":{"name":"ca"},"request":"MAA=","usages":["server auth"]}}"#,
    ),
    (
        r#"{"apiVersion":"cert-manager.io/v1alpha2","kind":"CertificateRequest","metadata":{"name":"web-1","namespace":"default"},"spec":{"csr":"","duration":"0","isCA":false,"issuerRef":{"group":"example.org","name":"ca"},"usages":[]}}"#,
        r#"{"apiVersion":"cert-manager.io/v1","kind":"CertificateRequest","metadata":{"name":"web-1","namespace":"default"},"spec":{"duration":"0s","issuerRef":{"group":"example.org","name":"ca"},"request":""}}"#,
    ),
    (
        r#"{"apiVersion":"v1","data":{" ":"/w==","tls.crt":"","tls.key":"AAAA"},"kind":"Secret","metadata":{"name":"web-tls","namespace":"default"},"status":{},"type":"kubernetes.io/tls"}"#,
        r#"{"apiVersion":"v1","data":{" ":"/w==","tls.crt":"","tls.key":"AAAA"},"kind":"Secret","metadata":{"name":"web-tls","namespace":"default"},"type":"kubernetes.io/tls"}"#,
    ),
    (
        r#"{"apiVersion":"v1","data":{},"kind":"Secret","metadata":{"name":"web-tls","namespace":"default"}}"#,
        r#"{"apiVersion":"v1","kind":"Secret","metadata":{"name":"web-tls","namespace":"default"},"type":"Opaque"}"#,
    ),
];

#[test]
fn reads_objects_of_each_kind(rt: HostRuntime) -> Result<(), Fail> {
    prints(&rt, rt.alloc(), &KINDS)
}

/// Texts that are no objects, and where they fail.
static NO_OBJECTS: [&str; 37] = [
    "5|at ",
    "{}|at apiVersion",
    r#"{"apiVersion":"v1"}|at kind"#,
    r#"{"apiVersion":"v2","kind":"X"}|at apiVersion"#,
    r#"{"apiVersion":"v1","data":5,"kind":"X"}|at kind"#,
    r#"{"apiVersion":"v1","data":{"a":[1.5]},"kind":"X"}|at data.a.0"#,
    r#"{"a":1,"apiVersion":5}|at a"#,
    r#"{"":1,"apiVersion":5}|at "#,
    r#"{"apiVersion":"v1","data":{"":[{"":1.5}]},"kind":"X"}|at data..0."#,
    r#"{"apiVersion":"v1","kind":"Secret","metadata":{"labels":{"":5},"name":5}}|at metadata.labels."#,
    r#"{"apiVersion":"cert-manager.io/v1","kind":"Secret"}|at apiVersion"#,
    r#"{"apiVersion":"v1","kind":"Certificate"}|at apiVersion"#,
    r#"{"apiVersion":"cert-manager.io/v1","data":{},"kind":"Certificate"}|at data"#,
    r#"{"apiVersion":"cert-manager.io/v1","kind":"Certificate"}|at metadata"#,
    r#"{"apiVersion":"cert-manager.io/v1","kind":"Certificate","metadata":5,"spec":5}|at metadata"#,
    r#"{"apiVersion":"cert-manager.io/v1","kind":"Certificate","metadata":{"name":"web"}}|at spec"#,
    r#"{"apiVersion":"cert-manager.io/v1","kind":"Certificate","metadata":{"name":"web"},"spec":{"issuerRef":{"name":"ca"},"secretName":"s"},"type":"x"}|at type"#,
    r#"{"apiVersion":"cert-manager.io/v1","kind":"Certificate","metadata":{"name":"web"},"spec":{"issuerRef":{"name":"ca"},"secretName":"s"},"status":{"a":-0}}|at status.a"#,
    r#"{"apiVersion":"v1","kind":"Secret","metadata":{}}|at metadata.name"#,
    r#"{"apiVersion":"v1","kind":"Secret","metadata":{"name":{}}}|at metadata.name"#,
    r#"{"apiVersion":"v1","kind":"Secret","metadata":{"annotations":5,"name":5}}|at metadata.annotations"#,
    r#"{"apiVersion":"v1","kind":"Secret","metadata":{"labels":{"a":"b","c":5},"name":5}}|at metadata.labels.c"#,
    r#"{"apiVersion":"v1","kind":"Secret","metadata":{"name":"a","namespace":"fe80::1%1"}}|at metadata.namespace"#,
    r#"{"apiVersion":"v1","kind":"Secret","metadata":{"name":"a","ownerReferences":{}}}|at metadata.ownerReferences"#,
    r#"{"apiVersion":"v1","kind":"Secret","metadata":{"name":"a","ownerReferences":[{"kind":"Pod"},5]}}|at metadata.ownerReferences.1"#,
    r#"{"apiVersion":"v1","kind":"Secret","metadata":{"name":"a","ownerReferences":[{"kind":"Secret","uid":"uid-1"}]}}|at metadata.ownerReferences.0.name"#,
    r#"{"apiVersion":"v1","kind":"Secret","metadata":{"name":"a","ownerReferences":[{"controller":"true","kind":"Secret","name":"a","uid":"uid-1"}]}}|at metadata.ownerReferences.0.controller"#,
    r#"{"apiVersion":"v1","kind":"Secret","metadata":{"name":"a","resourceVersion":"00"}}|at metadata.resourceVersion"#,
    r#"{"apiVersion":"v1","kind":"Secret","metadata":{"name":"a","resourceVersion":"-1"}}|at metadata.resourceVersion"#,
    r#"{"apiVersion":"v1","kind":"Secret","metadata":{"name":"a","resourceVersion":"18446744073709551616"}}|at metadata.resourceVersion"#,
    r#"{"apiVersion":"v1","kind":"Secret","metadata":{"name":"a","resourceVersion":""}}|at metadata.resourceVersion"#,
    r#"{"apiVersion":"v1","kind":"Secret","metadata":{"name":"a","resourceVersion":5}}|at metadata.resourceVersion"#,
    r#"{"apiVersion":"v1","kind":"Secret","metadata":{"managedFields":[{"a":1e3}],"name":5}}|at metadata.managedFields.0.a"#,
    r#"{"apiVersion":"v1","data":{"a":5,"b":5},"kind":"Secret"}|at data.a"#,
    r#"{"apiVersion":"v1","data":[],"kind":"Secret"}|at data"#,
    r#"{"apiVersion":"v1","kind":"Secret","metadata":{"name":"a"},"stringData":{}}|at stringData"#,
    r#"{"apiVersion":"v1","kind":"Secret","metadata":{"name":"a"},"type":null}|at type"#,
];

#[test]
fn tells_where_an_object_fails(rt: HostRuntime) -> Result<(), Fail> {
    meets(&rt, rt.alloc(), &NO_OBJECTS, "", "")
}

/// What is not the spec of a Certificate, and where that fails.
static NO_SPECS: [&str; 35] = [
    "null|at spec",
    "{}|at spec.issuerRef",
    r#"{"issuerRef":{"name":"ca"}}|at spec.secretName"#,
    r#"{"commonName":"a\u0085","issuerRef":5}|at spec.commonName"#,
    r#"{"dnsNames":["a",""],"issuerRef":5}|at spec.dnsNames.1"#,
    r#"{"dnsNames":["é"]}|at spec.dnsNames.0"#,
    r#"{"duration":"1m1h"}|at spec.duration"#,
    r#"{"duration":3600}|at spec.duration"#,
    r#"{"emailAddresses":"a"}|at spec.emailAddresses"#,
    r#"{"emailSANs":[]}|at spec.emailSANs"#,
    r#"{"ipAddresses":["::1","1.2.3"]}|at spec.ipAddresses.1"#,
    r#"{"ipAddresses":["::1","01.2.3.4"]}|at spec.ipAddresses.1"#,
    r#"{"ipAddresses":["::1","256.1.1.1"]}|at spec.ipAddresses.1"#,
    r#"{"ipAddresses":["::1","::ffff:1.2.3.4"]}|at spec.ipAddresses.1"#,
    r#"{"ipAddresses":["::1","fe80::1%1"]}|at spec.ipAddresses.1"#,
    r#"{"ipAddresses":["::1","1:2:3:4:5:6:7:8::"]}|at spec.ipAddresses.1"#,
    r#"{"ipAddresses":["::1",""]}|at spec.ipAddresses.1"#,
    r#"{"isCA":"true"}|at spec.isCA"#,
    r#"{"issuerRef":"256.1.1.1"}|at spec.issuerRef"#,
    r#"{"issuerRef":{}}|at spec.issuerRef.name"#,
    r#"{"issuerRef":{"group":null,"name":5}}|at spec.issuerRef.group"#,
    r#"{"issuerRef":{"name":"ca","version":true}}|at spec.issuerRef.version"#,
    r#"{"issuerRef":{"name":"xxxxxxxxxxxxxxxxxxxxxxxxxxxxxxxxxxxxxxxxxxxxxxxxxxxxxxxxxxxxxxxxxxxxxxxxxxxxxxxxxxxxxxxxxxxxxxxxxxxxxxxxxxxxxxxxxxxxxxxxxxxxxxxxxxxxxxxxxxxxxxxxxxxxxxxxxxxxxxxxxxxxxxxxxxxxxxxxxxxxxxxxxxxxxxxxxxxxxxxxxxxxxxxxxxxxxxxxxxxxxxxxxxxxxxxxxxxxxxxxxxxxxxxxxxxxxx"}}|at spec.issuerRef.name"#,
    r#"{"issuerRef":{"name":"ca"},"privateKey":{"algorithm":"Ed25519"}}|at spec.privateKey.algorithm"#,
    r#"{"issuerRef":{"name":"ca"},"privateKey":{"encoding":"pkcs1"}}|at spec.privateKey.encoding"#,
    r#"{"issuerRef":{"name":"ca"},"privateKey":{"rotationPolicy":""}}|at spec.privateKey.rotationPolicy"#,
    r#"{"issuerRef":{"name":"ca"},"privateKey":{"size":4294967296}}|at spec.privateKey.size"#,
    r#"{"issuerRef":{"name":"ca"},"privateKey":{"size":2e3}}|at spec.privateKey.size"#,
    r#"{"issuerRef":{"name":"ca"},"renewBefore":"1d"}|at spec.renewBefore"#,
    r#"{"issuerRef":{"name":"ca"},"renewBeforePercentage":-1}|at spec.renewBeforePercentage"#,
    r#"{"issuerRef":{"name":"ca"},"revisionHistoryLimit":"01"}|at spec.revisionHistoryLimit"#,
    r#"{"issuerRef":{"name":"ca"},"secretName":"A"}|at spec.secretName"#,
    r#"{"issuerRef":{"name":"ca"},"secretName":"s","subject":{}}|at spec.subject"#,
    r#"{"issuerRef":{"name":"ca"},"secretName":"s","uris":[5]}|at spec.uris.0"#,
    r#"{"issuerRef":{"name":"ca"},"secretName":"s","usages":["",5]}|at spec.usages.1"#,
];

/// What stands before the spec of the Certificate `web`.
static BEFORE_SPEC: &str =
    r#"{"apiVersion":"cert-manager.io/v1","kind":"Certificate","metadata":{"name":"web"},"spec":"#;

/// The same in the older version, and of the other kinds.
static NO_OTHER_SPECS: [&str; 12] = [
    r#"{"apiVersion":"cert-manager.io/v1alpha2","kind":"Certificate","metadata":{"name":"web"},"spec":{"issuerRef":{"name":"ca"},"keyAlgorithm":"RSA"}}|at spec.keyAlgorithm"#,
    r#"{"apiVersion":"cert-manager.io/v1alpha2","kind":"Certificate","metadata":{"name":"web"},"spec":{"issuerRef":{"name":"ca"},"privateKey":{}}}|at spec.privateKey"#,
    r#"{"apiVersion":"cert-manager.io/v1alpha2","kind":"Certificate","metadata":{"name":"web"},"spec":{"issuerRef":{"name":"ca"},"organization":["a"]}}|at spec.organization"#,
    r#"{"apiVersion":"cert-manager.io/v1alpha2","kind":"Certificate","metadata":{"name":"web"},"spec":{"issuerRef":{"name":"ca"},"secretName":"s","uris":[]}}|at spec.uris"#,
    r#"{"apiVersion":"cert-manager.io/v1alpha2","kind":"Certificate","metadata":{"name":"web"},"spec":{"issuerRef":{"name":"ca"},"revisionHistoryLimit":1}}|at spec.revisionHistoryLimit"#,
    r#"{"apiVersion":"cert-manager.io/v1","kind":"CertificateRequest","metadata":{"name":"web-1","namespace":"default"},"spec":{"csr":"","issuerRef":{"name":"ca"}}}|at spec.csr"#,
    r#"{"apiVersion":"cert-manager.io/v1","kind":"CertificateRequest","metadata":{"name":"web-1","namespace":"default"},"spec":{"issuerRef":{"name":"ca"}}}|at spec.request"#,
    r#"{"apiVersion":"cert-manager.io/v1","kind":"CertificateRequest","metadata":{"name":"web-1","namespace":"default"},"spec":{"issuerRef":{"name":"ca"},"request":"MAA"}}|at spec.request"#,
    r#"{"apiVersion":"cert-manager.io/v1alpha2","kind":"CertificateRequest","metadata":{"name":"web-1","namespace":"default"},"spec":{"issuerRef":{"name":"ca"}}}|at spec.csr"#,
    r#"{"apiVersion":"cert-manager.io/v1alpha2","kind":"CertificateRequest","metadata":{"name":"web-1","namespace":"default"},"spec":{"csr":"","issuerRef":{"name":"ca"},"request":""}}|at spec.request"#,
    r#"{"apiVersion":"cert-manager.io/v1","kind":"CertificateRequest","metadata":{"name":"web-1","namespace":"default"},"spec":{"issuerRef":{"name":"ca"},"request":"","username":"x"}}|at spec.username"#,
    r#"{"apiVersion":"v1","kind":"Secret","metadata":{"name":"a"},"spec":{}}|at spec"#,
];

#[test]
fn tells_where_a_spec_fails(rt: HostRuntime) -> Result<(), Fail> {
    let alloc = rt.alloc();
    meets(&rt, alloc, &NO_SPECS, BEFORE_SPEC, "}")?;
    meets(&rt, alloc, &NO_OTHER_SPECS, "", "")
}

/// A Secret that names a version, and one that names none.
static NAMED: &str =
    r#"{"apiVersion":"v1","kind":"Secret","metadata":{"name":"a","resourceVersion":"0"}}"#;

static BARE: &str = r#"{"apiVersion":"v1","kind":"Secret","metadata":{"name":"a"}}"#;

/// The object names this version, or none.
fn names(alloc: Global, text: &&str, version: Option<u64>) -> Result<bool, Fail> {
    Ok(version_told(alloc, text)? == version)
}

#[test]
fn reads_the_version_that_is_named(rt: HostRuntime) -> Result<(), Fail> {
    let alloc = rt.alloc();
    passes(&rt, "named", names(alloc, &NAMED, Some(0))?);
    passes(&rt, "bare", names(alloc, &BARE, None)?);
    Ok(())
}
