//! Tests against what openssl 3.0.19 made: `openssl req -new` of the names below, and `openssl ca` of that request, with
//! no other extension, from 2030-01-01 to 2050-01-01.
ghost use Rattle.cmc_time.specs.Asn1.{IsCertificateTime};

use crate::checks::passes;
use crate::values::{octets, push_text, text};
use cmc_der::{KeyKind, Spki};
use cmc_meta::{Bytes, Text, Texts};
use cmc_x509::{CsrFields, Names, read_cert, read_csr};
use cmc_x509_build::{
    CertPlan, NameSet, address_at, cert_body, cert_whole, csr_body, csr_whole, key_file_serves,
    request_serves,
};
use std::alloc::{AllocError, Global};
use std::process::Abort;
use std::test::Fail;

// The point of a P-256 key.
static POINT: [u8; 65] = [
    4, 98, 17, 124, 176, 12, 54, 53, 46, 151, 248, 165, 81, 101, 210, 24, 22, 169, 164, 156, 113,
    65, 76, 155, 127, 181, 105, 179, 89, 54, 74, 6, 126, 208, 216, 55, 37, 187, 131, 247, 207, 237,
    110, 123, 199, 210, 7, 215, 148, 217, 96, 48, 203, 34, 110, 133, 204, 119, 182, 195, 172, 97,
    142, 63, 87,
];

// The CertificationRequestInfo.
static REQUEST_BODY: &str =
    "3081f002010030163114301206035504030c0b6578616d706c652e636f6d3059301306072a8648ce3d020106082a8648ce3d0301070342000462117cb00c36352e97f8a55165d21816a9a49c71414c9b7fb569b359364a067ed0d83725bb83f7cfed6e7bc7d207d794d96030cb226e85cc77b6c3ac618e3f57a078307606092a864886f70d01090e3169306730650603551d11045e305c820b6578616d706c652e636f6d820f7777772e6578616d706c652e636f6d87040a000001871020010db8000000000000000000000001861568747470733a2f2f6578616d706c652e636f6d2f78810d61406578616d706c652e636f6d";

// The TBSCertificate.
static CERTIFICATE_BODY: &str =
    "30820123a00302010202010a300a06082a8648ce3d040302300d310b300906035504030c0263613020170d3330303130313030303030305a180f32303530303130313030303030305a30163114301206035504030c0b6578616d706c652e636f6d3059301306072a8648ce3d020106082a8648ce3d0301070342000462117cb00c36352e97f8a55165d21816a9a49c71414c9b7fb569b359364a067ed0d83725bb83f7cfed6e7bc7d207d794d96030cb226e85cc77b6c3ac618e3f57a369306730650603551d11045e305c820b6578616d706c652e636f6d820f7777772e6578616d706c652e636f6d87040a000001871020010db8000000000000000000000001861568747470733a2f2f6578616d706c652e636f6d2f78810d61406578616d706c652e636f6d";

fn push_names(alloc: Global, names: &mut NameSet) -> Result<(), Fail> {
    names.common = text(alloc, "example.com")?;
    push_text(alloc, &mut names.dns, "example.com")?;
    push_text(alloc, &mut names.dns, "www.example.com")?;
    push_text(alloc, &mut names.ips, "10.0.0.1")?;
    push_text(alloc, &mut names.ips, "2001:db8::1")?;
    push_text(alloc, &mut names.uris, "https://example.com/x")?;
    push_text(alloc, &mut names.emails, "a@example.com")
}

fn names(alloc: Global) -> Result<NameSet, Fail> {
    let mut names = NameSet {
        common: Text::new(alloc),
        dns: Texts::new(alloc),
        ips: Texts::new(alloc),
        uris: Texts::new(alloc),
        emails: Texts::new(alloc),
    };
    push_names(alloc, &mut names)?;
    Ok(names)
}

fn plan(issuer: Text) -> CertPlan
    ensures begins { IsCertificateTime result.not_before }
    ensures ends { IsCertificateTime result.not_after }
{
    CertPlan {
        serial: 10,
        issuer,
        not_before: 1_893_456_000,
        not_after: 2_524_608_000,
    }
}

fn key() -> Spki<'static> {
    Spki::Ec {
        curve: KeyKind::P256,
        point: &POINT,
    }
}

fn written_request(alloc: Global) -> Result<Bytes, Fail> {
    Ok(csr_body(alloc, &key(), &names(alloc)?)?)
}

fn whole_request(alloc: Global) -> Result<Bytes, Fail> {
    let body = written_request(alloc)?;
    Ok(csr_whole(alloc, body.as_slice(), &[7; 32])?)
}

/// The octets are those of a text that is handed on by reference, so that it is not spelt in what is proved.
fn has_octets(alloc: Global, body: &[u8], want: &&str) -> Result<bool, AllocError> {
    let want = octets(alloc, want)?;
    Ok(body == want.as_slice())
}

fn is_request_written(alloc: Global) -> Result<bool, Fail> {
    let body = written_request(alloc)?;
    Ok(has_octets(alloc, body.as_slice(), &REQUEST_BODY)?)
}

fn is_request_read(alloc: Global) -> Result<bool, Fail> {
    let whole = whole_request(alloc)?;
    Ok(is_request(whole.as_slice()))
}

/// The request is read with the key and with this common name.
fn is_request(octets: &[u8]) -> bool {
    match read_csr(octets) {
        Ok(csr) => { csr.key.same(&key()) && csr.names.common == Some(b"example.com".as_slice()) }
        Err(_) => false,
    }
}

#[test]
fn writes_a_request(rt: HostRuntime) -> Result<(), Fail> {
    passes(&rt, "request", is_request_written(rt.alloc())?);
    passes(&rt, "read again", is_request_read(rt.alloc())?);
    Ok(())
}

/// The certificate that the plan and the request make.
fn written_certificate(alloc: Global, request: &CsrFields<'_>) -> Result<Bytes, Fail> {
    let plan = plan(text(alloc, "ca")?);
    Ok(cert_body(alloc, &plan, request, &key())?)
}

/// The certificate is read when it is signed.
fn is_read(alloc: Global, body: &[u8], names: &Names<'_>) -> Result<bool, Fail> {
    let signed = cert_whole(alloc, body, &[7; 32])?;
    Ok(is_certificate(signed.as_slice(), names))
}

/// The certificate, as it is and when it is signed and read again.
fn are_written(alloc: Global, request: &CsrFields<'_>) -> Result<(bool, bool), Fail> {
    let body = written_certificate(alloc, request)?;
    let is_written = has_octets(alloc, body.as_slice(), &CERTIFICATE_BODY)?;
    Ok((is_written, is_read(alloc, body.as_slice(), &request.names)?))
}

#[test]
fn writes_a_certificate(rt: HostRuntime) -> Result<(), Fail> {
    let whole = whole_request(rt.alloc())?;
    let Ok(request) = read_csr(whole.as_slice()) else {
        return Err(Fail::from("no request"));
    };
    let (is_written, is_read) = are_written(rt.alloc(), &request)?;
    passes(&rt, "certificate", is_written);
    passes(&rt, "read again", is_read);
    Ok(())
}

/// The certificate is read with the fields of the plan, and these names.
fn is_certificate(octets: &[u8], names: &Names<'_>) -> bool {
    let Ok(read) = read_cert(octets) else {
        return false;
    };
    read.key.same(&key())
        && read.serial == [10u8].as_slice()
        && read.not_before == 1_893_456_000
        && read.not_after == 2_524_608_000
        && read.names.common == names.common
        && read.names.alternative == names.alternative
}

static ADDRESSES: [&str; 6] = [
    "0.0.0.0",
    "255.255.255.255",
    "::",
    "1:2:3:4:5:6:7:8",
    "FFFF::",
    "1::8",
];

static NO_ADDRESSES: [&str; 10] = [
    "",
    "1.2.3",
    "1.2.3.4.5",
    "01.2.3.4",
    "256.0.0.1",
    "1:2:3:4:5:6:7",
    "::1.2.3.4",
    "fe80::1%eth0",
    ":::",
    "12345::",
];

#[test]
fn addresses(rt: HostRuntime) {
    for text in &ADDRESSES {
        passes(&rt, text, address_at(text).is_some());
    }
    for text in &NO_ADDRESSES {
        passes(&rt, text, address_at(text).is_none());
    }
}

fn copied_names(alloc: Global) -> Result<NameSet, Fail> {
    let names = names(alloc)?;
    Ok(names.copy()?)
}

// The copy comes by reference, so that no assertion has it in hand.
fn are_names(rt: &impl Abort, copied: &NameSet) {
    passes(rt, "common name", copied.common.as_str() == "example.com");
    passes(rt, "addresses", copied.ips.as_slice().len() == 2);
}

#[test]
fn copies_names(rt: HostRuntime) -> Result<(), Fail> {
    let copied = copied_names(rt.alloc())?;
    are_names(&rt, &copied);
    request_serves();
    Ok(())
}

#[test]
fn copies_plans(rt: HostRuntime) -> Result<(), Fail> {
    let copied = plan(text(rt.alloc(), "ca")?).copy()?;
    passes(&rt, "issuer", copied.issuer.as_str() == "ca");
    passes(&rt, "end", copied.not_after == 2_524_608_000);
    key_file_serves();
    Ok(())
}
