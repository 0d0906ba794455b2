//! What no clause says: what labels and annotations mean, and what is found in them and in the data of a Secret.
use crate::checks::passes;
use crate::values::{column, text};
use crate::whole;
use cmc_match::{
    asks_for_temporary, has_text, is_next_key, is_temporary, part_under, revision_of, text_under,
};
use cmc_meta::{Bytes, Pairs, Text};
use cmc_objects::{Certificate, CertificateRequest, Parts, Secret};
use std::alloc::{AllocError, Global};
use std::process::Abort;
use std::test::Fail;

pub(crate) fn set(
    alloc: Global,
    pairs: &mut Pairs,
    key: &str,
    word: &str,
) -> Result<(), AllocError> {
    let key = Text::from_str(alloc, key)?;
    pairs.set(key, Text::from_str(alloc, word)?)
}

/// The text of the annotation, and the revision.
static REVISIONS: [(&str, Option<u64>); 12] = [
    ("17", Some(17)),
    ("0", Some(0)),
    ("18446744073709551615", Some(18_446_744_073_709_551_615)),
    ("18446744073709551616", None),
    ("017", None),
    ("00", None),
    ("+17", None),
    ("-1", None),
    (" 17", None),
    ("17 ", None),
    ("", None),
    ("1e3", None),
];

// The request is annotated and looked at by reference, so that no `?` lets it go.
fn revision_with(
    alloc: Global,
    request: &mut CertificateRequest,
    key: &str,
    word: &str,
) -> Result<Option<u64>, AllocError> {
    set(alloc, &mut request.meta.annotations, key, word)?;
    Ok(revision_of(request))
}

/// The revision of a request with this annotation.
fn revision_under(alloc: Global, key: &str, word: &str) -> Result<Option<u64>, Fail> {
    let mut request = whole::request(alloc)?;
    Ok(revision_with(alloc, &mut request, key, word)?)
}

#[test]
fn reads_revisions(rt: HostRuntime) -> Result<(), Fail> {
    let alloc = rt.alloc();
    passes(&rt, "none", revision_of(&whole::request(alloc)?).is_none());
    let other = revision_under(alloc, "certificate-revision", "17")?;
    passes(&rt, "another annotation", other.is_none());
    for (word, want) in &REVISIONS {
        let key = "cert-manager.io/certificate-revision";
        passes(&rt, word, revision_under(alloc, key, word)? == *want);
    }
    Ok(())
}

/// A mark and its text; and what it means: as a label, a next key; as an annotation, a certificate that stands in; and
/// on a Certificate, that it asks for one.
static MARKS: [&str; 8] = [
    "cert-manager.io/next-private-key|true|next key",
    "cert-manager.io/next-private-key|True|nothing",
    "cert-manager.io/next-private-key||nothing",
    "next-private-key|true|nothing",
    "cert-manager.io/temporary-certificate|true|stands in",
    "cert-manager.io/temporary-certificate|false|nothing",
    "cert-manager.io/issue-temporary-certificate|true|asks",
    "cert-manager.io/issue-temporary-certificate|yes|nothing",
];

/// Adds the mark of the row.
fn mark(alloc: Global, pairs: &mut Pairs, row: &str) -> Result<(), AllocError> {
    set(alloc, pairs, column(row, 0), column(row, 1))
}

// A Secret and a Certificate are marked and looked at by reference, so that no `?` lets one go.
fn label(alloc: Global, secret: &mut Secret, row: &str) -> Result<(bool, bool), AllocError> {
    mark(alloc, &mut secret.meta.labels, row)?;
    Ok((is_next_key(secret), is_temporary(secret)))
}

fn annotate(alloc: Global, secret: &mut Secret, row: &str) -> Result<(bool, bool), AllocError> {
    mark(alloc, &mut secret.meta.annotations, row)?;
    Ok((is_next_key(secret), is_temporary(secret)))
}

fn wish(alloc: Global, certificate: &mut Certificate, row: &str) -> Result<bool, AllocError> {
    mark(alloc, &mut certificate.meta.annotations, row)?;
    Ok(asks_for_temporary(certificate))
}

/// What the mark means as a label: whether the Secret holds a next key, or stands in.
fn as_label(alloc: Global, row: &str) -> Result<(bool, bool), Fail> {
    let mut secret = whole::secret(alloc)?;
    Ok(label(alloc, &mut secret, row)?)
}

fn as_annotation(alloc: Global, row: &str) -> Result<(bool, bool), Fail> {
    let mut secret = whole::secret(alloc)?;
    Ok(annotate(alloc, &mut secret, row)?)
}

fn as_wish(alloc: Global, row: &str) -> Result<bool, Fail> {
    let mut certificate = whole::certificate(alloc)?;
    Ok(wish(alloc, &mut certificate, row)?)
}

fn passes_as_label(rt: &impl Abort, alloc: Global, row: &str) -> Result<(), Fail> {
    let (is_next, stands_in) = as_label(alloc, row)?;
    passes(rt, row, is_next == (column(row, 2) == "next key"));
    passes(rt, row, !stands_in);
    Ok(())
}

fn passes_as_annotation(rt: &impl Abort, alloc: Global, row: &str) -> Result<(), Fail> {
    let (is_next, stands_in) = as_annotation(alloc, row)?;
    passes(rt, row, stands_in == (column(row, 2) == "stands in"));
    passes(rt, row, !is_next);
    Ok(())
}

#[test]
fn reads_marks(rt: HostRuntime) -> Result<(), Fail> {
    for row in &MARKS {
        passes_as_label(&rt, rt.alloc(), row)?;
        passes_as_annotation(&rt, rt.alloc(), row)?;
        let asks = as_wish(rt.alloc(), row)?;
        passes(&rt, row, asks == (column(row, 2) == "asks"));
    }
    Ok(())
}

fn is_text(found: Option<&Text>, want: &str) -> bool {
    match found {
        Some(text) => text.as_str() == want,
        None => false,
    }
}

fn is_part(found: Option<&Bytes>, want: &[u8]) -> bool {
    match found {
        Some(part) => part.as_slice() == want,
        None => false,
    }
}

// What is looked into comes by reference, so that no assertion has a Secret in hand.
fn has_labels(rt: &impl Abort, labels: &Pairs) {
    passes(rt, "app", is_text(text_under(labels, "app"), "shop"));
    passes(rt, "shop", text_under(labels, "shop").is_none());
    passes(rt, "app is shop", has_text(labels, "app", "shop"));
    passes(rt, "app is shops", !has_text(labels, "app", "shops"));
    passes(rt, "apps is shop", !has_text(labels, "apps", "shop"));
}

fn has_parts(rt: &impl Abort, parts: &Parts) {
    let key = part_under(parts, "tls.key");
    passes(rt, "tls.key", is_part(key, &[0, 0, 0]));
    passes(rt, "tls.crt", part_under(parts, "tls.crt").is_none());
}

#[test]
fn looks_up_by_text(rt: HostRuntime) -> Result<(), Fail> {
    let secret = whole::secret(rt.alloc())?;
    has_labels(&rt, &secret.meta.labels);
    has_parts(&rt, &secret.parts);
    Ok(())
}
