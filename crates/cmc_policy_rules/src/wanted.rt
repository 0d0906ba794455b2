//! What a request asks for.
use crate::pattern::Pattern;
use crate::patterns::Patterns;

/// What a certificate request asks for, as policies look at it.
pub struct Wanted {
    /// The name of the issuer.
    pub issuer: Pattern,
    /// The common name.
    pub common: Option<Pattern>,
    pub dns: Patterns,
    /// The octets of each address.
    pub ips: Patterns,
    pub uris: Patterns,
    pub emails: Patterns,
    /// The names of the key usages.
    pub usages: Patterns,
    /// A certificate authority is asked for.
    pub ca: bool,
    /// How long the certificate is to last, in seconds.
    pub duration: u64,
    /// The algorithm of the key: true for RSA, false for ECDSA; absent for a key of another kind.
    pub rsa: Option<bool>,
    /// The size of the key, in bits; 0 for a key of another kind.
    pub size: u32,
}

impl Drop for Wanted {
    fn drop(self) {
        let Wanted {
            issuer: _issuer,
            common: _common,
            dns: _dns,
            ips: _ips,
            uris: _uris,
            emails: _emails,
            usages: _usages,
            ca: _ca,
            duration: _duration,
            rsa: _rsa,
            size: _size,
        } = self;
    }
}
