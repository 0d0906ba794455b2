//! Public keys and names, and the fields that certificates and requests are read to.
ghost use Rattle.std.specs.Prelude.{◌≡◌, ◌↔◌, ◌-◌, ◌^◌, ◌≤◌, ℕ, List, min, IsTrue};
ghost use Rattle.cmc_der.specs.Integers.{trimmed, octet_bits, bit_length, AreOctets, IsBitLength};
ghost use Rattle.cmc_der.specs.Values.{number_after};
ghost use Rattle.cmc_der.specs.Keys.{key_shown, key_kind_of, same_kind};

/// Algorithm and size of a public key.
#[derive(Clone, Copy)]
pub enum KeyKind {
    /// RSA, with the number of bits of its modulus.
    Rsa { bits: u32 },
    /// ECDSA on the curve P-256 (secp256r1, RFC 5480, 2.1.1.1).
    P256,
    /// ECDSA on the curve P-384 (secp384r1).
    P384,
    /// ECDSA on the curve P-521 (secp521r1).
    P521,
}

/// A public key as a SubjectPublicKeyInfo has it (RFC 5280, 4.1.2.7).
#[derive(Clone, Copy)]
pub enum Spki<'a> {
    /// An RSA key (RFC 8017, A.1.1): modulus and public exponent, the highest octet first, without
    /// a zero octet in front.
    Rsa {
        modulus: &'a [u8],
        exponent: &'a [u8],
    },
    /// An elliptic curve key (RFC 5480): its curve, and its point without compression, which is
    /// `04` and the two coordinates in the curve's width.
    Ec {
        curve: KeyKind,
        point: &'a [u8],
    },
    /// A key of another algorithm: its whole SubjectPublicKeyInfo.
    Other {
        whole: &'a [u8],
    },
}

/// What a subject is called.
#[derive(Clone, Copy)]
pub struct Names<'a> {
    /// The octets of the first commonName, where there is one.
    pub common: Option<&'a [u8]>,
    /// The contents octets of the GeneralNames (RFC 5280, 4.2.1.6), empty where there are none.
    pub alternative: &'a [u8],
}

/// What is read of a certificate. Times are whole seconds since 1970-01-01T00:00:00Z.
#[derive(Clone, Copy)]
pub struct CertFields<'a> {
    /// The contents octets of the serial number.
    pub serial: &'a [u8],
    pub not_before: i64,
    pub not_after: i64,
    pub key: Spki<'a>,
    pub names: Names<'a>,
}

/// What is read of a certification request.
#[derive(Clone, Copy)]
pub struct CsrFields<'a> {
    pub key: Spki<'a>,
    pub names: Names<'a>,
}

impl KeyKind {
    /// Whether algorithm and size are the same.
    pub fn same(self, other: KeyKind) -> bool
        ensures decides { IsTrue result ↔ (self ≡ other) }
        ensures value { result ≡ same_kind self other }
    {
        match (self, other) {
            (KeyKind::Rsa { bits }, KeyKind::Rsa { bits: others }) => bits == others,
            (KeyKind::P256, KeyKind::P256) => true,
            (KeyKind::P384, KeyKind::P384) => true,
            (KeyKind::P521, KeyKind::P521) => true,
            _ => false,
        }
    }
}

fn same_bytes(a: &[u8], b: &[u8]) -> bool
    ensures { IsTrue result ↔ (a.now ≡ b.now) }
{
    a == b
}

/// The number of bits of an octet, without the zero bits in front.
fn octet_bits_of(octet: u8) -> u32
    ensures value { result ≡ octet_bits octet }
    ensures within { result ≤ 8 }
{
    if octet < 16 {
        if octet < 1 {
            0
        } else if octet < 2 {
            1
        } else if octet < 4 {
            2
        } else if octet < 8 {
            3
        } else {
            4
        }
    } else if octet < 32 {
        5
    } else if octet < 64 {
        6
    } else if octet < 128 {
        7
    } else {
        8
    }
}

/// The octets without the zeros in front.
pub fn without_zeros(octets: &[u8]) -> &[u8]
    ensures { result.now ≡ trimmed octets.now }
{
    let mut rest = octets;
    while let [0, after @ ..] = rest {
        rest = after;
    }
    rest
}

/// The number of bits of the number that the octets spell, at most `u32::MAX`.
fn bits_of(octets: &[u8]) -> u32
    ensures { result ≡ min (bit_length octets.now) (2 ^ 32 - 1) }
{
    match without_zeros(octets) {
        [] => 0,
        [first, after @ ..] => {
            // 2 ^ 29 octets are 2 ^ 32 bits.
            if after.len() < 1 << 29 {
                let bits = 8 * after.len() as u64 + u64::from(octet_bits_of(*first));
                bits.min(u64::from(u32::MAX)) as u32
            } else {
                u32::MAX
            }
        }
    }
}

impl<'a> Spki<'a> {
    /// Algorithm and size of the key, and `None` exactly for a key of another algorithm. An RSA key
    /// has as many bits as its modulus; more than a `u32` holds are answered as `u32::MAX`.
    pub fn kind(&self) -> Option<KeyKind>
        ensures { result ≡ key_kind_of (key_shown self.now) }
    {
        match self {
            Spki::Rsa {
                modulus,
                exponent: _,
            } => Some(KeyKind::Rsa {
                bits: bits_of(modulus),
            }),
            Spki::Ec { curve, point: _ } => Some(*curve),
            Spki::Other { whole: _ } => None,
        }
    }

    /// Whether the two keys have equal parts.
    pub fn same(&self, other: &Spki<'_>) -> bool
        ensures { IsTrue result ↔ (key_shown self.now ≡ key_shown other.now) }
    {
        match self {
            Spki::Rsa { modulus, exponent } => match other {
                Spki::Rsa {
                    modulus: m,
                    exponent: e,
                } => same_bytes(modulus, m) && same_bytes(exponent, e),
                _ => false,
            },
            Spki::Ec { curve, point } => match other {
                Spki::Ec { curve: c, point: p } => curve.same(*c) && same_bytes(point, p),
                _ => false,
            },
            Spki::Other { whole } => match other {
                Spki::Other { whole: w } => same_bytes(whole, w),
                _ => false,
            },
        }
    }
}

/// A law: a number has as many bits as `Spki::kind` counts, and no fewer.
pub fn bits_are_fewest()
    ensures { (octets : List ℕ) → AreOctets octets → IsBitLength (number_after 0 octets) (bit_length octets) }
{}
