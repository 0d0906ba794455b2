ghost use Rattle.std.specs.Prelude.{◌≡◌, ◌↔◌, IsTrue, IfOk};

use crate::optional::same_u64;
use cmc_meta::{Bytes, Item, Items, Text};
use std::alloc::AllocError;

/// What a scenario says of one private key that is asked for.
#[derive(Drop)]
pub enum KeyRow {
    /// A stand-in key whose number comes from the Certificate and the number of the question.
    Default,
    /// The stand-in key of this number.
    Synthetic(u64),
    /// This key file, in DER.
    Der(Bytes),
    /// Any key. No scenario that is read has this row.
    Free,
}

/// What a scenario says of one question to an issuer.
pub enum SignRow {
    /// A certificate is issued.
    Issue {
        /// Its lifetime in seconds; that of the request where absent.
        seconds: Option<u64>,
        /// How many seconds before the present moment it begins.
        before: u64,
        /// Its serial number; the number of the question where absent.
        serial: Option<u64>,
        /// The number of a stand-in key that it gets in place of the request's.
        key: Option<u64>,
        /// The DER of the CA's certificate, empty where there is none.
        ca: Bytes,
    },
    /// The issuer has not decided yet.
    Pending,
    /// The issuer refuses.
    Fail {
        message: Text,
    },
    /// The issuer answers these bytes as the certificate.
    Raw {
        der: Bytes,
    },
    /// Any answer. No scenario that is read has this row.
    Free,
}

impl Drop for SignRow {
    fn drop(self) {
        match self {
            SignRow::Issue {
                seconds: _seconds,
                before: _before,
                serial: _serial,
                key: _key,
                ca: _ca,
            } => {}
            SignRow::Pending => {}
            SignRow::Fail { message: _message } => {}
            SignRow::Raw { der: _der } => {}
            SignRow::Free => {}
        }
    }
}

impl KeyRow {
    /// An equal row.
    pub fn copy(&self) -> Result<KeyRow, AllocError>
        ensures { IfOk result (λ r. r ≡ self.now) }
    {
        match self {
            KeyRow::Default => Ok(KeyRow::Default),
            KeyRow::Synthetic(number) => Ok(KeyRow::Synthetic(*number)),
            KeyRow::Der(bytes) => Ok(KeyRow::Der(bytes.copy()?)),
            KeyRow::Free => Ok(KeyRow::Free),
        }
    }

    /// Whether both are equal.
    pub fn same(&self, other: &KeyRow) -> bool
        ensures { IsTrue result ↔ (self.now ≡ other.now) }
    {
        match (self, other) {
            (KeyRow::Default, KeyRow::Default) => true,
            (KeyRow::Synthetic(a), KeyRow::Synthetic(b)) => *a == *b,
            (KeyRow::Der(a), KeyRow::Der(b)) => a.same(b),
            (KeyRow::Free, KeyRow::Free) => true,
            _ => false,
        }
    }
}

impl SignRow {
    /// An equal row.
    pub fn copy(&self) -> Result<SignRow, AllocError>
        ensures { IfOk result (λ r. r ≡ self.now) }
    {
        match self {
            SignRow::Issue {
                seconds,
                before,
                serial,
                key,
                ca,
            } => Ok(SignRow::Issue {
                seconds: *seconds,
                before: *before,
                serial: *serial,
                key: *key,
                ca: ca.copy()?,
            }),
            SignRow::Pending => Ok(SignRow::Pending),
            SignRow::Fail { message } => Ok(SignRow::Fail {
                message: message.copy()?,
            }),
            SignRow::Raw { der } => Ok(SignRow::Raw { der: der.copy()? }),
            SignRow::Free => Ok(SignRow::Free),
        }
    }

    /// Whether both are equal.
    pub fn same(&self, other: &SignRow) -> bool
        ensures { IsTrue result ↔ (self.now ≡ other.now) }
    {
        match (self, other) {
            (
                SignRow::Issue {
                    seconds: seconds_a,
                    before: before_a,
                    serial: serial_a,
                    key: key_a,
                    ca: ca_a,
                },
                SignRow::Issue {
                    seconds: seconds_b,
                    before: before_b,
                    serial: serial_b,
                    key: key_b,
                    ca: ca_b,
                },
            ) => {
                same_u64(*seconds_a, *seconds_b)
                    && *before_a == *before_b
                    && same_u64(*serial_a, *serial_b)
                    && same_u64(*key_a, *key_b)
                    && ca_a.same(ca_b)
            }
            (SignRow::Pending, SignRow::Pending) => true,
            (SignRow::Fail { message: a }, SignRow::Fail { message: b }) => a.same(b),
            (SignRow::Raw { der: a }, SignRow::Raw { der: b }) => a.same(b),
            (SignRow::Free, SignRow::Free) => true,
            _ => false,
        }
    }
}

/// The key rows of a Certificate, in the order of its questions.
pub type KeyRows = Items<KeyRow>;

impl Item for KeyRow {
    fn copy(&self) -> Result<KeyRow, AllocError> {
        KeyRow::copy(self)
    }

    fn same(&self, other: &KeyRow) -> bool {
        KeyRow::same(self, other)
    }
}

/// The reply rows of a Certificate, in the order of its questions.
pub type SignRows = Items<SignRow>;

impl Item for SignRow {
    fn copy(&self) -> Result<SignRow, AllocError> {
        SignRow::copy(self)
    }

    fn same(&self, other: &SignRow) -> bool {
        SignRow::same(self, other)
    }
}

/// What a scenario says of the keys and the issuer of one Certificate.
pub struct Rows {
    pub keys: KeyRows,
    pub replies: SignRows,
}

impl Drop for Rows {
    fn drop(self) {
        let Rows {
            keys: _keys,
            replies: _replies,
        } = self;
    }
}

impl Rows {
    /// Equal rows.
    pub fn copy(&self) -> Result<Rows, AllocError>
        ensures { IfOk result (λ r. r ≡ self.now) }
    {
        Ok(Rows {
            keys: self.keys.copy()?,
            replies: self.replies.copy()?,
        })
    }
}
