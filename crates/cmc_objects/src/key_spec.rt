ghost use Rattle.std.specs.Prelude.{◌≡◌, ◌↔◌, IsTrue};

use crate::optional::same_u32;

/// The algorithm of a private key (`privateKey.algorithm`).
#[derive(Clone, Copy)]
pub enum Algorithm {
    Rsa,
    Ecdsa,
}

/// The encoding of a private key (`privateKey.encoding`).
#[derive(Clone, Copy)]
pub enum Encoding {
    Pkcs1,
    Pkcs8,
}

impl Algorithm {
    /// Whether both are one.
    pub fn same(self, other: Algorithm) -> bool
        ensures { IsTrue result ↔ (self ≡ other) }
    {
        match (self, other) {
            (Algorithm::Rsa, Algorithm::Rsa) => true,
            (Algorithm::Ecdsa, Algorithm::Ecdsa) => true,
            _ => false,
        }
    }
}

impl Encoding {
    /// Whether both are one.
    pub fn same(self, other: Encoding) -> bool
        ensures { IsTrue result ↔ (self ≡ other) }
    {
        match (self, other) {
            (Encoding::Pkcs1, Encoding::Pkcs1) => true,
            (Encoding::Pkcs8, Encoding::Pkcs8) => true,
            _ => false,
        }
    }
}

/// Whether a reissue makes a new private key (`privateKey.rotationPolicy`).
#[derive(Clone, Copy)]
pub enum Rotation {
    Always,
    Never,
}

/// What a Certificate asks of its private key (cert-manager.io/v1 `privateKey`).
#[derive(Clone, Copy)]
pub struct KeySpec {
    pub algorithm: Option<Algorithm>,
    /// Bits of an RSA modulus, or the width of an ECDSA curve.
    pub size: Option<u32>,
    pub encoding: Option<Encoding>,
    pub rotation: Option<Rotation>,
}

impl KeySpec {
    ghost use Rattle.cmc_objects.specs.Defaults.{key_algorithm, key_size, key_encoding, key_rotation};

    /// The algorithm that counts: RSA where none is given.
    pub fn algorithm_at_use(&self) -> Algorithm
        ensures { result ≡ key_algorithm self.now }
    {
        match self.algorithm {
            Some(algorithm) => algorithm,
            None => Algorithm::Rsa,
        }
    }

    /// The size that counts: 2048 for RSA and 256 for ECDSA where none is given.
    pub fn size_at_use(&self) -> u32
        ensures { result ≡ key_size self.now }
    {
        match self.size {
            Some(size) => size,
            None => match self.algorithm_at_use() {
                Algorithm::Rsa => 2048,
                Algorithm::Ecdsa => 256,
            },
        }
    }

    /// The encoding that counts: PKCS1 where none is given.
    pub fn encoding_at_use(&self) -> Encoding
        ensures { result ≡ key_encoding self.now }
    {
        match self.encoding {
            Some(encoding) => encoding,
            None => Encoding::Pkcs1,
        }
    }

    /// The rotation policy that counts: `Always` where none is given.
    pub fn rotation_at_use(&self) -> Rotation
        ensures { result ≡ key_rotation self.now }
    {
        match self.rotation {
            Some(rotation) => rotation,
            None => Rotation::Always,
        }
    }

    /// Whether both are equal in each field, an absent one being equal to an absent one alone.
    pub fn same(&self, other: &KeySpec) -> bool
        ensures { IsTrue result ↔ (self.now ≡ other.now) }
    {
        same_algorithm(self.algorithm, other.algorithm)
            && same_u32(self.size, other.size)
            && same_encoding(self.encoding, other.encoding)
            && same_rotation(self.rotation, other.rotation)
    }
}

fn same_algorithm(left: Option<Algorithm>, right: Option<Algorithm>) -> bool
    ensures { IsTrue result ↔ (left ≡ right) }
{
    match (left, right) {
        (Some(Algorithm::Rsa), Some(Algorithm::Rsa)) => true,
        (Some(Algorithm::Ecdsa), Some(Algorithm::Ecdsa)) => true,
        (None, None) => true,
        _ => false,
    }
}

fn same_encoding(left: Option<Encoding>, right: Option<Encoding>) -> bool
    ensures { IsTrue result ↔ (left ≡ right) }
{
    match (left, right) {
        (Some(Encoding::Pkcs1), Some(Encoding::Pkcs1)) => true,
        (Some(Encoding::Pkcs8), Some(Encoding::Pkcs8)) => true,
        (None, None) => true,
        _ => false,
    }
}

fn same_rotation(left: Option<Rotation>, right: Option<Rotation>) -> bool
    ensures { IsTrue result ↔ (left ≡ right) }
{
    match (left, right) {
        (Some(Rotation::Always), Some(Rotation::Always)) => true,
        (Some(Rotation::Never), Some(Rotation::Never)) => true,
        (None, None) => true,
        _ => false,
    }
}
