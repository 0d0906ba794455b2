//! Object identifiers, as the contents octets of their values (X.690, 8.19).

/// rsaEncryption, 1.2.840.113549.1.1.1 (RFC 8017, A.1).
pub const RSA_ENCRYPTION: [u8; 9] = [42, 134, 72, 134, 247, 13, 1, 1, 1];

/// id-ecPublicKey, 1.2.840.10045.2.1 (RFC 5480, 2.1.1).
pub const EC_PUBLIC_KEY: [u8; 7] = [42, 134, 72, 206, 61, 2, 1];

/// secp256r1, the curve P-256, 1.2.840.10045.3.1.7 (RFC 5480, 2.1.1.1).
pub const SECP256R1: [u8; 8] = [42, 134, 72, 206, 61, 3, 1, 7];

/// secp384r1, the curve P-384, 1.3.132.0.34.
pub const SECP384R1: [u8; 5] = [43, 129, 4, 0, 34];

/// secp521r1, the curve P-521, 1.3.132.0.35.
pub const SECP521R1: [u8; 5] = [43, 129, 4, 0, 35];
