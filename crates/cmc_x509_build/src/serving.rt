//! Laws: what `cmc_x509` reads may be handed to what is built here.
ghost use Rattle.std.specs.Prelude.{List, ℕ, IsSome};
ghost use Rattle.cmc_der.specs.Keys.{PublicKey, RequestFields, key_kind_of};
ghost use Rattle.cmc_x509.specs.Certificates.{IsRequest};
ghost use Rattle.cmc_x509.specs.KeyFiles.{IsKeyFile};
ghost use Rattle.cmc_x509.specs.Lists.{IsValueList};
ghost use Rattle.cmc_x509_build.specs.Keys.{IsWritable};

/// A law: the alternative names of a request that was read are values, and its key, where its algorithm is known,
/// is one that a SubjectPublicKeyInfo is built of.
pub fn request_serves()
    ensures names { (octets : List ℕ) (fields : RequestFields) → IsRequest octets fields
        → IsValueList fields.names.alternative }
    ensures key { (octets : List ℕ) (fields : RequestFields) → IsRequest octets fields
        → IsSome (key_kind_of fields.key) → IsWritable fields.key }
{}

/// A law: so is the key of a key file.
pub fn key_file_serves()
    ensures { (octets : List ℕ) (key : PublicKey) → IsKeyFile octets key → IsWritable key }
{}
