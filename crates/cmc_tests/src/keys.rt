//! What no clause says: that keys and signatures are made where memory is ample, and that stand-in keys have the
//! octets that another writer of DER gave. openssl reads each of those as DER.
use crate::checks::{passes, tells};
use crate::made_keys;
use crate::values::{column, made, name, number, octets};
use crate::whole::bytes;
use cmc_keys::{
    KeyMaker, Made, ScriptedKeys, SignedCsr, is_allowed_size, is_key_of, one_key_value,
    synthetic_key, synthetic_keys_fit,
};
use cmc_meta::{Bytes, Key, Kind};
use cmc_objects::{Algorithm, CsrOrder, Encoding, KeyOrder, KeyRow, Shared};
use sha2::{Digest, Sha256};
use std::alloc::{AllocError, Global};
use std::test::Fail;

/// A sort of key.
#[derive(Clone, Copy)]
struct Sort {
    algorithm: Algorithm,
    size: u32,
    encoding: Encoding,
}

fn algorithm(word: &str) -> Algorithm {
    match word {
        "RSA" => Algorithm::Rsa,
        _ => Algorithm::Ecdsa,
    }
}

fn encoding(word: &str) -> Encoding {
    match word {
        "PKCS1" => Encoding::Pkcs1,
        _ => Encoding::Pkcs8,
    }
}

/// The sort that a row has in the columns from this place on: algorithm, size and encoding.
fn sort_in(row: &str, algorithm_at: u32, size_at: u32, encoding_at: u32) -> Sort {
    Sort {
        algorithm: algorithm(column(row, algorithm_at)),
        size: column(row, size_at).parse::<u32>().unwrap_or(0),
        encoding: encoding(column(row, encoding_at)),
    }
}

/// The sort of a key, its number, how many octets its file has, and their SHA-256 digest, as Python's hashlib gives it.
static STAND_INS: [&str; 30] = [
    "RSA|2048|PKCS1|7|291|7c4b046e70d48e5e7482a0d7cf9086a4e0d8642d68bd815e6e69904123df38f9",
    "RSA|2048|PKCS8|7|317|016aaee68bee0616cd9f5f743b1de0011ff95fce16dac45801a30d092addbe34",
    "RSA|3072|PKCS1|7|419|41560ea39eca9a20a78b704d61c24f9ed20fd7c1cd3cddf0faff22d9bec8cdcc",
    "RSA|3072|PKCS8|7|445|e667ee856acd37616415a56b450a5a89ba24622bed26114b38cf9a20187f5d35",
    "RSA|4096|PKCS1|7|547|8b4e23c1382a30152ebb8436dc62f36631bf46b78b3f5d0bcdc6b051a0be7e14",
    "RSA|4096|PKCS8|7|573|d5c3e85dc80b2600a32521567dbed0e9fa369f9d7c98e5722acee365077d816e",
    "RSA|8192|PKCS1|7|1059|ffddfe0a8bb2de5caea30867ceb40582bb62104cb2dac0ab0b5d3e5c031e3647",
    "RSA|8192|PKCS8|7|1085|0347fe4b97982447fa7daf55b2b27ab991adcc3163c3c6230e7873642f2b4f67",
    "ECDSA|256|PKCS1|7|121|6fde3bdc6b4dac1cd4da85e34aba81195dd8c8196914b7a8a9a8ac78caa202c2",
    "ECDSA|256|PKCS8|7|138|0ac7f24191f9e6d9bee01ac42c6c7065db23eea6c442302614b5bb2fac76b873",
    "ECDSA|384|PKCS1|7|167|7a8e0b69a9d35ecfe40dfff15da5e0d9b9ae571181b6f74594f1294ee05dab8a",
    "ECDSA|384|PKCS8|7|185|c51d26f4740c44b83691f2f16143e5c7b05446599e9bbf30fdf29a26b32a14a9",
    "ECDSA|521|PKCS1|7|223|b40e7ef39282da7ad69f37163fc8c79623b7f74fae43c0933d6811b9f70ed6f9",
    "ECDSA|521|PKCS8|7|241|4b18797e2d9f155269eb2e66e265495762029804710217ef2f0697106753160c",
    "RSA|2048|PKCS1|0|291|c86ae82f2a3fbea57659fff9b7ada5274a42ae57f6c04e13c674abfd3bb55449",
    "RSA|2048|PKCS8|0|317|ab72fc133ba872dbdd4117bcd1fe2f03921a7921dc468e628ce2dcbb165eb157",
    "ECDSA|256|PKCS1|0|121|010b64da8cb5af1a795b50d4e6e90a15b78c2a88c052dee294a96a2c72c99ec9",
    "ECDSA|256|PKCS8|0|138|7464e6cdbcad33f935d3184c3294f31c445bcfa70a57a7678a5463733c14029c",
    "ECDSA|384|PKCS1|0|167|797058660d96c3278930793b3f818a75a4cfac9fd67cd470aafbb8d918a95d86",
    "ECDSA|384|PKCS8|0|185|47e3934f5e5066591bd8810b0f6cf3f4f1bf50a4b8439ee2a3167f0125e1063d",
    "ECDSA|521|PKCS1|0|223|8cc0c235a6f3eecff729afece4d3bd28d733ac78388a214f4da731d76289e676",
    "ECDSA|521|PKCS8|0|241|8cbf3d00a6bae3ce34e304e580b3628c710614d82fa4ac4361b70e4d14682e0e",
    "RSA|2048|PKCS1|18446744073709551615|291|90f158e9caa2c8186503201058a2d073cd671951b2d1eb6083571f44bcf87735",
    "RSA|2048|PKCS8|18446744073709551615|317|5c8f5cf00fd2ea92eef3d3fc5d20a9a8b7affb7c52cc199fde41989188c2bfbd",
    "ECDSA|256|PKCS1|18446744073709551615|121|01ab95244165cc9b9ff081ce63cce0ab59b3acb7f0309dbf4b15e83caf1f84d6",
    "ECDSA|256|PKCS8|18446744073709551615|138|a800b2688f79827c12874f32e0107450e0028ce22d397d7f796a012ecbc3eb6b",
    "ECDSA|384|PKCS1|18446744073709551615|167|0fc8968db85b76afdaec5d82d0a744e90595b04c4462ebeda9a91997125c616a",
    "ECDSA|384|PKCS8|18446744073709551615|185|09f373b8e2728a8333b5203586e86f5329cba790aa91c8b02827985b5c887ffa",
    "ECDSA|521|PKCS1|18446744073709551615|223|81e789bebb05d98e1be354dc35fa2ea892a2e5113fb5fba16b04c83d66ef8f8a",
    "ECDSA|521|PKCS8|18446744073709551615|241|51d8977a65cc03c82aee0d08b633210ba1e42bbd3b6b524ecc15d7bc14e507e9",
];

/// What the question's row says, the Certificate's namespace and name, the number of the question, the sort of key that is
/// asked for, and the SHA-256 digest of the file that answers. A row is named `default`, `free`, `synthetic` (of the number
/// 7) or by the file of openssl that it holds.
static ANSWERS: [&str; 17] = [
    "default|default|web|1|ECDSA|256|PKCS1|c9da66c2cec72a8251bd98c4184ede3aecb16aa01e7a381b51be84b3ad4b78f9",
    "default|default|web|2|ECDSA|256|PKCS1|fc274567cd137459209cd1328882d67f710a176ec49797ecb3452180c7fed207",
    "default|load|c0001|1|ECDSA|256|PKCS1|7edffc84fb64eb507d7bc55b33a07d907d7f1b31c919be79cf64a05dd9054263",
    "default|default|web|1|ECDSA|521|PKCS8|2c42c737112eacfff1371544e27d0d925ec7364bca066ec14c6d41aa592f2dd1",
    "default|default|web|1|RSA|2048|PKCS8|d953c260e1a96a0c0a0a31b35a7ff590507deaa6dd3548700acaaf7496f366a8",
    "free|default|web|1|ECDSA|384|PKCS1|54d14bf38f296e0b5a7bce135860b501876d7517a11196b8cab2b42e283b6b0e",
    "synthetic|default|web|1|ECDSA|256|PKCS1|6fde3bdc6b4dac1cd4da85e34aba81195dd8c8196914b7a8a9a8ac78caa202c2",
    "synthetic|default|web|1|ECDSA|384|PKCS1|7a8e0b69a9d35ecfe40dfff15da5e0d9b9ae571181b6f74594f1294ee05dab8a",
    "p256 as ECPrivateKey|default|web|1|ECDSA|256|PKCS1|984510c9b2630190408a2d44483c2c922f89033e735e09784e25c66a4f4dc478",
    "p256 as ECPrivateKey|default|web|1|ECDSA|256|PKCS8|984510c9b2630190408a2d44483c2c922f89033e735e09784e25c66a4f4dc478",
    "p256 as ECPrivateKey|default|web|1|ECDSA|384|PKCS1|54d14bf38f296e0b5a7bce135860b501876d7517a11196b8cab2b42e283b6b0e",
    "p256 as ECPrivateKey|default|web|1|RSA|2048|PKCS1|438f4ac2e3f201da7e30eabad42ad32f7dfd6f31d897c20686e37313a438fdfe",
    "rsa as RSAPrivateKey|default|web|1|RSA|2048|PKCS1|9c005e8ea16dab9be1a825fc2ff8129c82186a44088fed7ed7405d000056a7e9",
    "rsa as RSAPrivateKey|default|web|1|RSA|3072|PKCS1|9527c4e81d84e0b79e94cae2f06d3ccb597b06ab997e8a377f8ca7ef9fb8c79e",
    "rsa as RSAPrivateKey|default|web|1|ECDSA|256|PKCS1|c9da66c2cec72a8251bd98c4184ede3aecb16aa01e7a381b51be84b3ad4b78f9",
    "empty|default|web|1|ECDSA|256|PKCS1|c9da66c2cec72a8251bd98c4184ede3aecb16aa01e7a381b51be84b3ad4b78f9",
    "three zeros|default|web|1|ECDSA|256|PKCS1|c9da66c2cec72a8251bd98c4184ede3aecb16aa01e7a381b51be84b3ad4b78f9",
];

/// The sorts of keys, each with how the file of its stand-in key of number 1 is called in `made_keys::built`.
static SORTS: [&str; 8] = [
    "RSA|2048|PKCS1|synthetic RSA as RSAPrivateKey",
    "RSA|2048|PKCS8|synthetic RSA as PrivateKeyInfo",
    "ECDSA|256|PKCS1|synthetic P-256 as ECPrivateKey",
    "ECDSA|256|PKCS8|synthetic P-256 as PrivateKeyInfo",
    "ECDSA|384|PKCS1|synthetic P-384 as ECPrivateKey",
    "ECDSA|384|PKCS8|synthetic P-384 as PrivateKeyInfo",
    "ECDSA|521|PKCS1|synthetic P-521 as ECPrivateKey",
    "ECDSA|521|PKCS8|synthetic P-521 as PrivateKeyInfo",
];

fn digest(octets: &[u8]) -> [u8; 32] {
    let mut hasher = Sha256::new();
    hasher.update(octets);
    hasher.finalize()
}

fn has_octets(alloc: Global, file: &[u8], want: &str) -> Result<bool, AllocError> {
    Ok(file == octets(alloc, want)?.as_slice())
}

fn has_digest(alloc: Global, file: &[u8], want: &str) -> Result<bool, AllocError> {
    has_octets(alloc, &digest(file), want)
}

/// The stand-in key of this sort, where it is one that may be asked for.
fn stand_in(alloc: Global, sort: Sort, number: u64) -> Result<Bytes, Fail> {
    if !is_allowed_size(sort.algorithm, sort.size) {
        return Err(Fail::from("another size"));
    }
    Ok(synthetic_key(alloc, sort.algorithm, sort.size, sort.encoding, number)?)
}

static SIZES: [u32; 7] = [2048, 3072, 4096, 8192, 256, 384, 521];

/// The file is a key of this sort, in whichever encoding, and of no other algorithm or size.
fn is_of_sort(file: &[u8], sort: Sort) -> bool {
    let is_rsa = matches!(sort.algorithm, Algorithm::Rsa);
    for size in &SIZES {
        let is_size = sort.size == *size;
        if is_key_of(Algorithm::Rsa, *size, file) != (is_rsa && is_size)
            || is_key_of(Algorithm::Ecdsa, *size, file) != (!is_rsa && is_size)
        {
            return false;
        }
    }
    true
}

/// The number in this column, which has one.
fn number_at(row: &str, place: u32) -> u64 {
    number(column(row, place)).unwrap_or(0)
}

/// Whether the file of the row's key has so many octets, that digest, and is of the sort.
fn file_told(
    alloc: Global,
    row: &str,
    sort: Sort,
    octets: &[u8],
) -> Result<&'static str, AllocError> {
    if octets.len() as u64 != number_at(row, 4) {
        return Ok("another length");
    }
    if !is_of_sort(octets, sort) {
        return Ok("another sort");
    }
    match has_digest(alloc, octets, column(row, 5))? {
        true => Ok("as wanted"),
        false => Ok("another digest"),
    }
}

fn stand_in_told(alloc: Global, row: &str) -> Result<&'static str, Fail> {
    let sort = sort_in(row, 0, 1, 2);
    let file = stand_in(alloc, sort, number_at(row, 3))?;
    Ok(file_told(alloc, row, sort, file.as_slice())?)
}

#[test]
fn writes_stand_in_keys(rt: HostRuntime) -> Result<(), Fail> {
    for row in &STAND_INS {
        tells(&rt, row, stand_in_told(rt.alloc(), row)?, "as wanted");
    }
    synthetic_keys_fit();
    Ok(())
}

fn is_stand_in(alloc: Global, row: &str, want: &Bytes) -> Result<bool, Fail> {
    Ok(stand_in(alloc, sort_in(row, 0, 1, 2), 1)?.same(want))
}

fn is_whole_file(alloc: Global, row: &str) -> Result<bool, Fail> {
    let want = made(alloc, &[made_keys::built()], column(row, 3))?;
    is_stand_in(alloc, row, &want)
}

#[test]
fn writes_whole_files(rt: HostRuntime) -> Result<(), Fail> {
    for row in &SORTS {
        passes(&rt, row, is_whole_file(rt.alloc(), row)?);
    }
    Ok(())
}

/// A size, and whether RSA and ECDSA keys may have it.
static ALLOWED: [(&str, u32, bool, bool); 14] = [
    ("2048", 2048, true, false),
    ("3072", 3072, true, false),
    ("4096", 4096, true, false),
    ("8192", 8192, true, false),
    ("256", 256, false, true),
    ("384", 384, false, true),
    ("521", 521, false, true),
    ("0", 0, false, false),
    ("224", 224, false, false),
    ("512", 512, false, false),
    ("1024", 1024, false, false),
    ("2049", 2049, false, false),
    ("16384", 16_384, false, false),
    ("4294967295", 4_294_967_295, false, false),
];

#[test]
fn allows_sizes(rt: HostRuntime) {
    for (row, size, rsa, ecdsa) in &ALLOWED {
        passes(&rt, row, is_allowed_size(Algorithm::Rsa, *size) == *rsa);
        passes(&rt, row, is_allowed_size(Algorithm::Ecdsa, *size) == *ecdsa);
    }
}

fn row_called(alloc: Global, word: &str) -> Result<KeyRow, Fail> {
    match word {
        "default" => Ok(KeyRow::Default),
        "free" => Ok(KeyRow::Free),
        "synthetic" => Ok(KeyRow::Synthetic(7)),
        "empty" => Ok(KeyRow::Der(Bytes::new(alloc))),
        "three zeros" => Ok(KeyRow::Der(bytes(alloc)?)),
        _ => Ok(KeyRow::Der(made(alloc, &[made_keys::made()], word)?)),
    }
}

fn certificate_of(alloc: Global, row: &str) -> Result<Key, Fail> {
    let namespace = name(alloc, column(row, 1))?;
    Ok(Key {
        kind: Kind::Certificate,
        namespace,
        name: name(alloc, column(row, 2))?,
    })
}

fn question(alloc: Global, row: &str) -> Result<Shared<KeyOrder>, Fail> {
    let certificate = certificate_of(alloc, row)?;
    let sort = sort_in(row, 4, 5, 6);
    let order = KeyOrder {
        number: number_at(row, 3),
        certificate,
        algorithm: sort.algorithm,
        size: sort.size,
        encoding: sort.encoding,
        row: row_called(alloc, column(row, 0))?,
    };
    Ok(Shared::new(alloc, order)?)
}

/// The parts of the answer make an answer that is read as the other one.
fn is_made_again(made: Made, other: &Made) -> bool {
    let (asked, file) = made.into_parts();
    let again = Made::new(asked, file);
    again.order().same(other.order()) && again.bytes() == other.bytes()
}

fn made_for(alloc: Global, order: &Shared<KeyOrder>) -> Result<Made, Fail> {
    if !is_allowed_size(order.algorithm, order.size) {
        return Err(Fail::from("another size"));
    }
    Ok(ScriptedKeys.make(alloc, order)?)
}

fn is_read(made: &Made, order: &KeyOrder) -> bool {
    made.order().same(order) && is_key_of(order.algorithm, order.size, made.bytes())
}

/// The copy's parts make an answer that is read as the answer.
fn is_copied(made: &Made) -> Result<bool, AllocError> {
    Ok(is_made_again(made.copy()?, made))
}

/// What is read of an answer, of its copy and of its parts.
fn is_right(alloc: Global, made: &Made, order: &KeyOrder, want: &str) -> Result<bool, AllocError> {
    let is_file = has_digest(alloc, made.bytes(), want)?;
    Ok(is_file && is_read(made, order) && is_copied(made)?)
}

fn is_answer(alloc: Global, order: &Shared<KeyOrder>, want: &str) -> Result<bool, Fail> {
    let made = made_for(alloc, order)?;
    Ok(is_right(alloc, &made, order, want)?)
}

fn is_answered(alloc: Global, row: &str) -> Result<bool, Fail> {
    let order = question(alloc, row)?;
    is_answer(alloc, &order, column(row, 7))
}

#[test]
fn makes_keys_by_the_row(rt: HostRuntime) -> Result<(), Fail> {
    for row in &ANSWERS {
        passes(&rt, row, is_answered(rt.alloc(), row)?);
    }
    one_key_value();
    Ok(())
}

fn is_signed_again(signed: SignedCsr, other: &SignedCsr) -> bool {
    let (order, signature) = signed.into_parts();
    let again = SignedCsr::new(order, signature);
    again.order().same(other.order()) && again.signature() == other.signature()
}

fn body_order(alloc: Global, file: &str, body: &str) -> Result<Shared<CsrOrder>, Fail> {
    let key = made(alloc, &[made_keys::made()], file)?;
    let order = CsrOrder {
        key,
        body: Bytes::from_slice(alloc, body.as_bytes())?,
    };
    Ok(Shared::new(alloc, order)?)
}

fn is_signature_copied(signed: &SignedCsr) -> Result<bool, AllocError> {
    Ok(is_signed_again(signed.copy()?, signed))
}

/// What is read of a signature, of its copy and of its parts.
fn is_written(
    alloc: Global,
    signed: &SignedCsr,
    order: &CsrOrder,
    want: &str,
) -> Result<bool, AllocError> {
    let is_written = has_octets(alloc, signed.signature(), want)?;
    Ok(is_written && signed.order().same(order) && is_signature_copied(signed)?)
}

fn is_signature(alloc: Global, order: &Shared<CsrOrder>, want: &str) -> Result<bool, AllocError> {
    let signed = ScriptedKeys.sign(alloc, order)?;
    is_written(alloc, &signed, order, want)
}

fn is_signed(alloc: Global, row: &str) -> Result<bool, Fail> {
    let order = body_order(alloc, column(row, 0), column(row, 1))?;
    Ok(is_signature(alloc, &order, column(row, 2))?)
}

/// A key file, a body, and its signature.
static BODIES: [&str; 3] = [
    "p256 as ECPrivateKey||e3b0c44298fc1c149afbf4c8996fb92427ae41e4649b934ca495991b7852b855",
    "rsa as RSAPrivateKey||e3b0c44298fc1c149afbf4c8996fb92427ae41e4649b934ca495991b7852b855",
    "p256 as ECPrivateKey|abc|ba7816bf8f01cfea414140de5dae2223b00361a396177a9cb410ff61f20015ad",
];

#[test]
fn signs_bodies(rt: HostRuntime) -> Result<(), Fail> {
    for row in &BODIES {
        passes(&rt, row, is_signed(rt.alloc(), row)?);
    }
    Ok(())
}
