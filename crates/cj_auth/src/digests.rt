//! Digests of passwords, as text and as bytes.

ghost use Rattle.std.specs.Prelude.{◌≡◌, Ok, true};
ghost use Rattle.std.specs.Str.{bytes_eq};
ghost use Rattle.hex.specs.Hex.{decode_of};
ghost use Rattle.cj_auth.specs.Digests as digests;

use hex::FromHex;

/// Whether the text is 64 hexadecimal digits, in either case.
pub fn is_digest(text: &[u8]) -> bool
    ensures { result ≡ digests.is_digest text.now }
{
    <[u8; 32] as FromHex>::from_hex(text).is_ok()
}

/// The bytes that a digest's digits spell.
pub fn key_of(digest: &[u8]) -> [u8; 32]
    requires { digests.is_digest digest.now ≡ true }
    ensures { decode_of digest.now ≡ Ok result }
{
    <[u8; 32] as FromHex>::from_hex(digest).unwrap()
}

/// Whether two keys are equal. Every byte is compared, wherever the first difference is.
pub fn is_same_key(key: &[u8; 32], other: &[u8; 32]) -> bool
    ensures { result ≡ bytes_eq key.now other.now }
{
    let mut difference: u8 = 0;
    for i in 0..32 {
        difference |= key[i] ^ other[i];
    }
    difference == 0
}
