// Hashes of bytes, byte by byte: that of a text goes on from that of its beginning.
ghost use Rattle.std.specs.Prelude.{◌≡◌};
ghost use Rattle.system.specs.internal.Hashing as hashing;

/// The hash of bytes behind others that have this hash.
pub fn hash_onto(hash: u64, bytes: &[u8]) -> u64
    ensures { result ≡ hashing.hash_onto hash bytes.now }
{
    let mut mixed = hash;
    for byte in bytes {
        mixed = mix(mixed, *byte);
    }
    mixed
}

/// The hash with one byte more. The factor is odd, and far from a power of two.
#[tactic(auto, unfolding(crate::specs::internal::Hashing::mixed))]
fn mix(hash: u64, byte: u8) -> u64
    ensures { result ≡ hashing.mixed hash byte }
{
    hash.wrapping_mul(11400714819323198485)
        .wrapping_add(u64::from(byte))
}
