//! The hash of a name, which the index of names uses.

ghost use Rattle.std.specs.Prelude.{◌≡◌, ◌<◌, length};
ghost use Rattle.csi_maps.specs.Hashing.{hashed, name_hash, word_hashed};

// An odd number without a pattern in its bits: 2^64 divided by the golden ratio.
const MULTIPLIER: u64 = 0x9e37_79b9_7f4a_7c15;

// Returns the hash after one more word. For a fixed hash, different words give different results. So two
// names of the same length that differ in only one word have different hashes.
#[inline(always)]
fn hash_word(hash: u64, word: u64) -> u64
    ensures { result ≡ word_hashed hash word }
{
    let product = (hash ^ word).wrapping_mul(MULTIPLIER);
    product ^ (product >> 32)
}

// Returns the hash after the last bytes of a name. There are fewer than eight, and each byte counts as a
// word.
#[inline(always)]
#[tactic(auto, using(crate::proofs::HashLemmas::byte_next))]
fn hash_tail(start: u64, tail: &[u8]) -> u64
    requires { length tail.now < 8 }
    ensures { result ≡ hashed start tail.now }
{
    let mut hash = start;
    for byte in tail {
        hash = hash_word(hash, u64::from(*byte));
    }
    hash
}

/// Returns the hash of a name, which depends on all of its bytes. Different names rarely have the same hash.
#[tactic(auto, using(crate::proofs::HashLemmas::word_first), unfolding(crate::specs::Hashing::name_hash))]
pub(crate) fn name_hash(name: &[u8]) -> u64
    ensures { result ≡ name_hash name.now }
{
    let (mut hash, mut rest) = (0, name);
    while let Some((word, others)) = rest.split_first_chunk::<8>() {
        hash = hash_word(hash, u64::from_le_bytes(*word));
        rest = others;
    }
    hash_tail(hash, rest)
}
