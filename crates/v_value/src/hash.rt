//! Hashes of names.
ghost use Rattle.std.specs.Prelude.{◌≡◌};
ghost use Rattle.v_value.specs.Hash.{hash_of};

/// The hash of a name. Names that differ in their last letters alone have hashes that stand close together.
#[tactic(auto, unfolding(crate::specs::Hash::hash_of))]
pub fn hash_of(name: &str) -> u64
    ensures { result ≡ hash_of name.now }
{
    let mut hash = 0_u64;
    for byte in name.as_bytes() {
        hash = hash.wrapping_mul(257).wrapping_add(u64::from(*byte));
    }
    hash
}
