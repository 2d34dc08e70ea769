//! How long files may be.

ghost use Rattle.std.specs.Prelude.{◌≡◌, map};
ghost use Rattle.wb_top.specs.Files.{has_fitting_length, first_long};

/// How many bytes a file has at most.
pub(crate) const MOST_BYTES: u64 = 4_194_304;

/// Whether a file is no longer than files may be.
#[tactic(auto, unfolding(crate::specs::Files::has_fitting_length))]
fn fits(bytes: &[u8]) -> bool
    ensures { result ≡ has_fitting_length bytes.now }
{
    bytes.len() as u64 <= MOST_BYTES
}

/// The number of the first file that is too long, from 0.
pub(crate) fn first_long(contents: &[Vec<u8>]) -> Option<usize>
    ensures { result ≡ first_long 0 (map (λ bytes. bytes.items) contents.now) }
{
    let mut number = 0usize;
    for bytes in contents {
        if !fits(bytes) {
            return Some(number);
        }
        number += 1;
    }
    None
}
