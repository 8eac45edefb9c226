//! 32-bit little-endian words in slices of bytes.
#![tactic(auto)]

ghost use Rattle.words.specs.Words.{encoded, first_words, read_at};
ghost use Rattle.std.specs.Prelude.{◌≡◌, IfOk};

use std::alloc::{AllocError, Global};

/// The word whose four bytes begin at byte `at`, or nothing where the slice ends before the fourth.
pub fn read(bytes: &[u8], at: usize) -> Option<u32>
    ensures { result ≡ read_at bytes.now at }
{
    let word = bytes.get(at..)?.first_chunk()?;
    Some(u32::from_le_bytes(*word))
}

/// The first `N` words of the bytes, or nothing where the slice ends before the last of them.
pub fn first<const N: usize>(bytes: &[u8]) -> Option<[u32; N]>
    ensures { result ≡ first_words N bytes.now }
{
    let mut words = [0; N];
    for (place, word) in words.iter_mut().enumerate() {
        *word = read(bytes, 4 * place)?;
    }
    Some(words)
}

/// The bytes of words, one word after the other.
pub fn encode(heap: Global, words: &[u32]) -> Result<Vec<u8>, AllocError>
    ensures { IfOk result (λ bytes. bytes.items ≡ encoded words.now) }
{
    let mut bytes = Vec::new(heap);
    for word in words {
        bytes.extend_from_slice(&word.to_le_bytes())?;
    }
    Ok(bytes)
}

#[cfg(test)]
mod tests {
    use super::*;
    use std::test::Fail;

    #[test]
    fn words_are_encoded_lowest_byte_first(rt: HostRuntime) -> Result<(), Fail> {
        let bytes = encode(rt.alloc(), &[1, 4_294_967_040])?;
        assert_eq!(rt; bytes.as_slice(), [1, 0, 0, 0, 0, 255, 255, 255].as_slice());
        Ok(())
    }
}
