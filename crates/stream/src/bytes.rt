// Words as bytes, lowest first.
ghost use Rattle.std.specs.Prelude.{◌≡◌, ◌+◌, ◌≤◌, length, drop};
ghost use Rattle.std.proofs.lemmas.List.Edits.{sets};
ghost use Rattle.stream.specs.Bytes.{bytes_of, word_in, all_zero};

// Whether every byte is zero.
pub fn is_all_zero(bytes: &[u8]) -> bool
    ensures { result ≡ all_zero bytes.now }
{
    bytes.iter().all(|byte| *byte == 0)
}

// The word whose bytes stand at `at`.
pub fn word_at(bytes: &[u8], at: usize) -> u64
    requires { at + 8 ≤ length bytes.now }
    ensures { result ≡ word_in (drop at bytes.now) }
{
    let mut eight = [0u8; 8];
    eight.copy_from_slice(&bytes[at..at + 8]);
    u64::from_le_bytes(eight)
}

// Puts the eight bytes of `word` at `at`, those of them that `dest` has room for.
pub fn put_word(dest: &mut [u8], at: usize, word: u64)
    ensures { dest.new ≡ sets dest.old at (bytes_of 8 word) }
{
    let end = at.saturating_add(8).min(dest.len());
    if at < end {
        dest[at..end].copy_from_slice(&word.to_le_bytes()[..end - at]);
    }
}

// 32 bytes with those of `word` at `at`.
pub fn with_word(bytes: [u8; 32], at: usize, word: u64) -> [u8; 32]
    ensures { result ≡ sets bytes at (bytes_of 8 word) }
{
    let mut changed = bytes;
    put_word(&mut changed, at, word);
    changed
}
