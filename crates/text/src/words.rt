// A term's words from the bytes of a file.
ghost use Rattle.std.specs.Prelude.{◌≡◌};
ghost use Rattle.std.proofs.lemmas.List.Edits.{sets};
ghost use Rattle.text.specs.Pairs.{pairs, allowed};

// Whether bytes are words, and no more than a term can have.
#[tactic(auto, unfolding(crate::specs::Pairs::allowed))]
pub fn allowed(bytes: &[u8]) -> bool
    ensures { result ≡ allowed bytes.now }
{
    bytes.len() <= 2048 && bytes.len() % 2 == 0
}

// Stores the words of two bytes each at the start of `words`, as many as there is room for.
pub fn of_bytes(bytes: &[u8], words: &mut [u16])
    ensures { words.new ≡ sets words.old 0 (pairs bytes.now) }
{
    let count = words.len().min(bytes.len() / 2);
    // by index, since nothing is known of the elements behind a zip of `iter_mut`
    for (i, word) in words[..count].iter_mut().enumerate() {
        *word = u16::from_le_bytes([bytes[2 * i], bytes[2 * i + 1]]);
    }
}
