// Parts of lent memory written.
ghost use Rattle.std.specs.Prelude.{◌≡◌};
ghost use Rattle.std.proofs.lemmas.List.Edits.{sets};

// Writes a part over the entries from a place on, as many as there is room for; `plan`, below this, has its own for words.
pub fn set<T: Copy>(entries: &mut [T], at: usize, part: &[T])
    ensures { entries.new ≡ sets entries.old at part.now }
{
    if entries.len() <= at {
        return;
    }
    let n = part.len().min(entries.len() - at);
    entries[at..at + n].copy_from_slice(&part[..n]);
}
