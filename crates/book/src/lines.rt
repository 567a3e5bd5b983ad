// The lines that a block run leaves: three words for each entry.
ghost use Rattle.std.specs.Prelude.{◌+◌, ◌≤◌, ◌≡◌, [], ◌∷◌, length};
ghost use Rattle.std.proofs.lemmas.List.Edits.{sets};

// The words of a line.
pub const LINE: usize = 3;

// Puts a line: the answer to an entry, the cents paid by it and the cents held. The place stays beside the lent words, and is no
// field of a struct with them, since `run` answers it and hands the words back.
pub fn put_line(lines: &mut [u64], k: usize, answer: u64, paid: u64, held: u64)
    requires { k + 3 ≤ length lines.old }
    ensures { lines.new ≡ sets lines.old k (answer ∷ paid ∷ held ∷ []) }
{
    lines[k..k + LINE].copy_from_slice(&[answer, paid, held]);
}
