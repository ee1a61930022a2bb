// Runs of words in a buffer: one that fills with a word, and one that copies.
#![tactic(auto)]

ghost use Rattle.std.specs.Prelude.{◌≡◌, ◌+◌, ◌≤◌, length, replicate};
ghost use Rattle.std.proofs.lemmas.List.Edits.{sets};
ghost use Rattle.model.specs.Objects.{part};

pub fn fill(words: &mut [u16], at: usize, count: usize, w: u16)
    requires { at + count ≤ length words.old }
    ensures { words.new ≡ sets words.old at (replicate count w) }
{
    words[at..at + count].fill(w);
}

// The first two words by themselves: a loop is compiled to a call, and few sends have more arguments. By hand, as `copy_from_slice` calls
// memmove, and of C's library only memcpy and memset are called (tests/package).
pub fn copy(words: &mut [u16], at: usize, source: &[u16], from: usize, count: usize)
    requires { (at + count ≤ length words.old) × (from + count ≤ length source.now) }
    ensures { words.new ≡ sets words.old at (part source.now from count) }
{
    if count == 0 {
        return;
    }
    words[at] = source[from];
    if count == 1 {
        return;
    }
    words[at + 1] = source[from + 1];
    for i in 2..count {
        words[at + i] = source[from + i];
    }
}
