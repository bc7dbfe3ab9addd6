// Writes the words of a node: one copy for all of them.
#![tactic(auto)]

ghost use Rattle.std.specs.Prelude.{◌+◌, ◌≤◌, length};
ghost use Rattle.code_put.specs.Put.{Put};

// Writes the first n of some words at o.
pub fn put_words(code: &mut [u32], o: usize, words: &[u32], n: usize)
    requires n_in_bounds { n ≤ length words.now }
    requires n_in_bounds_2 { o + n ≤ length code.old }
    ensures { Put code.old o words.now n code.new }
{
    code[o..o + n].copy_from_slice(&words[..n]);
}
