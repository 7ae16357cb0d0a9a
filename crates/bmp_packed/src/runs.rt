//! Runs of equally many words, within a longer run.
ghost use Rattle.std.specs.Prelude.{◌≡◌, ◌+◌, ◌≤◌, length};
ghost use Rattle.bmp_linear.specs.Runs.{AreApart, AreRunsExchanged};
ghost use Rattle.bmp_packed.specs.Words.{AreWordsAdded, IsWordRunAdded};

/// Adds words to others, modulo 2 at each bit. Not inlined, so that it is known that `into` and `from` are
/// apart and the loop takes many words at once.
#[inline(never)]
fn add_words(from: &[u64], into: &mut [u64])
    requires { length from.now ≡ length into.old }
    ensures { AreWordsAdded from.now into.old into.new }
{
    for (k, word) in into.iter_mut().enumerate() {
        *word ^= from[k];
    }
}

/// Adds the words from `from` on to those from `into` on, modulo 2 at each bit.
pub(crate) fn add_run(words: &mut [u64], into: usize, from: usize, len: usize)
    requires apart { AreApart into from len }
    requires into { into + len ≤ length words.old }
    requires from { from + len ≤ length words.old }
    ensures { IsWordRunAdded into from len words.old words.new }
{
    if into + len <= from {
        let (front, back) = words.split_at_mut(from);
        add_words(&back[..len], &mut front[into..into + len]);
    } else {
        let (front, back) = words.split_at_mut(into);
        add_words(&front[from..from + len], &mut back[..len]);
    }
}

/// Exchanges the words from `first` on with those from `second` on.
pub(crate) fn swap_runs(words: &mut [u64], first: usize, second: usize, len: usize)
    requires apart { AreApart first second len }
    requires first { first + len ≤ length words.old }
    requires second { second + len ≤ length words.old }
    ensures { AreRunsExchanged first second len words.old words.new }
{
    if first + len <= second {
        let (front, back) = words.split_at_mut(second);
        front[first..first + len].swap_with_slice(&mut back[..len]);
    } else {
        let (front, back) = words.split_at_mut(first);
        front[second..second + len].swap_with_slice(&mut back[..len]);
    }
}
