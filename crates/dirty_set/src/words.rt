//! Bit sets as words: number k is bit k % 64 of word k / 64.
ghost use Rattle.std.specs.Prelude.{◌≡◌, ℕ, ◌*◌, ◌/◌, ◌<◌, ◌≤◌, ◌^◌, ◌==◌, not, false, length, IfSome, MatchOption};
ghost use Rattle.std.specs.Int.{bit_at};
ghost use Rattle.dirty_set.specs.Members.{IsNext};
ghost use Rattle.dirty_set.specs.inner.Words.{has, is_one, word_at, with_bit, without_bit};

// The lowest set bit of a word from bit k on.
fn lowest_from(word: u64, k: usize) -> Option<usize>
    requires { k < 64 }
    ensures next { MatchOption result ((i : ℕ) → k ≤ i → is_one word i ≡ false) (λ r. IsNext (is_one word) k r) }
    ensures within { IfSome result (λ r. r < 64) }
{
    let rest = word >> k;
    if rest == 0 {
        None
    } else {
        Some(k + rest.trailing_zeros() as usize)
    }
}

// The first set bit from p on.
fn next_one(words: &[u64], p: usize) -> Option<usize>
    requires { length words.now < 2 ^ 32 }
    ensures { MatchOption result ((i : ℕ) → p ≤ i → has words.now i ≡ false) (λ r. IsNext (has words.now) p r) }
{
    let mut from = p % 64;
    for w in p / 64..words.len() {
        if let Some(k) = lowest_from(words[w], from) {
            return Some(64 * w + k);
        }
        from = 0;
    }
    None
}

// The lowest set bit of a word that isn't 0.
fn lowest(word: u64) -> usize
    requires { 0 < word }
    ensures next { IsNext (is_one word) 0 result }
    ensures within { result < 64 }
{
    word.trailing_zeros() as usize
}

// The first set bit from p on, by means of a summary.
fn next_summed(words: &[u64], summary: &[u64], p: usize) -> Option<usize>
    requires few { length words.now < 2 ^ 32 }
    requires short { length summary.now < 2 ^ 32 }
    requires summed { (w : ℕ) → has summary.now w ≡ not (word_at words.now w == 0) }
    ensures { MatchOption result ((i : ℕ) → p ≤ i → has words.now i ≡ false) (λ r. IsNext (has words.now) p r) }
{
    let w = p / 64;
    if w >= words.len() {
        return None;
    }
    if let Some(k) = lowest_from(words[w], p % 64) {
        return Some(64 * w + k);
    }
    match next_one(summary, w + 1) {
        None => None,
        Some(v) => Some(64 * v + lowest(words[v])),
    }
}

/// The first set bit from p on, by means of two levels of summaries. Only the scan of the top grows
/// with the count: it has one word for each 262,144 numbers.
pub(crate) fn next_layered(words: &[u64], summary: &[u64], top: &[u64], p: usize) -> Option<usize>
    requires few { length words.now < 2 ^ 32 }
    requires short { length summary.now < 2 ^ 32 }
    requires shorter { length top.now < 2 ^ 32 }
    requires summed { (w : ℕ) → has summary.now w ≡ not (word_at words.now w == 0) }
    requires above { (w : ℕ) → has top.now w ≡ not (word_at summary.now w == 0) }
    ensures { MatchOption result ((i : ℕ) → p ≤ i → has words.now i ≡ false) (λ r. IsNext (has words.now) p r) }
{
    let w = p / 64;
    if w >= words.len() {
        return None;
    }
    if let Some(k) = lowest_from(words[w], p % 64) {
        return Some(64 * w + k);
    }
    match next_summed(summary, top, w + 1) {
        None => None,
        Some(v) => Some(64 * v + lowest(words[v])),
    }
}

/// Sets the bit of a number.
pub(crate) fn set_bit(words: &mut Vec<u64>, k: usize)
    requires { k / 64 < length words.old.items }
    ensures { words.new.items ≡ with_bit words.old.items k }
{
    words[k / 64] |= 1 << (k % 64);
}

/// Clears the bit of a number, and returns whether its word is 0 afterwards.
pub(crate) fn clear_bit(words: &mut Vec<u64>, k: usize) -> bool
    requires { k / 64 < length words.old.items }
    ensures words { words.new.items ≡ without_bit words.old.items k }
    ensures zero { result ≡ (word_at (without_bit words.old.items k) (k / 64) == 0) }
{
    words[k / 64] &= !(1 << (k % 64));
    words[k / 64] == 0
}
