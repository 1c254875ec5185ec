//! Numbers among the words of the command line.

ghost use Rattle.std.specs.Prelude.{ℕ, ◌≡◌, ◌<◌, ◌≤◌, ◌^◌, length, decimal, MatchOption, true};
ghost use Rattle.std.specs.List.{list_all};
ghost use Rattle.script_lang.specs.Numbers.{is_digit, number_at_most, read_on};

use script_lang::are_digits;

/// The number that the word writes: decimal digits without a sign or a leading zero, at most 4,294,967,295.
pub fn number(word: &[u8]) -> Option<u32>
    ensures { result ≡ number_at_most 4294967295 word.now }
{
    match script_lang::number(word, u32::MAX as u64) {
        Some(n) => Some(n as u32),
        None => None,
    }
}

// The number that at most twenty digits write.
fn wide_value(word: &[u8]) -> u128
    requires few { length word.now ≤ 20 }
    requires digits { list_all is_digit word.now ≡ true }
    ensures { result ≡ read_on 0 word.now }
{
    let mut n = 0;
    for b in word {
        n = 10 * n + (*b - b'0') as u128;
    }
    n
}

/// The number of 64 bits that the word writes: decimal digits without a sign or a leading zero; `None` exactly where it writes none.
pub fn wide_number(word: &[u8]) -> Option<u64>
    ensures { MatchOption result ((n : ℕ) → n < 2 ^ 64 → word.now ≡ decimal n → ⊥) (λ n. word.now ≡ decimal n) }
{
    if word.is_empty() || word.len() > 20 {
        return None;
    }
    if !are_digits(word) {
        return None;
    }
    if word[0] == b'0' && word.len() > 1 {
        return None;
    }
    let n = wide_value(word);
    if n > u128::from(u64::MAX) {
        return None;
    }
    Some(n as u64)
}
