// The words of a generator, in order.

ghost use Rattle.std.specs.Prelude.{◌≡◌, ◌+◌, ℕ};
ghost use Rattle.trex_vars.specs.Value.{stands_at, word_at};

use rand_core::utils::NextWord;
use rand_pcg::Lcg128Xsl64;

/// The three words of a record.
#[derive(Clone, Copy, Drop)]
pub(crate) struct Words {
    /// That by which it has copies.
    pub(crate) copies: u64,
    /// That by which its first copy is delayed.
    pub(crate) first: u64,
    /// That by which its second copy is delayed.
    pub(crate) second: u64,
}

/// The generator of a seed, before its first word.
pub(crate) fn generator_of(seed: u64) -> Lcg128Xsl64
    ensures { result ≡ stands_at seed 0 0 }
{
    Lcg128Xsl64::new(u128::from(seed), 0)
}

/// The next word.
fn draw(generator: &mut Lcg128Xsl64) -> u64
    ensures word { (seed n : ℕ) → generator.old ≡ stands_at seed 0 n → result ≡ word_at seed 0 n }
    ensures stands { (seed n : ℕ) → generator.old ≡ stands_at seed 0 n → generator.new ≡ stands_at seed 0 (n + 1) }
{
    generator.next_word()
}

/// The next three words, those of a record.
pub(crate) fn draw_three(generator: &mut Lcg128Xsl64) -> Words
    ensures copies { (seed n : ℕ) → generator.old ≡ stands_at seed 0 n → result.copies ≡ word_at seed 0 n }
    ensures first { (seed n : ℕ) → generator.old ≡ stands_at seed 0 n → result.first ≡ word_at seed 0 (n + 1) }
    ensures second { (seed n : ℕ) → generator.old ≡ stands_at seed 0 n → result.second ≡ word_at seed 0 (n + 1 + 1) }
    ensures stands { (seed n : ℕ) → generator.old ≡ stands_at seed 0 n
        → generator.new ≡ stands_at seed 0 (n + 1 + 1 + 1) }
{
    let copies = draw(generator);
    let first = draw(generator);
    let second = draw(generator);
    Words {
        copies,
        first,
        second,
    }
}
