// The words of a seed.

ghost use Rattle.std.specs.Prelude.{◌≡◌};
ghost use Rattle.trex_sample.specs.Sampled.{word};

use rand_core::utils::NextWord;
use rand_pcg::Lcg128Xsl64;

/// The word of a number, from 0 on, of a seed (PCG XSL RR 128/64, stream 0).
pub(crate) fn word(seed: u64, number: u64) -> u64
    ensures { result ≡ word seed number }
{
    let mut generator = Lcg128Xsl64::new(u128::from(seed), 0);
    generator.advance(u128::from(number));
    generator.next_word()
}
