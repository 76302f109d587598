// The words of a generator, one at a time.

ghost use Rattle.std.specs.Prelude.{◌≡◌, ◌+◌, ℕ};
ghost use Rattle.rand_pcg.specs.Lcg.{advance};
ghost use Rattle.rand_pcg.specs.Pcg.{multiplier_128};
ghost use Rattle.trex_vars.specs.Value.{stands_at, word_at};

use crate::draw::Draw;
use rand_core::utils::NextWord;
use rand_pcg::Lcg128Xsl64;
use std::marker::Model;

/// A word, read ahead of its generator, and which it is. It is seen as which word it is.
#[derive(Drop)]
pub(crate) struct Words {
    generator: Lcg128Xsl64,
    draw: Draw,
    word: u64,
}

impl Model for Words {
    ghost use Rattle.std.specs.Prelude.{◌≡◌, ◌+◌};
    ghost use Rattle.trex_vars.specs.declared.draw.Draw.{Draw as ADraw};
    ghost use Rattle.trex_vars.specs.Value.{stands_at, word_at};

    ghost Value = { ADraw };

    ghost view = { λ w. w.draw };

    ghost invariant = { λ w. (w.generator ≡ stands_at w.draw.seed w.draw.position (w.draw.number + 1))
        × (w.word ≡ word_at w.draw.seed w.draw.position w.draw.number) };
}

/// The least number of words that are skipped by a jump. Fewer are cheaper one by one.
const JUMP: u64 = 16;

/// Skips many words of a generator. It stands apart, so that the loop over the packets of a few cores stays small.
#[cold]
#[inline(never)]
fn jump(generator: &mut Lcg128Xsl64, skipped: u64)
    ensures { generator.new ≡ advance 128 multiplier_128 skipped generator.old }
{
    generator.advance(u128::from(skipped));
}

/// Skips some words of a generator.
#[inline]
fn skip(generator: &mut Lcg128Xsl64, skipped: u64)
    ensures { generator.new ≡ advance 128 multiplier_128 skipped generator.old }
{
    if skipped < JUMP {
        for _word in 0..skipped {
            generator.next_word();
        }
    } else {
        jump(generator, skipped);
    }
}

/// Skips some words of a generator and draws the next one.
#[inline]
fn draw_after(generator: &mut Lcg128Xsl64, skipped: u64) -> u64
    ensures word { (seed position n : ℕ) → generator.old ≡ stands_at seed position n → result ≡ word_at seed position (n + skipped) }
    ensures stands { (seed position n : ℕ) → generator.old ≡ stands_at seed position n
        → generator.new ≡ stands_at seed position (n + skipped + 1) }
{
    skip(generator, skipped);
    generator.next_word()
}

impl Words {
    /// The word that is asked for, in time logarithmic in its number. Rare, so it stands apart from the loop over packets.
    #[cold]
    #[inline(never)]
    pub(crate) fn at(draw: Draw) -> Words
        ensures { result ≡ draw }
    {
        let mut generator = Lcg128Xsl64::new(u128::from(draw.seed), u128::from(draw.position));
        let word = draw_after(&mut generator, draw.number);
        Words {
            generator,
            draw,
            word,
        }
    }

    /// The word itself.
    pub(crate) fn word(&self) -> u64
        ensures { result ≡ word_at self.now.seed self.now.position self.now.number }
    {
        self.word
    }

    /// Goes to the word of a number, in time logarithmic in the distance forward, or in the number where it lies behind.
    #[inline]
    pub(crate) fn go_to(&mut self, number: u64)
        ensures { self.new ≡ record self.old { number = number } }
    {
        if self.draw.number < number {
            self.word = draw_after(&mut self.generator, number - self.draw.number - 1);
            self.draw.number = number;
        } else if number < self.draw.number {
            *self = Words::at(Draw {
                number,
                ..self.draw
            });
        }
    }
}
