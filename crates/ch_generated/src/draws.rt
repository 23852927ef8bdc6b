ghost use Rattle.std.specs.Prelude.{◌≡◌, ◌<◌};
ghost use Rattle.ch_generated.specs.Draws.{after, drawn, generator_of};

use rand_core::utils::NextWord;
use rand_pcg::Lcg64Xsh32;

#[tactic(auto, unfolding(crate::specs::Draws::generator_of))]
pub(crate) fn generator(seed: u64) -> Lcg64Xsh32
    ensures { result ≡ generator_of seed }
{
    Lcg64Xsh32::new(seed, 0)
}

/// A number below another.
pub(crate) fn draw(generator: &mut Lcg64Xsh32, below: u32) -> u32
    requires { 0 < below }
    ensures number { result ≡ drawn below generator.old }
    ensures after { generator.new ≡ after 1 generator.old }
    ensures small { result < below }
{
    generator.next_word() % below
}
