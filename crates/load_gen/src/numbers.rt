//! The numbers of the generator.
ghost use Rattle.std.specs.Prelude.{◌≡◌};
ghost use Rattle.load_gen.specs.Numbers.{number_after, amount_by};

/// What a number is multiplied by.
pub(crate) const MULTIPLIER: u128 = 6_364_136_223_846_793_005;

/// What is added to the product, modulo 2^64.
pub(crate) const INCREMENT: u128 = 1_442_695_040_888_963_407;

/// How many amounts there are, from 1 on.
pub(crate) const AMOUNTS: u64 = 1_000;

/// The generator's number after `x`.
pub(crate) fn number_after(x: u64) -> u64
    ensures { result ≡ number_after x }
{
    ((u128::from(x) * MULTIPLIER + INCREMENT) % (1 << 64)) as u64
}

/// The amount of a debt, from 1 to 1,000, by a number of the generator.
pub(crate) fn amount_by(x: u64) -> u64
    ensures { result ≡ amount_by x }
{
    1 + x % AMOUNTS
}
