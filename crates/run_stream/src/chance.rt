// Chance, by the generator of oracle/README.md.
ghost use Rattle.std.specs.Prelude.{◌≡◌};
ghost use Rattle.run_stream.specs.Chance.{after};

// x' = (x * 1664525 + 1013904223) mod 2^32.
pub fn step(x: u32) -> u32
    ensures { result ≡ after x }
{
    x.wrapping_mul(1664525).wrapping_add(1013904223)
}
