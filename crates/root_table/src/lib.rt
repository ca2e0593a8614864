// The unit roots of order 8, 16 and 24, by which the hybrid filters are modulated (§8.6.4.3), as whole numbers of 2^-52.
#![tactic(auto)]

mod values;

ghost use Rattle.std.specs.Prelude.{◌≡◌};
ghost use Rattle.root_table.specs.Values.{root8, root16, root24};

pub fn roots_8() -> &'static [i64; 16]
    ensures { result.now ≡ root8 }
{
    &values::ROOT_8
}

pub fn roots_16() -> &'static [i64; 32]
    ensures { result.now ≡ root16 }
{
    &values::ROOT_16
}

pub fn roots_24() -> &'static [i64; 48]
    ensures { result.now ≡ root24 }
{
    &values::ROOT_24
}
