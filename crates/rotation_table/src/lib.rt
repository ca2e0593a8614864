// The rotations of the all-pass channels (§8.6.4.5.2), as whole numbers of 2^-52: of 30 channels with 20 stereo bands, of 50 with 34.
#![tactic(auto)]

mod values;

ghost use Rattle.std.specs.Prelude.{◌≡◌};
ghost use Rattle.rotation_table.specs.Values.{rotation20, rotation34};

pub fn rotations_20() -> &'static [i64; 240]
    ensures { result.now ≡ rotation20 }
{
    &values::ROTATION_20
}

pub fn rotations_34() -> &'static [i64; 400]
    ensures { result.now ≡ rotation34 }
{
    &values::ROTATION_34
}
