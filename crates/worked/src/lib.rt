// The worked samples as a theorem, which `replay` tells of. A crate of its own, so that its must-fail edit checks no program.
#![tactic(auto)]

ghost use Rattle.std.specs.Prelude.{◌≡◌};
ghost use Rattle.format.specs.Samples.{Worked};

// The worked samples hold of the definitions. How many facts they are.
pub fn worked_samples() -> u8
    ensures facts { Worked }
    ensures count { result ≡ 25 }
{
    25
}
