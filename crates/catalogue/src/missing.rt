// Why a name tells no kind.
ghost use Rattle.std.specs.Prelude.{◌≡◌};
ghost use Rattle.catalogue.specs.declared.missing.Missing.TheVariants.{Refused as Refusing};

use refusal::Refusal;

#[derive(Clone, Copy, PartialEq, Eq, Debug)]
pub enum Missing {
    NoKind,
    // The name has a count or a capacity that no kind has.
    Refused(Refusal),
}

// By hand, since the contracts name the error that a `?` makes, and a derived `From` has no contract.
impl From<Refusal> for Missing {
    ghost from_gives = { λ e r. r ≡ Refusing e };

    fn from(refusal: Refusal) -> Missing {
        Missing::Refused(refusal)
    }
}
