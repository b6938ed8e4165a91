// Why a call on a stripe is refused.
ghost use Rattle.std.specs.Prelude.{◌≡◌};
ghost use Rattle.recovery.specs.Answers.{raised};

use code::CodeRefusal;

// Lengths are looked at first, then columns, then what is missing.
#[derive(Clone, Copy, PartialEq, Eq, Debug)]
pub enum StripeRefusal {
    // more columns than the code can have, or a column that the stripe does not have
    Column,
    // a buffer that is not 512 bytes
    Length,
    // the wanted column and at least two others are missing
    Loss,
}

impl From<CodeRefusal> for StripeRefusal {
    ghost from_gives = { λ e r. r ≡ raised e };

    fn from(refusal: CodeRefusal) -> StripeRefusal {
        match refusal {
            CodeRefusal::Column => StripeRefusal::Column,
            CodeRefusal::Length => StripeRefusal::Length,
        }
    }
}
