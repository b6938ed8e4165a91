// The mathematics of the diagonal codes: rows of a block counted modulo a prime, RDP and EVENODD, and their laws.
#![tactic(auto)]

ghost use Rattle.prime.specs.Diagonals.{DiagonalCodesAreLawful};

// RDP and EVENODD keep the laws of a code over every odd prime.
pub fn diagonal_codes_are_lawful()
    ensures lawful { DiagonalCodesAreLawful }
{}
