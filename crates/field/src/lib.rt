// The field of 256 elements and the laws of the code P+Q over it: theorems, each on the contract of a function.
#![tactic(auto)]

ghost use Rattle.field.specs.Theorems.{Divided, Generated, PqIsLawful};

// A product, each shift reduced, is the product of polynomials modulo 0x11D.
pub fn product_is_divided()
    ensures theorem { Divided }
{}

// 2 generates the field: the elements that are not 0 are its 255 powers, each once.
pub fn two_generates()
    ensures theorem { Generated }
{}

// The code P+Q keeps the laws of a code.
pub fn pq_is_lawful()
    ensures theorem { PqIsLawful }
{}
