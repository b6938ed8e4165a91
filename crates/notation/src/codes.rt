// The codes by their numbers.
ghost use Rattle.std.specs.Prelude.{◌≡◌};
ghost use Rattle.notation.specs.Codes.{code_number, CodeNamed};

// The codes that a program can be asked for.
#[derive(Clone, Copy, PartialEq, Eq, Debug)]
pub enum CodeName {
    Pq,
    Rdp,
    EvenOdd,
}

// That a number is no code's.
#[derive(Clone, Copy, PartialEq, Eq, Debug)]
pub struct UnknownCode;

impl CodeName {
    // The number by which the code is known. A method, since a `u8` from a code would not say what it counts. No program asks for it;
    // it stays for its promise.
    pub fn number(self) -> u8
        ensures value { result ≡ code_number self }
    {
        match self {
            CodeName::Pq => 0,
            CodeName::Rdp => 1,
            CodeName::EvenOdd => 2,
        }
    }
}

impl TryFrom<usize> for CodeName {
    type Error = UnknownCode;

    ghost try_from_gives = { CodeNamed };

    fn try_from(number: usize) -> Result<CodeName, UnknownCode> {
        match number {
            0 => Ok(CodeName::Pq),
            1 => Ok(CodeName::Rdp),
            2 => Ok(CodeName::EvenOdd),
            _ => Err(UnknownCode),
        }
    }
}
