// The text that a replay writes.
ghost use Rattle.std.specs.Prelude.{◌≡◌, ◌++◌, IfOk, Some, string_bytes, OnOk};
ghost use Rattle.script.specs.Text.{line_words, line_text, bad_script};

use std::alloc::{AllocError, Global};
use std::fmt;

// What is written of an operation: where it stands in the script, its number, its refusal or 0, and its value. The refusal is a number, as
// a line prints numbers, those of unknown operations too, which no Refusal has.
#[derive(Clone, Copy, PartialEq, Eq, Debug)]
pub struct Line {
    pub position: usize,
    pub operation: u8,
    pub refusal: u8,
    pub value: usize,
}

impl fmt::Display for Line {
    ghost output = { λ line. Some (line_words line) };

    fn fmt<W: fmt::Write>(&self, f: &mut fmt::Formatter<W>) -> fmt::Result {
        let position = self.position;
        let operation = self.operation;
        let refusal = self.refusal;
        let value = self.value;
        write!(f, "{position} {operation} {refusal} {value}")
    }
}

// Appends a line. Without memory for it an error is answered, and what the text then holds is left free.
pub fn push_line(out: &mut String, line: Line) -> Result<(), AllocError>
    ensures made { OnOk result (string_bytes out.new ≡ string_bytes out.old ++ line_text line) }
{
    writeln!(out, "{line}")
}

// All that is written of what is no script. A constant: put together from what the error prints it would read no plainer.
pub fn bad_script(heap: Global) -> Result<String, AllocError>
    ensures made { IfOk result (λ s. string_bytes s ≡ bad_script) }
{
    String::from_str(heap, "bad script\n")
}
