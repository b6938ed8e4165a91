// The lines of a report, appended to one text.
ghost use Rattle.std.specs.Prelude.{◌≡◌, ◌++◌, string_bytes, OnOk};
ghost use Rattle.report.specs.Text.{hex, parity_line, pair_line, count_line};

use notation::hex::push_hex;
use std::alloc::AllocError;

// Appends each byte of `block` as two digits. A type with `Display` would hold the same loop, and one more contract.
fn push_block(out: &mut String, block: &[u8]) -> Result<(), AllocError>
    ensures made { OnOk result (string_bytes out.new ≡ string_bytes out.old ++ hex block.now) }
{
    for b in block {
        push_hex(out, *b)?;
    }
    Ok(())
}

// Appends the line of a parity column: its letter and its bytes.
pub(crate) fn push_parity(out: &mut String, letter: &str, block: &[u8]) -> Result<(), AllocError>
    ensures made { OnOk result (string_bytes out.new ≡ string_bytes out.old ++ parity_line letter.now block.now) }
{
    out.push_str(letter)?;
    out.push_str(" ")?;
    push_block(out, block)?;
    out.push_str("\n")
}

// Appends the line of a lost pair.
pub(crate) fn push_pair(
    out: &mut String,
    i: usize,
    j: usize,
    recovered: bool,
) -> Result<(), AllocError>
    ensures made { OnOk result (string_bytes out.new ≡ string_bytes out.old ++ pair_line i j recovered) }
{
    let verdict = if recovered { "recovered" } else { "differs" };
    writeln!(out, "{i} {j} {verdict}")
}

// Appends a line with one number.
pub(crate) fn push_count(out: &mut String, n: usize) -> Result<(), AllocError>
    ensures made { OnOk result (string_bytes out.new ≡ string_bytes out.old ++ count_line n) }
{
    writeln!(out, "{n}")
}
