// Bytes as hexadecimal digits.
ghost use Rattle.std.specs.Prelude.{◌≡◌, ◌++◌, string_bytes, OnOk};
ghost use Rattle.notation.specs.Numbers.{hex_byte};

use std::alloc::AllocError;

// Appends a byte as two lower-case hexadecimal digits. Without memory for them an error is answered, and what the text then holds is
// left free. Digit by digit: by `{byte:02x}` it took twice the instructions.
pub fn push_hex(out: &mut String, byte: u8) -> Result<(), AllocError>
    ensures made { OnOk result (string_bytes out.new ≡ string_bytes out.old ++ hex_byte byte) }
{
    out.push(char::from_digit(u32::from(byte / 16), 16).unwrap())?;
    out.push(char::from_digit(u32::from(byte % 16), 16).unwrap())
}

#[cfg(test)]
mod tests {
    use super::*;

    // Two lower-case digits a byte, a zero in front too.
    #[test]
    fn two_digits_a_byte(rt: HostRuntime) -> Result<(), AllocError> {
        let mut out = String::new(rt.alloc());
        for byte in [0, 15, 16, 171, 255] {
            push_hex(&mut out, byte)?;
        }
        assert_eq!(rt; out.as_str(), "000f10abff");
        Ok(())
    }
}
