// Prints the table of products of the field of 256 elements: line a has a × 0 .. a × 255, as two hexadecimal digits each.
#![tactic(auto)]

ghost use Rattle.std.specs.Prelude.{◌≡◌, ◌++◌, IfOk, string_bytes, OnOk};
ghost use Rattle.products.specs.Texts.{line, table};

use galois::product;
use notation::hex::push_hex;
use std::alloc::{AllocError, Global};
use std::io;

// How many bytes the whole table has: 256 lines of 512 digits and an end.
const TABLE: usize = 131_328;

// Adds the line of `a` to `text`. Where memory fails, `text` may have a part of it.
fn push_line(text: &mut String, a: u8) -> Result<(), AllocError>
    ensures added { OnOk result (string_bytes text.new ≡ string_bytes text.old ++ line a) }
{
    for b in 0..=255u8 {
        push_hex(text, product(a, b))?;
    }
    text.push('\n')
}

// The whole table.
fn table_of_products(heap: Global) -> Result<String, AllocError>
    ensures made { IfOk result (λ s. string_bytes s ≡ table) }
{
    let mut text = String::with_capacity(heap, TABLE)?;
    for a in 0..=255u8 {
        push_line(&mut text, a)?;
    }
    Ok(text)
}

// Prints the whole table at once.
fn main(rt: HostRuntime) -> io::Result<()> {
    let text = table_of_products(rt.alloc())?;
    print!(rt; "{text}")
}
