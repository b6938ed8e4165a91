// Blocks times an element of the field, by terms: a vector of bytes at a time, with no table and no branch.
ghost use Rattle.std.specs.Prelude.{◌≡◌, map};
ghost use Rattle.code.specs.Blocks.{◌⊕◌};
ghost use Rattle.field.specs.Field.{shifted, times};
ghost use Rattle.field.specs.Terms.{shifts, summed};

use code::BLOCK;

// 2 times an element.
fn doubled(a: u8) -> u8
    ensures value { result ≡ shifted a }
{
    (a << 1) ^ (a >> 7) * 0x1D
}

// The terms of an element's products: 1, 2, 4, .. 128 times the element.
fn terms(a: u8) -> [u8; 8]
    ensures value { result ≡ shifts 8 a }
{
    let mut t = [0; 8];
    let mut next = a;
    for term in t.iter_mut() {
        *term = next;
        next = doubled(next);
    }
    t
}

// The element that has these terms, times `b`: the terms where the digit of `b` is 1, added up.
fn scaled(t: &[u8; 8], b: u8) -> u8
    ensures value { result ≡ summed t.now b }
{
    let mut sum = 0;
    let mut digits = b;
    for term in t {
        sum ^= (digits & 1) * term;
        digits >>= 1;
    }
    sum
}

// Adds `a` times the bytes of `block` to `into`.
pub(crate) fn add_scaled(a: u8, block: &[u8; BLOCK], into: &mut [u8; BLOCK])
    ensures after { into.new ≡ into.old ⊕ map (times a) block.now }
{
    let t = terms(a);
    // By index, as in `code::xor::xor_run`, and for the same reason.
    for i in 0..BLOCK {
        into[i] ^= scaled(&t, block[i]);
    }
}

// Multiplies each byte of `buffer` by `a`.
pub(crate) fn scale(a: u8, buffer: &mut [u8; BLOCK])
    ensures after { buffer.new ≡ map (times a) buffer.old }
{
    let t = terms(a);
    for x in buffer.iter_mut() {
        *x = scaled(&t, *x);
    }
}
