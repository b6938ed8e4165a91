// The code P+Q over the field of 256 elements: Q adds up each data column times 2 to the power of its number.
#![tactic(auto)]

ghost use Rattle.std.specs.Prelude.{◌≡◌, ◌<◌};
ghost use Rattle.field.specs.Field.{times, power, log, inverse};
ghost use Rattle.field.specs.Mixing.{pq};
ghost use Rattle.code.specs.Blocks.{block_size};
ghost use Rattle.field.proofs.Laws.{pq_lawful};

use code::checks::{check_column, check_pair};
use code::{BLOCK, Code, CodeRefusal};
use scaling::{add_scaled, scale};
use tables::{logs, powers};

mod scaling;
mod tables;

// How many data columns the code can have: 2 has 255 distinct powers.
const LIMIT: usize = 255;

// 2 to the power k: exponents count modulo 255.
fn power_of(k: usize) -> u8
    ensures value { result ≡ power k }
{
    powers()[k % 255]
}

// The logarithm of an element other than 0.
fn log_of(b: u8) -> usize
    requires nonzero { 0 < b }
    ensures value { result ≡ log b }
{
    logs()[b as usize - 1] as usize
}

// One over an element other than 0.
fn inverse_of(b: u8) -> u8
    requires nonzero { 0 < b }
    ensures value { result ≡ inverse b }
{
    power_of(255 - log_of(b))
}

// The product of two elements.
pub fn product(a: u8, b: u8) -> u8
    ensures value { result ≡ times a b }
{
    if a == 0 || b == 0 {
        return 0;
    }
    power_of(log_of(a) + log_of(b))
}

// The code P+Q.
#[derive(Clone, Copy)]
pub struct Pq;

impl Code for Pq {
    ghost coding = { λ _. pq };

    ghost lawful = { λ c. pq_lawful block_size };

    fn limit(&self) -> usize {
        LIMIT
    }

    fn mix_into(&self, j: usize, block: &[u8], into: &mut [u8]) -> Result<(), CodeRefusal> {
        let block = block.as_array::<BLOCK>().ok_or(CodeRefusal::Length)?;
        let into = into.as_mut_array::<BLOCK>().ok_or(CodeRefusal::Length)?;
        check_column(LIMIT, j)?;
        add_scaled(power_of(j), block, into);
        Ok(())
    }

    fn unmix(&self, j: usize, buffer: &mut [u8]) -> Result<(), CodeRefusal> {
        let buffer = buffer.as_mut_array::<BLOCK>().ok_or(CodeRefusal::Length)?;
        check_column(LIMIT, j)?;
        // 2 to the power 255 is 1, so the power 255 - j undoes the power j.
        scale(power_of(255 - j), buffer);
        Ok(())
    }

    fn unpair(&self, i: usize, j: usize, buffer: &mut [u8]) -> Result<(), CodeRefusal> {
        let buffer = buffer.as_mut_array::<BLOCK>().ok_or(CodeRefusal::Length)?;
        check_pair(LIMIT, i, j)?;
        scale(inverse_of(power_of(i) ^ power_of(j)), buffer);
        Ok(())
    }
}
