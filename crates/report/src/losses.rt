// How a stripe comes through the loss of two of its columns.
ghost use Rattle.std.specs.Prelude.{◌≡◌, ℕ, ◌+◌, ◌-◌, ◌<◌, ◌≤◌, true, ◌++◌, length, string_bytes, OnOk};
ghost use Rattle.recovery.specs.Columns.{columns_of};
ghost use Rattle.report.specs.Text.{lines_with, lines_below};
ghost use Rattle.report.specs.Losses.{without};

use crate::text::push_pair;
use crate::whole::WholeStripe;
use code::{BLOCK, Code};
use recovery::columns::recover_given;
use std::alloc::AllocError;

// The columns of a stripe, of which `i` and `j` are missing.
fn without<'a>(columns: &'a [[u8; BLOCK]], i: usize, j: usize) -> [Option<&'a [u8; BLOCK]>; 18]
    requires few { length columns.now ≤ 18 }
    requires first { i < length columns.now }
    requires second { j < length columns.now }
    ensures count { length result ≡ 18 }
    ensures left { (t : ℕ) → t < length columns.now → columns_of result t ≡ without columns.now i j t }
{
    let mut left = [None; 18];
    for (t, column) in columns.iter().enumerate() {
        left[t] = Some(column);
    }
    left[i] = None;
    left[j] = None;
    left
}

impl<'a, C: Code> WholeStripe<'a, C> {
    // Whether column `want` comes back as it was where the columns `i` and `j` are missing.
    fn comes_back(&self, i: usize, j: usize, want: usize) -> bool
        requires first { i < length self.now.columns.items }
        requires second { j < length self.now.columns.items }
        requires within { want < length self.now.columns.items }
        ensures value { result ≡ true }
    {
        let left = without(&self.columns, i, j);
        let mut block = [0u8; BLOCK];
        let answer = recover_given(self.code, &left[..self.columns.len()], want, &mut block);
        answer.is_ok() && block == self.columns[want]
    }

    // Whether the columns `i` and `j` come back when both are lost.
    fn survives(&self, i: usize, j: usize) -> bool
        requires first { i < j }
        requires second { j < length self.now.columns.items }
        ensures value { result ≡ true }
    {
        self.comes_back(i, j, i) && self.comes_back(i, j, j)
    }

    // Appends the lines of the pairs of column `i` with each column after it.
    fn push_pairs_of(&self, out: &mut String, i: usize) -> Result<(), AllocError>
        requires within { i < length self.now.columns.items }
        ensures made { OnOk result (string_bytes out.new ≡ string_bytes out.old ++ lines_with i (i + 1) (length self.now.columns.items - (i + 1))) }
    {
        // By index: the numbers of the columns are what is printed.
        for j in i + 1..self.columns.len() {
            push_pair(out, i, j, self.survives(i, j))?;
        }
        Ok(())
    }

    // Appends the lines of all pairs of columns.
    pub(crate) fn push_pairs(&self, out: &mut String) -> Result<(), AllocError>
        ensures made { OnOk result (string_bytes out.new ≡ string_bytes out.old ++ lines_below (length self.now.columns.items) (length self.now.columns.items)) }
    {
        // By index, as above: the number of the first column of each pair is printed.
        for i in 0..self.columns.len() {
            self.push_pairs_of(out, i)?;
        }
        Ok(())
    }
}
