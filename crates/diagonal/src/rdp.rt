// Row-diagonal parity: the diagonals run over the data columns and P.
ghost use Rattle.std.specs.Prelude.{◌≡◌};
ghost use Rattle.prime.specs.Diagonals.{rdp as row_diagonal};
ghost use Rattle.prime.proofs.Laws.{rdp_lawful};
ghost use Rattle.diagonal.specs.Facts.{lawful_of, sizes_of};

use crate::Grid;
use code::checks::{check_column, check_pair};
use code::{BLOCK, Code, CodeRefusal};

// Row-diagonal parity over a prime, for one data column less than the prime.
#[derive(Clone, Copy)]
pub struct Rdp {
    grid: Grid,
}

impl Rdp {
    // Over the prime 17, with rows of 32 bytes: at most 16 data columns.
    pub fn of_17() -> Rdp
        ensures prime { result.grid.prime ≡ 17 }
        ensures width { result.grid.width ≡ 32 }
    {
        Rdp {
            grid: Grid::of_17(),
        }
    }
}

impl Code for Rdp {
    ghost coding = { λ c. row_diagonal c.grid.prime c.grid.width };

    ghost lawful = { λ c.
        let g = c.grid in
        lawful_of g (rdp_lawful g.prime g.indivisible g.width (sizes_of g).wide) };

    // One less than the prime.
    fn limit(&self) -> usize {
        self.grid.prime - 1
    }

    // Adds the block shifted by column `j`, and the block shifted by one row, its share of the diagonals through P.
    fn mix_into(&self, j: usize, block: &[u8], into: &mut [u8]) -> Result<(), CodeRefusal> {
        let block = block.as_array::<BLOCK>().ok_or(CodeRefusal::Length)?;
        let into = into.as_mut_array::<BLOCK>().ok_or(CodeRefusal::Length)?;
        check_column(self.limit(), j)?;
        let grid = self.grid;
        grid.add_shifted(grid.fold(grid.prime - j), block, into);
        grid.add_shifted(1, block, into);
        Ok(())
    }

    // Solves the column's shift and P's.
    fn unmix(&self, j: usize, buffer: &mut [u8]) -> Result<(), CodeRefusal> {
        let buffer = buffer.as_mut_array::<BLOCK>().ok_or(CodeRefusal::Length)?;
        check_column(self.limit(), j)?;
        let grid = self.grid;
        grid.solve_pair(grid.prime - j, 1, buffer);
        Ok(())
    }

    // Solves the shifts of both columns; P's shares of the two cancel.
    fn unpair(&self, i: usize, j: usize, buffer: &mut [u8]) -> Result<(), CodeRefusal> {
        let buffer = buffer.as_mut_array::<BLOCK>().ok_or(CodeRefusal::Length)?;
        check_pair(self.limit(), i, j)?;
        let grid = self.grid;
        grid.solve_pair(grid.prime - i, grid.prime - j, buffer);
        Ok(())
    }
}
