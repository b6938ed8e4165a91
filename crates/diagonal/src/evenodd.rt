// EVENODD: the diagonals run over the data columns alone, and the one that no row of Q stands for is added to all others.
ghost use Rattle.std.specs.Prelude.{◌≡◌};
ghost use Rattle.prime.specs.Diagonals.{evenodd as even_odd};
ghost use Rattle.prime.proofs.Laws.{evenodd_lawful};
ghost use Rattle.diagonal.specs.Facts.{lawful_of, sizes_of};

use crate::Grid;
use code::checks::{check_column, check_pair};
use code::{BLOCK, Code, CodeRefusal};

// EVENODD over a prime, for as many data columns as the prime.
#[derive(Clone, Copy)]
pub struct EvenOdd {
    grid: Grid,
}

impl EvenOdd {
    // Over the prime 17, with rows of 32 bytes: at most 17 data columns.
    pub fn of_17() -> EvenOdd
        ensures prime { result.grid.prime ≡ 17 }
        ensures width { result.grid.width ≡ 32 }
    {
        EvenOdd {
            grid: Grid::of_17(),
        }
    }
}

impl Code for EvenOdd {
    ghost coding = { λ c. even_odd c.grid.prime c.grid.width };

    ghost lawful = { λ c.
        let g = c.grid in
        lawful_of g (evenodd_lawful g.prime g.indivisible g.width (sizes_of g).wide g.odd) };

    // The prime.
    fn limit(&self) -> usize {
        self.grid.prime
    }

    // Adds the block shifted by column `j`, and to every row the adjuster, its row on the missing diagonal.
    fn mix_into(&self, j: usize, block: &[u8], into: &mut [u8]) -> Result<(), CodeRefusal> {
        let block = block.as_array::<BLOCK>().ok_or(CodeRefusal::Length)?;
        let into = into.as_mut_array::<BLOCK>().ok_or(CodeRefusal::Length)?;
        check_column(self.limit(), j)?;
        let grid = self.grid;
        grid.add_shifted(grid.fold(grid.prime - j), block, into);
        grid.add_row_everywhere(grid.prime - 1 - j, block, into);
        Ok(())
    }

    // Shifts back; the row that then stands at row `prime - 1`, which is to be zeros, is the adjuster.
    fn unmix(&self, j: usize, buffer: &mut [u8]) -> Result<(), CodeRefusal> {
        let buffer = buffer.as_mut_array::<BLOCK>().ok_or(CodeRefusal::Length)?;
        check_column(self.limit(), j)?;
        let grid = self.grid;
        let mut solved = [0u8; BLOCK];
        grid.add_shifted(j, buffer, &mut solved);
        grid.add_row_everywhere(grid.fold(grid.prime - 1 + j), buffer, &mut solved);
        *buffer = solved;
        Ok(())
    }

    // Takes the adjuster of both columns off, then solves their shifts.
    fn unpair(&self, i: usize, j: usize, buffer: &mut [u8]) -> Result<(), CodeRefusal> {
        let buffer = buffer.as_mut_array::<BLOCK>().ok_or(CodeRefusal::Length)?;
        check_pair(self.limit(), i, j)?;
        let grid = self.grid;
        grid.unadjust(buffer);
        grid.solve_pair(grid.prime - i, grid.prime - j, buffer);
        Ok(())
    }
}
