// What a call on blocks looks at after the lengths of its buffers: its columns.
ghost use Rattle.std.specs.Prelude.{◌≡◌, ◌≢◌, ◌<◌, true, OnOk};
ghost use Rattle.code.specs.Answers.{answer, on_column, on_pair};

use crate::CodeRefusal;

// Refuses a column that is not below the limit.
pub fn check_column(limit: usize, j: usize) -> Result<(), CodeRefusal>
    ensures answered { answer result ≡ on_column limit j true }
    ensures below { OnOk result (j < limit) }
{
    if j < limit {
        Ok(())
    } else {
        Err(CodeRefusal::Column)
    }
}

// Refuses two columns of which one is not below the limit, or that are one and the same.
pub fn check_pair(limit: usize, i: usize, j: usize) -> Result<(), CodeRefusal>
    ensures answered { answer result ≡ on_pair limit i j true }
    ensures first { OnOk result (i < limit) }
    ensures second { OnOk result (j < limit) }
    ensures apart { OnOk result (i ≢ j) }
{
    check_column(limit, i)?;
    check_column(limit, j)?;
    if i != j {
        Ok(())
    } else {
        Err(CodeRefusal::Column)
    }
}
