// Refusal 4: "a group number of v or more, or a row not ascending", at the first such row.
ghost use Rattle.std.specs.Prelude.{◌≡◌, length};
ghost use Rattle.counting.specs.Counting.{first_below};
ghost use Rattle.checking.specs.Rules.{row_bad};
ghost use Rattle.checking.specs.Table.{Rows, rows_in};

// Whether a row is refused. In a row that ascends the last group is the highest.
fn row_bad(row: &[u16], v: usize) -> bool
    ensures { result ≡ row_bad v (length row.now) row.now 0 }
{
    !row.is_sorted_by(|a, b| a < b) || row.last().is_some_and(|high| v <= usize::from(*high))
}

// The first row that is refused.
pub fn first_bad_row(design: &[u16], v: usize, k: usize) -> Option<usize>
    requires { Rows v k (rows_in k design.now) design.now }
    ensures { result ≡ first_below (row_bad v k design.now) (rows_in k design.now) }
{
    design.chunks_exact(k).position(|row| row_bad(row, v))
}
