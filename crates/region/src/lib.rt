// The columns of one region (01, "The two parities": "one part of all g disks of a group, rows and columns 0 to g-1"): where
// its labels, its diagonals and their parities stand. Plain numbers: a region knows neither its tuple nor its disks.
#![tactic(auto)]

ghost use Rattle.std.specs.Prelude.{◌+◌, ◌%◌, ◌≤◌, ◌<◌, ◌≡◌};
ghost use Rattle.region.specs.Columns.{label_column, label_at, diagonal_column, diagonal_at, parity_column, Small};

// "label (i,c) stands in the region at position l in column (c + i·l) mod g"
pub fn column_of_label(g: u32, l: u32, i: u32, c: u32) -> u32
    requires { Small g l i c }
    ensures { (result ≡ label_column g l i c) × (result < g) }
{
    (c + i * l) % g
}

// The c of the label that stands at position l in row i and column x.
pub fn label_at(g: u32, l: u32, i: u32, x: u32) -> u32
    requires small { Small g l i x }
    requires l_le_g { l ≤ g }
    ensures { (result ≡ label_at g l i x) × (result < g) }
{
    (x + i * (g - l)) % g
}

// "diagonal j of a region has the units of row i, column (i - j) mod g"
pub fn column_of_diagonal(g: u32, j: u32, i: u32) -> u32
    requires small { Small g j i 0 }
    requires j_le_g { j ≤ g }
    ensures { (result ≡ diagonal_column g j i) × (result < g) }
{
    (i + (g - j)) % g
}

// The diagonal of the unit in row i and column x.
pub fn diagonal_at(g: u32, i: u32, x: u32) -> u32
    requires small { Small g 0 i x }
    requires x_le_g { x ≤ g }
    ensures { (result ≡ diagonal_at g i x) × (result < g) }
{
    (i + (g - x)) % g
}

// "Row g-1 holds its parity, in column g-1-j": the parity of diagonal j.
pub fn parity_column(g: u32, j: u32) -> u32
    requires { j < g }
    ensures { (result ≡ parity_column g j) × (result < g) }
{
    g - 1 - j
}

// A column moved right by at most g, with no division.
pub fn turned(g: u32, x: u32, by: u32) -> u32
    requires { (x < g) × (by ≤ g) × (g ≤ 13) }
    ensures { (result ≡ (x + by) % g) × (result < g) }
{
    let moved = x + by;
    if moved < g { moved } else { moved - g }
}
