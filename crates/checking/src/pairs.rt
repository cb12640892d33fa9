// Refusal 5: "a pair a<b not in exactly one row", at the lowest a·v+b. One table counts the rows of every pair.
ghost use Rattle.std.specs.Prelude.{◌≡◌, ◌+◌, ◌*◌, ◌≤◌, ◌<◌, min, length};
ghost use Rattle.counting.specs.Counting.{first_below};
ghost use Rattle.geometry.specs.Geometry.{b_of};
ghost use Rattle.checking.specs.Rules.{pair_bad};
ghost use Rattle.checking.specs.Table.{GoodRows, GoodRow, pair_of, pair_from, Marked, Counted, entry_bad, number_bad};

use geometry::Geometry;

// An entry for each pair, at the most groups there may be.
const ENTRIES: usize = (Geometry::V_MAX * Geometry::V_MAX) as usize;

// A pair may stand in thousands of rows, and none, one and more are all that is asked. `x.saturating_add(1).min(2)` would take
// the check up to a sixth more instructions.
fn one_more(x: u8) -> u8
    ensures { result ≡ min (x + 1) 2 }
{
    if x == 0 { 1 } else { 2 }
}

// Counts the pairs of a row's group at position l with the groups after it.
fn mark_with(table: &mut [u8], row: &[u16], v: usize, l: usize)
    requires { GoodRow v row.now table.old × (l < length row.now) }
    ensures { Marked v (pair_from (length row.now) row.now 0 l) table.old table.new }
{
    let base = usize::from(row[l]) * v;
    for c in &row[l + 1..] {
        let p = base + usize::from(*c);
        table[p] = one_more(table[p]);
    }
}

// Counts the pairs of a row. The last group has none behind it.
fn mark_row(table: &mut [u8], row: &[u16], v: usize)
    requires { GoodRow v row.now table.old }
    ensures { Marked v (pair_of (length row.now) row.now 0) table.old table.new }
{
    for l in 0..row.len() - 1 {
        mark_with(table, row, v, l);
    }
}

// Counts the pairs of all rows.
fn mark_rows(table: &mut [u8], design: &[u16], v: usize, k: usize)
    requires { GoodRows v k (b_of v k) design.now × Counted v k 0 design.now table.old }
    ensures { Counted v k (b_of v k) design.now table.new }
{
    for row in design.chunks_exact(k) {
        mark_row(table, row, v);
    }
}

// The lowest c of which the table says that the pair a<c is bad.
fn first_bad_with(table: &[u8], v: usize, a: usize) -> Option<usize>
    requires { (a < v) × (v * v ≤ length table.now) × (v ≤ 91) }
    ensures { result ≡ first_below (entry_bad v table.now a) v }
{
    let base = a * v;
    (a + 1..v).find(|c| table[base + *c] != 1)
}

// The lowest a·v+c of which the table says that the pair a<c is bad.
fn first_bad_in(table: &[u8], v: usize) -> Option<usize>
    requires { (v * v ≤ length table.now) × (v ≤ 91) }
    ensures { result ≡ first_below (number_bad v table.now) (v * v) }
{
    for a in 0..v {
        if let Some(c) = first_bad_with(table, v, a) {
            return Some(a * v + c);
        }
    }
    None
}

// The lowest a·v+c of a pair that does not stand in exactly one row.
pub fn first_bad_pair(design: &[u16], v: usize, k: usize) -> Option<usize>
    requires { GoodRows v k (b_of v k) design.now }
    ensures { result ≡ first_below (pair_bad v k design.now) (v * v) }
{
    let mut table = [0; ENTRIES];
    mark_rows(&mut table, design, v, k);
    first_bad_in(&table, v)
}
