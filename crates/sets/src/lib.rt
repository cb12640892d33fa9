// Where the units of a tuple's sets begin. The design is read once for each region of a tuple, never for a set or a unit.
#![tactic(auto)]

ghost use Rattle.std.specs.Prelude.{◌≤◌, ◌<◌, ◌≡◌, length};
ghost use Rattle.geometry.specs.Geometry.{Sound, tuples_of};
ghost use Rattle.cells.specs.Cells.{cell};
ghost use Rattle.layout.specs.Ranges.{RegionIn};
ghost use Rattle.array.specs.Array.{cell_start};
ghost use Rattle.sets.specs.Starts.{region_starts, disk_bytes, unit_from, label_starts, diagonal_starts, RegionFits, RegionsFit};

use cells::Cell;
use geometry::{Geometry, Tuple};
use layout::Layout;

// Where a region begins: its row 0, column 0.
fn region_start(layout: &Layout, tuple: Tuple, position: u32) -> usize
    requires { RegionIn layout.now.geometry tuple.0 position }
    ensures { result ≡ cell_start layout.now.geometry layout.now.design.now (cell tuple.0 position 0 0) }
{
    let place = layout.place_of(Cell {
        tuple,
        position,
        row: 0,
        column: 0,
    });
    array::start_of(layout.geometry, place)
}

// Where the regions of a tuple begin, by position.
pub fn region_starts(layout: &Layout, tuple: Tuple, starts: &mut [usize])
    requires { (tuple.0 < tuples_of layout.now.geometry) × (length starts.old ≡ layout.now.geometry.k) }
    ensures { starts.new ≡ region_starts layout.now.geometry layout.now.design.now tuple.0 }
{
    for (l, start) in starts.iter_mut().enumerate() {
        *start = region_start(layout, tuple, l as u32);
    }
}

// The bytes of one disk.
pub fn disk_bytes(geometry: Geometry) -> usize
    requires { Sound geometry }
    ensures { result ≡ disk_bytes geometry }
{
    geometry.units() as usize * geometry.u as usize
}

// Where a unit of a region begins. The bytes of a disk are lent by the caller, who asks for them once.
fn unit_from(geometry: Geometry, disk: usize, start: usize, row: u32, column: u32) -> usize
    requires { Sound geometry × (disk ≡ disk_bytes geometry) × RegionFits geometry start × (row < geometry.g) × (column < geometry.g) }
    ensures { result ≡ unit_from geometry start row column }
{
    start + column as usize * disk + row as usize * geometry.u as usize
}

// The units of a label, by position: "in column (c + i·l) mod g", so each is moved by i from the one before.
pub fn label_starts(
    geometry: Geometry,
    disk: usize,
    regions: &[usize],
    row: u32,
    column: u32,
    starts: &mut [usize],
)
    requires sound { Sound geometry × (disk ≡ disk_bytes geometry) × RegionsFit geometry regions.now }
    requires row_lt_g { (row < geometry.g) × (column < geometry.g) × (length starts.old ≡ geometry.k) }
    ensures { starts.new ≡ label_starts geometry regions.now row column }
{
    let mut x = column;
    for (l, unit) in starts.iter_mut().enumerate() {
        *unit = unit_from(geometry, disk, regions[l], row, x);
        x = region::turned(geometry.g, x, row);
    }
}

// The units of a diagonal of the region that begins at start, by row: "row i, column (i - j) mod g", each one to the right.
pub fn diagonal_starts(
    geometry: Geometry,
    disk: usize,
    start: usize,
    diagonal: u32,
    starts: &mut [usize],
)
    requires sound { Sound geometry × (disk ≡ disk_bytes geometry) × RegionFits geometry start }
    requires diagonal_lt_g { (diagonal < geometry.g) × (length starts.old ≡ geometry.g) }
    ensures { starts.new ≡ diagonal_starts geometry start diagonal }
{
    let mut x = region::column_of_diagonal(geometry.g, diagonal, 0);
    for (i, unit) in starts.iter_mut().enumerate() {
        *unit = unit_from(geometry, disk, start, i as u32, x);
        x = region::turned(geometry.g, x, 1);
    }
}
