// The bytes of the units that the passes restore in a tuple (01, rebuild), by the log that the passes wrote. The design is read
// once for each region of the tuple, never for an entry.
#![tactic(auto)]

ghost use Rattle.std.specs.Prelude.{◌*◌, ◌<◌, ◌≡◌, length};
ghost use Rattle.geometry.specs.Geometry.{Sound, tuples_of, bytes_of};
ghost use Rattle.cells.specs.Ranges.{CellIn};
ghost use Rattle.sets.specs.Starts.{disk_bytes};
ghost use Rattle.reaching.specs.Reach.{tuple_cells_of};
ghost use Rattle.reaching.specs.State.{log_steps};
ghost use Rattle.replaying.specs.Replay.{replayed, LogIn};
ghost use Rattle.replaying.specs.Steps.{RegionsApart, cell_bytes, entry_bytes};

use cells::Cell;
use geometry::{Geometry, Tuple};
use layout::Layout;
use reaching::Kind;

// The most units of an outer set, and of an inner one.
const K_MAX: usize = Geometry::K_MAX as usize;

const G_MAX: usize = Geometry::G_MAX as usize;

// A unit from the outer set of its label: "becomes the XOR of the rest".
fn replay_outer(geometry: Geometry, disk: usize, regions: &[usize], at: Cell, array: &mut [u8])
    requires sound { Sound geometry × (disk ≡ disk_bytes geometry) × RegionsApart geometry regions.now }
    requires cell_in { CellIn geometry at × (length array.old ≡ bytes_of geometry) }
    ensures { array.new ≡ cell_bytes geometry regions.now at Kind.Outer array.old }
{
    let k = geometry.k as usize;
    let mut room = [0usize; K_MAX];
    let starts = &mut room[..k];
    let label = region::label_at(geometry.g, at.position, at.row, at.column);
    sets::label_starts(geometry, disk, regions, at.row, label, starts);
    restoring::restore_run(array, starts, at.position as usize, geometry.u as usize);
}

// A unit from the inner set of its diagonal: "the XOR of that set's rest".
fn replay_inner(geometry: Geometry, disk: usize, regions: &[usize], at: Cell, array: &mut [u8])
    requires sound { Sound geometry × (disk ≡ disk_bytes geometry) × RegionsApart geometry regions.now }
    requires cell_in { CellIn geometry at × (length array.old ≡ bytes_of geometry) }
    ensures { array.new ≡ cell_bytes geometry regions.now at Kind.Inner array.old }
{
    let g = geometry.g as usize;
    let position = at.position as usize;
    let mut room = [0usize; G_MAX];
    let starts = &mut room[..g];
    let diagonal = region::diagonal_at(geometry.g, at.row, at.column);
    sets::diagonal_starts(geometry, disk, regions[position], diagonal, starts);
    restoring::restore_run(array, starts, at.row as usize, geometry.u as usize);
}

// One entry of the log.
fn replay_step(
    geometry: Geometry,
    disk: usize,
    regions: &[usize],
    tuple: Tuple,
    entry: u16,
    array: &mut [u8],
)
    requires sound { Sound geometry × (disk ≡ disk_bytes geometry) × RegionsApart geometry regions.now }
    requires tuple_bound { (tuple.0 < tuples_of geometry) × (entry < 2 * tuple_cells_of geometry) × (length array.old ≡ bytes_of geometry) }
    ensures { array.new ≡ entry_bytes geometry regions.now tuple.0 entry array.old }
{
    let (cell, kind) = reaching::read_entry(entry);
    let at = reaching::cell_numbered(geometry, tuple, cell);
    match kind {
        Kind::Outer => replay_outer(geometry, disk, regions, at, array),
        Kind::Inner => replay_inner(geometry, disk, regions, at, array),
    }
}

// The bytes of what the passes restored in a tuple, by their log, oldest first. Where nothing was, the design is not read.
pub fn replay(layout: &Layout, tuple: Tuple, log: &[u16], array: &mut [u8])
    requires tuple_bound { tuple.0 < tuples_of layout.now.geometry }
    requires log_in { LogIn layout.now.geometry log.now }
    requires array_len { length array.old ≡ bytes_of layout.now.geometry }
    ensures { array.new ≡ replayed layout.now.geometry layout.now.design.now tuple.0
        (log_steps layout.now.geometry tuple.0 log.now (length log.now)) array.old }
{
    if log.is_empty() {
        return;
    }
    let geometry = layout.geometry;
    let disk = sets::disk_bytes(geometry);
    let k = geometry.k as usize;
    let mut room = [0usize; K_MAX];
    let regions = &mut room[..k];
    sets::region_starts(layout, tuple, regions);
    for &entry in log {
        replay_step(geometry, disk, regions, tuple, entry, array);
    }
}
