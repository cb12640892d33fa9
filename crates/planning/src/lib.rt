// The plan for one disk: which units are read to restore each of its units (01). The design is scanned once for each part of the
// disk and once for each region of the part's tuple, never for a unit.
#![tactic(auto)]

ghost use Rattle.std.specs.Prelude.{◌+◌, ◌≤◌, ◌<◌, ◌≡◌, length};
ghost use Rattle.std.proofs.lemmas.List.Edits.{sets};
ghost use Rattle.refusal.specs.Refusal.{answer, kept, outcome_of};
ghost use Rattle.geometry.specs.Geometry.{Sound, parts_of, tuples_of, disks_of};
ghost use Rattle.cells.specs.Ranges.{CellIn};
ghost use Rattle.sources.specs.Plan.{lists_of, plan_of};
ghost use Rattle.planning.specs.Plan.{triples_of, planned, plan_rules};
ghost use Rattle.sources.specs.Written.{Written, Regions, RegionsOf, in_hand, row_triples, part_plan};

use cells::Cell;
use geometry::{Disk, Geometry, Group, Part, Tuple, Unit};
use layout::{Layout, Region};
use refusal::Refusal;
use sources::Triples;

// "There are r(g-1)k triples"
fn triples_of(geometry: Geometry) -> u32
    requires { Sound geometry }
    ensures { (result ≡ triples_of geometry) × (result ≤ 10800) }
{
    geometry.parts() * (geometry.g - 1) * geometry.k
}

// The regions of a tuple, each looked up once.
fn regions_of(layout: &Layout, tuple: Tuple, regions: &mut [Region])
    requires tuple_bound { tuple.0 < tuples_of layout.now.geometry }
    requires k_in_bounds { layout.now.geometry.k ≤ length regions.old }
    ensures { Regions layout.now.geometry regions.new × RegionsOf layout.now.geometry layout.now.design.now tuple.0 regions.new }
{
    for e in 0..layout.geometry.k {
        regions[e as usize] = layout.region_of(tuple, e);
    }
}

// The triples of a part's units, row by row; `first` is the part's first unit, and `at` lies in its column.
fn plan_rows(geometry: Geometry, regions: &[Region], first: Unit, at: Cell, triples: &mut Triples)
    requires sound { Sound geometry × Regions geometry regions.now × CellIn geometry at × (first.0 ≤ 65535) }
    requires g_in_bounds { triples.old.next + length (lists_of (row_triples geometry (in_hand regions.now) first.0 at) geometry.g) ≤ length triples.old.list.now }
    ensures { Written triples.old (lists_of (row_triples geometry (in_hand regions.now) first.0 at) geometry.g) triples.new }
{
    for row in 0..geometry.g {
        let unit = Unit(first.0 + row);
        sources::plan_unit(geometry, regions, unit, Cell { row, ..at }, triples);
    }
}

// The triples of one part of the disk. One of its cells tells the tuple, the position and the column of all.
fn plan_part(layout: &Layout, disk: Disk, part: Part, triples: &mut Triples)
    requires disk_bound { (disk.0 < disks_of layout.now.geometry) × (part.0 < parts_of layout.now.geometry) }
    requires part_in_bounds { triples.old.next + length (part_plan layout.now.geometry layout.now.design.now disk.0 part.0) ≤ length triples.old.list.now }
    ensures { Written triples.old (part_plan layout.now.geometry layout.now.design.now disk.0 part.0) triples.new }
{
    let first = Unit(part.0 * layout.geometry.g);
    let at = layout.cell_at(disk, first);
    let unknown = Region {
        group: Group(0),
        part: Part(0),
    };
    let mut regions = [unknown; 10];
    regions_of(layout, at.tuple, &mut regions);
    plan_rows(layout.geometry, &regions, first, at, triples);
}

// "by its unit upwards": part after part, from the start of the list.
fn plan_disk(layout: &Layout, disk: Disk, list: &mut [u32])
    requires disk_bound { disk.0 < disks_of layout.now.geometry }
    requires disk_in_bounds { length (plan_of layout.now.geometry layout.now.design.now disk.0) ≤ length list.old }
    ensures { list.new ≡ sets list.old 0 (plan_of layout.now.geometry layout.now.design.now disk.0) }
{
    let mut triples = Triples { list, next: 0 };
    for p in 0..layout.geometry.parts() {
        plan_part(layout, disk, Part(p), &mut triples);
    }
}

// "Plan for one disk", into the first 3·r(g-1)k numbers of the list, or the refusal: 2 to 6, 9, 14.
pub fn plan(
    geometry: Geometry,
    design: &[u16],
    disk: Disk,
    list: &mut [u32],
) -> Result<u32, Refusal>
    ensures { (outcome_of result ≡ answer (plan_rules geometry design.now disk.0 (length list.old)) (triples_of geometry)) × (list.new ≡ kept (answer (plan_rules geometry design.now disk.0 (length list.old)) (triples_of geometry)) (planned geometry design.now disk.0 list.old) list.old) }
{
    sizes::check_sizes(geometry, design)?;
    if geometry.disks() <= disk.0 {
        return Err(Refusal::PlaceTooHigh);
    }
    let n = triples_of(geometry);
    if list.len() < 3 * n as usize {
        return Err(Refusal::ListTooShort);
    }
    let layout = Layout { geometry, design };
    plan_disk(&layout, disk, list);
    Ok(n)
}
