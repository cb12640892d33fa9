// Where the cells of a design's tuples lie on the disks, and which cell lies at a place. The map looks up each of its two
// regions once.
#![tactic(auto)]

pub mod scan; // scan.rt: a group's entries in the design

ghost use Rattle.std.specs.Prelude.{◌+◌, ◌*◌, ◌≤◌, ◌<◌, ◌≡◌};
ghost use Rattle.geometry.specs.Geometry.{Sound, tuples_of, disks_of, units_of, user_units_of};
ghost use Rattle.design.specs.Design.{Laid};
ghost use Rattle.design.proofs.Laid.{Laid_prop};
ghost use Rattle.cells.specs.Ranges.{CellIn};
ghost use Rattle.layout.specs.Regions.{region_of};
ghost use Rattle.layout.specs.Places.{in_region, place_of, cell_at, role_at, pair_of, four_of};
ghost use Rattle.layout.specs.Ranges.{RegionIn, SmallRegion};

use cells::{Cell, Role};
use geometry::{Disk, Geometry, Group, Part, Tuple, Unit, UserUnit};
use std::fmt;

// Where a unit lies: "disk/unit" (01).
#[derive(Clone, Copy, Debug, PartialEq, Eq)]
pub struct Place {
    pub disk: Disk,
    pub unit: Unit,
}

impl fmt::Display for Place {
    ghost use Rattle.std.specs.Prelude.{Some, codes, ◌++◌};
    ghost use Rattle.std.specs.Fmt.{decimal};

    ghost output = { λ x. Some (decimal x.disk.0 ++ (codes "/" ++ decimal x.unit.0)) };

    fn fmt<W: fmt::Write>(&self, f: &mut fmt::Formatter<W>) -> fmt::Result {
        write!(f, "{}/{}", self.disk.0, self.unit.0)
    }
}

// "Let a region be one part of all g disks of a group"
#[derive(Clone, Copy, Debug, PartialEq, Eq)]
pub struct Region {
    pub group: Group,
    pub part: Part,
}

// The places of a cell and of its diagonal's parity.
#[derive(Clone, Copy, Debug, PartialEq, Eq)]
pub struct Pair {
    pub own: Place,
    pub inner: Place,
}

// "Places are disk/unit: data, outer parity, inner of data, inner of outer" (01).
#[derive(Clone, Copy, Debug, PartialEq, Eq)]
pub struct Four {
    pub user: Place,
    pub outer: Place,
    pub inner: Place,
    pub both: Place,
}

// A design with the geometry that it is laid out for, as is known where none of the refusals 2 to 6 refuses.
#[derive(Clone, Copy)]
pub struct Layout<'a> {
    pub geometry: Geometry,
    pub design: &'a [u16],
    pub ghost laid: { Laid geometry design.now } by { Laid_prop geometry design.now },
}

// Where the tuple's row begins in the design.
pub fn row_start(geometry: Geometry, tuple: Tuple) -> usize
    requires sound { Sound geometry }
    requires tuple_bound { tuple.0 < tuples_of geometry }
    ensures { (result ≡ tuple.0 * geometry.k) × (result + geometry.k ≤ tuples_of geometry * geometry.k) × (result + geometry.k ≤ 8190) }
{
    (tuple.0 * geometry.k) as usize
}

// "disk d is in group d/g (whole part), column d mod g"; "unit number = part·g + row"
pub fn place_in(geometry: Geometry, region: Region, row: u32, column: u32) -> Place
    requires sound { Sound geometry }
    requires small_region { SmallRegion region × (row < geometry.g) × (column < geometry.g) }
    ensures { result ≡ in_region geometry region row column }
{
    Place {
        disk: Disk(region.group.0 * geometry.g + column),
        unit: Unit(region.part.0 * geometry.g + row),
    }
}

impl Layout<'_> {
    // The region at a position of a tuple: "A group's part p belongs to the p-th row of the design, from 0, that names it."
    pub fn region_of(&self, tuple: Tuple, position: u32) -> Region
        requires { RegionIn self.now.geometry tuple.0 position }
        ensures { (result ≡ region_of self.now.geometry self.now.design.now tuple.0 position) × SmallRegion result }
    {
        let start = row_start(self.geometry, tuple);
        let at = start + position as usize;
        let group = Group(u32::from(self.design[at]));
        let part = Part(u32::from(scan::count_entries(self.design, group, start)));
        Region { group, part }
    }

    pub fn place_of(&self, at: Cell) -> Place
        requires { CellIn self.now.geometry at }
        ensures { result ≡ place_of self.now.geometry self.now.design.now at }
    {
        let region = self.region_of(at.tuple, at.position);
        place_in(self.geometry, region, at.row, at.column)
    }

    // A cell and its inner parity lie in one region.
    pub fn pair_of(&self, at: Cell) -> Pair
        requires { CellIn self.now.geometry at }
        ensures { result ≡ pair_of self.now.geometry self.now.design.now at }
    {
        let region = self.region_of(at.tuple, at.position);
        let parity = cells::inner_of(self.geometry, at);
        Pair {
            own: place_in(self.geometry, region, at.row, at.column),
            inner: place_in(self.geometry, region, parity.row, parity.column),
        }
    }

    // The four places of a user unit.
    pub fn four_of(&self, n: UserUnit) -> Four
        requires { n.0 < user_units_of self.now.geometry }
        ensures { result ≡ four_of self.now.geometry self.now.design.now n.0 }
    {
        let digits = numbering::digits_of(self.geometry, n);
        let of_data = self.pair_of(cells::data_cell(self.geometry, digits));
        let of_outer = self.pair_of(cells::parity_cell(self.geometry, digits));
        let user = of_data.own;
        let outer = of_outer.own;
        let inner = of_data.inner;
        let both = of_outer.inner;
        Four {
            user,
            outer,
            inner,
            both,
        }
    }

    // The cell that lies at a unit of a disk.
    pub fn cell_at(&self, disk: Disk, unit: Unit) -> Cell
        requires { (disk.0 < disks_of self.now.geometry) × (unit.0 < units_of self.now.geometry) }
        ensures { (result ≡ cell_at self.now.geometry self.now.design.now disk.0 unit.0) × CellIn self.now.geometry result }
    {
        let g = self.geometry.g;
        let k = self.geometry.k as usize;
        let at = scan::find_entry(self.design, Group(disk.0 / g), Part(unit.0 / g)).unwrap();
        Cell {
            tuple: Tuple((at / k) as u32),
            position: (at % k) as u32,
            row: unit.0 % g,
            column: disk.0 % g,
        }
    }

    pub fn role_at(&self, disk: Disk, unit: Unit) -> Role
        requires { (disk.0 < disks_of self.now.geometry) × (unit.0 < units_of self.now.geometry) }
        ensures { result ≡ role_at self.now.geometry self.now.design.now disk.0 unit.0 }
    {
        cells::role_of(self.geometry, self.cell_at(disk, unit))
    }
}
