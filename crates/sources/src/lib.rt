// The triples of one unit: it, and each unit that is read to restore it, stored into the list from a place on. A tuple's regions are
// in hand, so nothing here reads the design.
#![tactic(auto)]

ghost use Rattle.std.specs.Prelude.{ℕ, ◌+◌, ◌≤◌, ◌<◌, ◌≡◌, length};
ghost use Rattle.geometry.specs.Geometry.{Sound};
ghost use Rattle.cells.specs.Ranges.{CellIn};
ghost use Rattle.layout.specs.declared.Place.{Place};
ghost use Rattle.layout.specs.Ranges.{SmallRegion};
ghost use Rattle.sources.specs.Written.{Written, Regions, in_hand, Told, triple_of, set_triples, outer_source, inner_source, unit_triples};

use cells::Cell;
use geometry::{Geometry, Unit};
use layout::{Place, Region};

// The list that the triples are stored into, and the place of the next one.
#[derive(Drop)]
pub struct Triples<'a> {
    pub list: &'a mut [u32],
    pub next: usize,
}

impl Triples<'_> {
    // "the triple: unit restored, source disk, source unit"
    fn put(&mut self, unit: Unit, source: Place)
        requires { self.old.next + 3 ≤ length self.old.list.now }
        ensures { Written self.old (triple_of unit.0 source) self.new }
    {
        let at = self.next;
        self.list[at] = unit.0;
        self.list[at + 1] = source.disk.0;
        self.list[at + 2] = source.unit.0;
        self.next = at + 3;
    }
}

// The place of the member at a position of the outer set of label (row,column).
fn outer_source(
    geometry: Geometry,
    regions: &[Region],
    position: u32,
    row: u32,
    column: u32,
) -> Place
    requires sound { Sound geometry × Regions geometry regions.now }
    requires position_lt_k { (position < geometry.k) × (row < geometry.g) × (column < geometry.g) }
    ensures { result ≡ outer_source geometry (in_hand regions.now) row column position }
{
    let x = region::column_of_label(geometry.g, position, row, column);
    layout::place_in(geometry, regions[position as usize], row, x)
}

// The place of the member in a row of a region's diagonal.
fn inner_source(geometry: Geometry, region: Region, row: u32, diagonal: u32) -> Place
    requires sound { Sound geometry × SmallRegion region }
    requires row_lt_g { (row < geometry.g) × (diagonal < geometry.g) }
    ensures { result ≡ inner_source geometry region diagonal row }
{
    let x = region::column_of_diagonal(geometry.g, diagonal, row);
    layout::place_in(geometry, region, row, x)
}

// The triples of a unit by the members of its set, of which `own` is the unit itself; `source` tells where a member lies.
fn plan_set<F: Fn(u32) -> Place>(
    source: F,
    members: u32,
    own: u32,
    unit: Unit,
    triples: &mut Triples,
)
    ghost place: { ℕ → Place }
    requires told { Told (F.pre source) (F.post source) place members }
    requires members_in_bounds { triples.old.next + length (set_triples place own unit.0 members) ≤ length triples.old.list.now }
    ensures { Written triples.old (set_triples place own unit.0 members) triples.new }
{
    for e in 0..members {
        if e != own {
            triples.put(unit, source(e));
        }
    }
}

// The triples of the unit at which the cell lies: below row g-1 "by position of the member (outer)", in it "by row of the member
// (inner)".
pub fn plan_unit(
    geometry: Geometry,
    regions: &[Region],
    unit: Unit,
    at: Cell,
    triples: &mut Triples,
)
    requires sound { Sound geometry × Regions geometry regions.now × CellIn geometry at }
    requires at_in_bounds { triples.old.next + length (unit_triples geometry (in_hand regions.now) unit.0 at) ≤ length triples.old.list.now }
    ensures { Written triples.old (unit_triples geometry (in_hand regions.now) unit.0 at) triples.new }
{
    let row = at.row;
    if row < geometry.g - 1 {
        let column = region::label_at(geometry.g, at.position, row, at.column);
        let source = move |e| outer_source(geometry, regions, e, row, column);
        return plan_set(source, geometry.k, at.position, unit, triples);
    }
    let region = regions[at.position as usize];
    let diagonal = region::diagonal_at(geometry.g, row, at.column);
    let source = move |i| inner_source(geometry, region, i, diagonal);
    plan_set(source, geometry.g, row, unit, triples);
}
