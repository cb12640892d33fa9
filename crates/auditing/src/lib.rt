// The audit: how many sets don't XOR to zero, and the lowest of them (01). It is lent no marks.
#![tactic(auto)]

ghost use Rattle.std.specs.Prelude.{◌+◌, ◌-◌, ◌*◌, ◌≤◌, ◌<◌, ◌≡◌, length};
ghost use Rattle.refusal.specs.Refusal.{answer, outcome_of};
ghost use Rattle.geometry.specs.Geometry.{Sound, tuples_of, bytes_of};
ghost use Rattle.sets.specs.Starts.{region_starts, RegionFits, RegionsFit};
ghost use Rattle.finding.specs.Bad.{audit_of};
ghost use Rattle.finding.specs.Steps.{found_from};
ghost use Rattle.auditing.specs.Auditing.{audit_rules};
ghost use Rattle.auditing.specs.Steps.{label_zero, diagonal_zero, outer_zeros, inner_zeros, tuple_found};

use finding::Found;
use geometry::{Geometry, Tuple};
use layout::Layout;
use refusal::Refusal;

// The sets of the labels of one row, from number s on. The room for their starts is made once for all of them.
fn audit_row(
    geometry: Geometry,
    array: &[u8],
    regions: &[usize],
    row: u32,
    s: u32,
    before: Found,
) -> Found
    requires sound { Sound geometry × (length array.now ≡ bytes_of geometry) × RegionsFit geometry regions.now × (row < geometry.g) }
    requires bad_le_s { (before.bad ≤ s) × (s ≤ 1200000) }
    ensures { result ≡ found_from (label_zero geometry regions.now array.now row) before s geometry.g }
{
    let disk = sets::disk_bytes(geometry);
    let k = geometry.k as usize;
    let u = geometry.u as usize;
    let mut room = [0usize; Geometry::K_MAX as usize];
    let starts = &mut room[..k];
    let mut found = before;
    for c in 0..geometry.g {
        sets::label_starts(geometry, disk, regions, row, c, starts);
        found = found.with_set(s + c, runs::zero_sum(array, starts, u));
    }
    found
}

// The sets of the diagonals of the region that begins at start, from number s on.
fn audit_region(geometry: Geometry, array: &[u8], start: usize, s: u32, before: Found) -> Found
    requires sound { Sound geometry × (length array.now ≡ bytes_of geometry) × RegionFits geometry start }
    requires bad_le_s { (before.bad ≤ s) × (s ≤ 1200000) }
    ensures { result ≡ found_from (diagonal_zero geometry start array.now) before s geometry.g }
{
    let disk = sets::disk_bytes(geometry);
    let g = geometry.g as usize;
    let u = geometry.u as usize;
    let mut room = [0usize; Geometry::G_MAX as usize];
    let starts = &mut room[..g];
    let mut found = before;
    for j in 0..geometry.g {
        sets::diagonal_starts(geometry, disk, start, j, starts);
        found = found.with_set(s + j, runs::zero_sum(array, starts, u));
    }
    found
}

// The outer sets of a tuple, from number s on: "i·g+c".
fn audit_labels(geometry: Geometry, array: &[u8], regions: &[usize], s: u32, before: Found) -> Found
    requires sound { Sound geometry × (length array.now ≡ bytes_of geometry) × RegionsFit geometry regions.now }
    requires bad_le_s { (before.bad ≤ s) × (s + 286 ≤ 1200000) }
    ensures { result ≡ found_from (outer_zeros geometry regions.now array.now) before s ((geometry.g - 1) * geometry.g) }
{
    let mut found = before;
    for i in 0..geometry.g - 1 {
        found = audit_row(geometry, array, regions, i, s + i * geometry.g, found);
    }
    found
}

// The inner sets of a tuple, from number s on: "l·g + j".
fn audit_diagonals(
    geometry: Geometry,
    array: &[u8],
    regions: &[usize],
    s: u32,
    before: Found,
) -> Found
    requires sound { Sound geometry × (length array.now ≡ bytes_of geometry) × RegionsFit geometry regions.now }
    requires bad_le_s { (before.bad ≤ s) × (s + 130 ≤ 1200000) }
    ensures { result ≡ found_from (inner_zeros geometry regions.now array.now) before s (geometry.k * geometry.g) }
{
    let mut found = before;
    for l in 0..geometry.k {
        let start = regions[l as usize];
        found = audit_region(geometry, array, start, s + l * geometry.g, found);
    }
    found
}

// All sets of a tuple, from number s on: "(g-1)g + l·g + j for inner". The inner ones are read first: a region lies on g disks, a
// row of labels on kg, and so many runs at once make a processor wait for memory.
fn audit_sets(geometry: Geometry, array: &[u8], regions: &[usize], s: u32, before: Found) -> Found
    requires sound { Sound geometry × (length array.now ≡ bytes_of geometry) × RegionsFit geometry regions.now }
    requires bad_le_s { (before.bad ≤ s) × (s + 286 ≤ 1200000) }
    ensures { result ≡ tuple_found geometry regions.now array.now before s }
{
    let next = s + (geometry.g - 1) * geometry.g;
    let inner = audit_diagonals(geometry, array, regions, next, Found::NONE);
    let outer = audit_labels(geometry, array, regions, s, before);
    inner.after(outer)
}

// The same for the regions that the design gives the tuple. It is read here, once for each of them.
fn audit_tuple(layout: &Layout, array: &[u8], tuple: Tuple, s: u32, before: Found) -> Found
    requires array_len { (length array.now ≡ bytes_of layout.now.geometry) × (tuple.0 < tuples_of layout.now.geometry) }
    requires bad_le_s { (before.bad ≤ s) × (s + 286 ≤ 1200000) }
    ensures { result ≡ tuple_found layout.now.geometry (region_starts layout.now.geometry layout.now.design.now tuple.0) array.now before s }
{
    let k = layout.geometry.k as usize;
    let mut room = [0usize; Geometry::K_MAX as usize];
    let regions = &mut room[..k];
    sets::region_starts(layout, tuple, regions);
    audit_sets(layout.geometry, array, regions, s, before)
}

// All sets, tuple by tuple.
fn audit_all(layout: &Layout, array: &[u8]) -> Found
    requires { length array.now ≡ bytes_of layout.now.geometry }
    ensures { result ≡ audit_of layout.now.geometry layout.now.design.now array.now }
{
    let sets = layout.geometry.tuple_sets();
    let mut found = Found::NONE;
    for t in 0..layout.geometry.tuples() {
        found = audit_tuple(layout, array, Tuple(t), t * sets, found);
    }
    found
}

// "how many sets don't XOR to zero and the lowest such number, 0 if none", or the refusal: 2 to 7.
pub fn audit(geometry: Geometry, design: &[u16], array: &[u8]) -> Result<Found, Refusal>
    ensures { outcome_of result ≡ answer (audit_rules geometry design.now (length array.now)) (audit_of geometry design.now array.now) }
{
    sizes::check_sizes(geometry, design)?;
    if !array::array_fits(geometry, array.len()) {
        return Err(Refusal::WrongLength);
    }
    let layout = Layout { geometry, design };
    Ok(audit_all(&layout, array))
}
