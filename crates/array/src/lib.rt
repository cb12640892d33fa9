// One lent buffer holds all disks, disk 0 whole, then disk 1; marks are one byte a disk (01).
#![tactic(auto)]

ghost use Rattle.std.specs.Prelude.{◌+◌, ◌≤◌, ◌<◌, ◌≡◌, ltb, length};
ghost use Rattle.counting.specs.Counting.{any_below, first_below};
ghost use Rattle.refusal.specs.Refusal.{verdict, kept, outcome_of};
ghost use Rattle.geometry.specs.Geometry.{Sound, bytes_of};
ghost use Rattle.layout.specs.Marks.{lost};
ghost use Rattle.layout.specs.Ranges.{PlaceIn};
ghost use Rattle.array.specs.Array.{start_of, formatted_array, formatted_marks};
ghost use Rattle.array.specs.Rules.{array_fits, mark_high, array_rules, range_rules};

use geometry::{Disk, Geometry, UserUnit};
use layout::Place;
use refusal::Refusal;

// Where a unit's first byte lies. The number of a unit fits 32 bits, that of a byte need not.
pub fn start_of(geometry: Geometry, place: Place) -> usize
    requires sound { Sound geometry }
    requires place_in { PlaceIn geometry place }
    ensures { (result ≡ start_of geometry place) × (result + geometry.u ≤ bytes_of geometry) }
{
    let unit = place.disk.0 * geometry.units() + place.unit.0;
    unit as usize * geometry.u as usize
}

// Whether an array of this many bytes is the geometry's: "at most 1,073,741,824". The product does not fit 32 bits.
pub fn array_fits(geometry: Geometry, bytes: usize) -> bool
    requires { Sound geometry }
    ensures { result ≡ array_fits geometry bytes }
{
    let whole = geometry.bytes();
    if Geometry::BYTES_MAX < whole {
        return false;
    }
    bytes as u64 == whole
}

// Whether some mark is above 1. No early exit, so that the loop works on many marks at once.
fn any_high(marks: &[u8]) -> bool
    ensures { result ≡ any_below (mark_high marks.now) (length marks.now) }
{
    marks.iter().fold(false, |found, mark| found | (1 < *mark))
}

// The lowest disk with a mark above 1. It is searched for only if there is one.
fn first_high(marks: &[u8]) -> Option<usize>
    ensures { result ≡ first_below (mark_high marks.now) (length marks.now) }
{
    if any_high(marks) {
        marks.iter().position(|mark| 1 < *mark)
    } else {
        None
    }
}

// Refusals 2 to 8, which every call that is lent the array and the marks tests first.
pub fn check_array(
    geometry: Geometry,
    design: &[u16],
    bytes: usize,
    marks: &[u8],
) -> Result<(), Refusal>
    ensures { outcome_of result ≡ verdict (array_rules geometry design.now bytes marks.now) }
{
    sizes::check_sizes(geometry, design)?;
    if !array_fits(geometry, bytes) {
        return Err(Refusal::WrongLength);
    }
    if marks.len() != geometry.disks() as usize {
        return Err(Refusal::WrongLength);
    }
    if let Some(high) = first_high(marks) {
        return Err(Refusal::HighMark(Disk(high as u32)));
    }
    Ok(())
}

// Whether the unit at a place is lost.
pub fn is_lost(geometry: Geometry, marks: &[u8], place: Place) -> bool
    requires { place.disk.0 < length marks.now }
    ensures { result ≡ lost geometry marks.now place }
{
    let disk = place.disk.0 as usize;
    marks[disk] == 1
}

// "range leaves the unit: its offset plus its length is above u". The sum may not fit 64 bits.
fn leaves_unit(u: u32, offset: u64, length: usize) -> bool
    ensures { result ≡ ltb u (offset + length) }
{
    let size = u as u64;
    if size < offset {
        return true;
    }
    size - offset < length as u64
}

// Refusals 10 and 11, of a range of one user unit.
pub fn check_range(
    geometry: Geometry,
    n: UserUnit,
    offset: u64,
    length: usize,
) -> Result<(), Refusal>
    requires { Sound geometry }
    ensures { outcome_of result ≡ verdict (range_rules geometry n.0 offset length) }
{
    if geometry.user_units() <= n.0 {
        return Err(Refusal::UserUnitTooHigh);
    }
    if leaves_unit(geometry.u, offset, length) {
        return Err(Refusal::LeavesUnit);
    }
    Ok(())
}

// "Format: all array bytes become zero, all marks 0", or the refusal: 2 to 8.
pub fn format(
    geometry: Geometry,
    design: &[u16],
    array: &mut [u8],
    marks: &mut [u8],
) -> Result<(), Refusal>
    ensures { (outcome_of result ≡ verdict (array_rules geometry design.now (length array.old) marks.old)) × (array.new ≡ kept (verdict (array_rules geometry design.now (length array.old) marks.old)) (formatted_array geometry) array.old) × (marks.new ≡ kept (verdict (array_rules geometry design.now (length array.old) marks.old)) (formatted_marks geometry) marks.old) }
{
    check_array(geometry, design, array.len(), &marks[..])?;
    leaves::clear(array);
    leaves::clear(marks);
    Ok(())
}
