// The read: a byte range of one user unit, into a lent buffer (01).
#![tactic(auto)]

ghost use Rattle.std.specs.Prelude.{◌+◌, ◌≤◌, ◌<◌, ◌≡◌, [], ◌∷◌, length};
ghost use Rattle.refusal.specs.Refusal.{verdict, kept, outcome_of};
ghost use Rattle.geometry.specs.Geometry.{Sound, bytes_of};
ghost use Rattle.layout.specs.Ranges.{PlaceIn};
ghost use Rattle.leaves.specs.Bytes.{run};
ghost use Rattle.array.specs.Array.{start_of};
ghost use Rattle.reading.specs.Reading.{read_of, mark_rule, read_rules};

use geometry::{Geometry, UserUnit};
use layout::{Layout, Place};
use refusal::Refusal;

// Copies a range of the unit at a place.
fn copy_range(geometry: Geometry, array: &[u8], place: Place, offset: u64, out: &mut [u8])
    requires { Sound geometry × PlaceIn geometry place × (offset + length out.old ≤ geometry.u) × (length array.now ≡ bytes_of geometry) }
    ensures { out.new ≡ run array.now (start_of geometry place + offset) (length out.old) }
{
    let start = array::start_of(geometry, place) + offset as usize;
    let end = start + out.len();
    leaves::copy_into(out, &array[start..end]);
}

// Refusal 12: the disk of the place is marked.
fn check_mark(geometry: Geometry, marks: &[u8], place: Place) -> Result<(), Refusal>
    requires { place.disk.0 < length marks.now }
    ensures { outcome_of result ≡ verdict (mark_rule geometry marks.now place ∷ []) }
{
    if array::is_lost(geometry, marks, place) {
        return Err(Refusal::Marked(place.disk));
    }
    Ok(())
}

// "Read: a byte range of one user unit into a lent buffer whose length is the range's length", or the refusal: 2 to 8, 10 to 12.
pub fn read(
    geometry: Geometry,
    design: &[u16],
    array: &[u8],
    marks: &[u8],
    n: UserUnit,
    offset: u64,
    out: &mut [u8],
) -> Result<(), Refusal>
    ensures { (outcome_of result ≡ verdict (read_rules geometry design.now (length array.now) marks.now n.0 offset (length out.old))) × (out.new ≡ kept (verdict (read_rules geometry design.now (length array.now) marks.now n.0 offset (length out.old))) (read_of geometry design.now array.now n.0 offset (length out.old)) out.old) }
{
    array::check_array(geometry, design, array.len(), marks)?;
    array::check_range(geometry, n, offset, out.len())?;
    let layout = Layout { geometry, design };
    let place = layout.place_of(cells::user_cell(geometry, n));
    check_mark(geometry, marks, place)?;
    copy_range(geometry, array, place, offset, out);
    Ok(())
}
