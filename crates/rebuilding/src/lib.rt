// The rebuild (01): the lost disks get their bytes back from the present ones, or the refusal, before any byte moves.
#![tactic(auto)]

ghost use Rattle.std.specs.Prelude.{◌≤◌, ◌≡◌, [], ◌∷◌, length, count_by};
ghost use Rattle.std.specs.Option.{option_map};
ghost use Rattle.counting.specs.Counting.{first_below};
ghost use Rattle.refusal.specs.Refusal.{answer, kept, outcome_of};
ghost use Rattle.geometry.specs.Geometry.{Sound, tuples_of, disks_of, bytes_of};
ghost use Rattle.array.specs.Array.{formatted_marks};
ghost use Rattle.reaching.specs.Reach.{tuple_cells_of, incomplete};
ghost use Rattle.rebuilding.specs.Rebuild.{rebuilt_of, restored_of, tuple_rule, rebuild_rules};
ghost use Rattle.rebuilding.specs.Marked.{ForMarks};

use geometry::{Geometry, Tuple};
use layout::Layout;
use refusal::Refusal;

// The most cells that a tuple can have.
const CELLS_MAX: usize = (Geometry::K_MAX * Geometry::G_MAX * Geometry::G_MAX) as usize;

// The cells of a tuple: k positions of g rows of g columns.
fn tuple_cells(geometry: Geometry) -> usize
    requires { Sound geometry }
    ensures { (result ≡ tuple_cells_of geometry) × (result ≤ CELLS_MAX) }
{
    (geometry.k * geometry.g * geometry.g) as usize
}

// The lowest tuple that the passes leave incomplete, if there is one. No byte moves. The room for flags and log is made once for
// all tuples.
fn first_incomplete(layout: &Layout, lost: &[bool]) -> Option<Tuple>
    requires { length lost.now ≡ disks_of layout.now.geometry }
    ensures { ForMarks layout.now.geometry lost.now (λ marks.
        option_map (λ t. t.0) result
        ≡ first_below (incomplete layout.now.geometry layout.now.design.now marks) (tuples_of layout.now.geometry)) }
{
    let cells = tuple_cells(layout.geometry);
    let mut flag_room = [false; CELLS_MAX];
    let mut log_room = [0u16; CELLS_MAX];
    let flags = &mut flag_room[..cells];
    let log = &mut log_room[..cells];
    for t in 0..layout.geometry.tuples() {
        let reached = passing::reach(layout, lost, Tuple(t), flags, log);
        if !reached.complete {
            return Some(Tuple(t));
        }
    }
    None
}

// How many disks are lost. A loop, since `filter` and `count` take a flag a turn.
fn lost_disks(lost: &[bool]) -> usize
    ensures { result ≡ count_by (λ x. x) lost.now }
{
    let mut n = 0;
    for is_lost in lost {
        if *is_lost {
            n += 1;
        }
    }
    n
}

// The same tuple, at once for "at most three disks lost": then none is incomplete (completing, Three-lost-disks-are-rebuilt), and
// the passes need not run to know it.
fn lowest_stuck(layout: &Layout, lost: &[bool]) -> Option<Tuple>
    requires { length lost.now ≡ disks_of layout.now.geometry }
    ensures { ForMarks layout.now.geometry lost.now (λ marks.
        option_map (λ t. t.0) result
        ≡ first_below (incomplete layout.now.geometry layout.now.design.now marks) (tuples_of layout.now.geometry)) }
{
    if lost_disks(lost) <= 3 {
        return None;
    }
    first_incomplete(layout, lost)
}

// "Tuples go upwards": each one's passes, and then the bytes of what they restore. Returns how many units that is.
fn rebuild_tuples(layout: &Layout, lost: &[bool], array: &mut [u8]) -> u32
    requires lost_len { length lost.now ≡ disks_of layout.now.geometry }
    requires array_len { length array.old ≡ bytes_of layout.now.geometry }
    ensures { ForMarks layout.now.geometry lost.now (λ marks.
        (result ≡ restored_of layout.now.geometry layout.now.design.now marks)
        × (array.new ≡ rebuilt_of layout.now.geometry layout.now.design.now marks array.old)) }
{
    let cells = tuple_cells(layout.geometry);
    let mut flag_room = [false; CELLS_MAX];
    let mut log_room = [0u16; CELLS_MAX];
    let flags = &mut flag_room[..cells];
    let log = &mut log_room[..cells];
    let mut count: u32 = 0;
    for t in 0..layout.geometry.tuples() {
        let reached = passing::reach(layout, lost, Tuple(t), flags, log);
        replaying::replay(layout, Tuple(t), &log[..reached.count], array);
        count += reached.count as u32;
    }
    count
}

// A checked array, whose disks have the first flags: 13 is known before any byte moves.
fn rebuild_lost(layout: &Layout, flags: &[bool], array: &mut [u8]) -> Result<u32, Refusal>
    requires disks_in_bounds { disks_of layout.now.geometry ≤ length flags.now }
    requires array_len { length array.old ≡ bytes_of layout.now.geometry }
    ensures { let G = layout.now.geometry in
        let design = layout.now.design.now in
        ForMarks G flags.now (λ marks.
        (outcome_of result ≡ answer (tuple_rule G design marks ∷ []) (restored_of G design marks))
        × (array.new ≡ kept (answer (tuple_rule G design marks ∷ []) (restored_of G design marks))
        (rebuilt_of G design marks array.old) array.old)) }
{
    let disks = layout.geometry.disks() as usize;
    let lost = &flags[..disks];
    if let Some(tuple) = lowest_stuck(layout, lost) {
        return Err(Refusal::Incomplete(tuple));
    }
    Ok(rebuild_tuples(layout, lost, array))
}

// "If every tuple completes, the lost disks hold the result, marks become 0, and the count of restored units is returned", or
// the refusal: 2 to 8, 13.
pub fn rebuild(
    geometry: Geometry,
    design: &[u16],
    array: &mut [u8],
    marks: &mut [u8],
) -> Result<u32, Refusal>
    ensures { (outcome_of result
        ≡ answer (rebuild_rules geometry design.now (length array.old) marks.old)
        (restored_of geometry design.now marks.old))
        × (array.new
        ≡ kept (answer (rebuild_rules geometry design.now (length array.old) marks.old)
        (restored_of geometry design.now marks.old))
        (rebuilt_of geometry design.now marks.old array.old) array.old)
        × (marks.new
        ≡ kept (answer (rebuild_rules geometry design.now (length array.old) marks.old)
        (restored_of geometry design.now marks.old))
        (formatted_marks geometry) marks.old) }
{
    array::check_array(geometry, design, array.len(), &marks[..])?;
    let set = lostset::from_marks(&marks[..]);
    let layout = Layout { geometry, design };
    let restored = rebuild_lost(&layout, &set.flags, array)?;
    leaves::clear(marks);
    Ok(restored)
}
