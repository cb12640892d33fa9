// What the passes over one tuple reach (01, "Calls", rebuild), from the lost disks alone: no byte of the array is named.
#![tactic(auto)]

ghost use Rattle.std.specs.Prelude.{◌≡◌, false, not, ℕ, ◌+◌, ◌*◌, ◌%◌, ◌≤◌, ◌<◌, length, get_or, slice_range, EachIndex};
ghost use Rattle.counting.specs.Counting.{any_below};
ghost use Rattle.geometry.specs.Geometry.{tuples_of, disks_of};
ghost use Rattle.design.specs.Design.{group_at};
ghost use Rattle.reaching.specs.Reach.{tuple_cells_of};
ghost use Rattle.reaching.specs.State.{state, all_seen, start_flags, touched_of};
ghost use Rattle.reaching.specs.State.{ReachRoom, reached_state, reached_all};

use geometry::Tuple;
use layout::Layout;

// Whether every cell is present.
fn all_seen(flags: &[bool]) -> bool
    ensures { result ≡ all_seen flags.now }
{
    !flags.contains(&false)
}

// The flags of the disks of the group at a position of a tuple.
fn group_flags<'a>(layout: &Layout, lost: &'a [bool], tuple: Tuple, position: usize) -> &'a [bool]
    requires tuple_bound { (tuple.0 < tuples_of layout.now.geometry) × (position < layout.now.geometry.k) }
    requires lost_len { length lost.now ≡ disks_of layout.now.geometry }
    ensures { let g = layout.now.geometry.g in
        let base = group_at layout.now.geometry.k layout.now.design.now tuple.0 position * g in
        (length result.now ≡ g) × (result.now ≡ slice_range lost.now base (base + g)) }
{
    let start = layout::row_start(layout.geometry, tuple);
    let group = usize::from(layout.design[start + position]);
    let g = layout.geometry.g as usize;
    let first = group * g;
    &lost[first..first + g]
}

// A row of a region: a column is present where its disk is not lost.
fn fill_row(row: &mut [bool], lost: &[bool])
    requires { length row.old ≡ length lost.now }
    ensures { EachIndex row.new (λ x. get_or row.new x false ≡ not (get_or lost.now x false)) }
{
    for (x, seen) in row.iter_mut().enumerate() {
        *seen = !lost[x];
    }
}

// The rows of a region, all on the same disks.
fn fill_region(region: &mut [bool], lost: &[bool])
    requires { (length region.old ≡ length lost.now * length lost.now) × (1 ≤ length lost.now) × (length lost.now ≤ 13) }
    ensures { EachIndex region.new
        (λ n. get_or region.new n false ≡ not (get_or lost.now (n % length lost.now) false)) }
{
    let g = lost.len();
    for i in 0..g {
        fill_row(&mut region[i * g..i * g + g], lost);
    }
}

// The flags of a tuple's cells before the first pass.
fn start_flags(layout: &Layout, lost: &[bool], tuple: Tuple, flags: &mut [bool])
    requires tuple_bound { tuple.0 < tuples_of layout.now.geometry }
    requires lost_len { (length lost.now ≡ disks_of layout.now.geometry) × (length flags.old ≡ tuple_cells_of layout.now.geometry) }
    ensures { flags.new ≡ start_flags layout.now.geometry layout.now.design.now lost.now tuple.0 }
{
    let g = layout.geometry.g;
    let cells = (g * g) as usize;
    for l in 0..layout.geometry.k as usize {
        let disks = group_flags(layout, lost, tuple, l);
        fill_region(&mut flags[l * cells..l * cells + cells], disks);
    }
}

// Whether a lost disk holds units of the tuple.
fn touched(layout: &Layout, lost: &[bool], tuple: Tuple) -> bool
    requires tuple_bound { tuple.0 < tuples_of layout.now.geometry }
    requires lost_len { length lost.now ≡ disks_of layout.now.geometry }
    ensures { result ≡ touched_of layout.now.geometry layout.now.design.now lost.now tuple.0 }
{
    for l in 0..layout.geometry.k as usize {
        if group_flags(layout, lost, tuple, l).contains(&true) {
            return true;
        }
    }
    false
}

// What the passes over a tuple reach: how many entries the log has, and whether every cell is present at their end.
#[derive(Clone, Copy, Debug, PartialEq, Eq)]
pub struct Reached {
    pub count: usize,
    pub complete: bool,
}

// The passes over a tuple. One that no lost disk touches is left at once, and flags and log stay.
pub fn reach(
    layout: &Layout,
    lost: &[bool],
    tuple: Tuple,
    flags: &mut [bool],
    log: &mut [u16],
) -> Reached
    requires tuple_bound { tuple.0 < tuples_of layout.now.geometry }
    requires reach_room { ReachRoom layout.now.geometry lost.now flags.old log.old }
    ensures { (state flags.new log.new result.count
        ≡ reached_state layout.now.geometry layout.now.design.now lost.now tuple.0 flags.old log.old)
        × (result.complete ≡ reached_all layout.now.geometry layout.now.design.now lost.now tuple.0 flags.old log.old) }
{
    if !touched(layout, lost, tuple) {
        return Reached {
            count: 0,
            complete: true,
        };
    }
    start_flags(layout, lost, tuple, flags);
    let count = reaching::passes(layout.geometry, tuple, flags, log);
    let complete = all_seen(flags);
    Reached { count, complete }
}
