// What a write does (01): the difference of new and old bytes of a range, into one data and three parity units.
#![tactic(auto)]

ghost use Rattle.std.specs.Prelude.{◌+◌, ◌≤◌, ◌≡◌, length, map, get_or};
ghost use Rattle.geometry.specs.Geometry.{Sound, bytes_of};
ghost use Rattle.leaves.specs.Bytes.{add_all, difference_at, written, Inside, FirstApart};
ghost use Rattle.fourfold.specs.Ranges.{FourIn, data_start, parity_starts};

use geometry::Geometry;
use layout::Four;

const BLOCK: usize = 64;

// The same bytes at four places, i bytes from the starts on.
fn add_at_four(array: &mut [u8], starts: [usize; 4], i: usize, e: &[u8])
    requires { Inside (length array.old) starts (i + length e.now) }
    ensures { array.new ≡ add_all array.old (map (λ p. p + i) starts) e.now }
{
    for start in starts {
        runs::add_run(array, start + i, e);
    }
}

// Writes a block at most. Its difference is whole before the first store; where its length is a number, it stays in registers.
#[inline(always)]
fn add_block(array: &mut [u8], starts: [usize; 4], i: usize, new: &[u8])
    requires { (length new.now ≤ BLOCK) × Inside (length array.old) starts (i + length new.now) }
    ensures { array.new
        ≡ add_all array.old (map (λ p. p + i) starts) (difference_at array.old (get_or starts 0 0 + i) new.now) }
{
    let p = starts[0] + i;
    let n = new.len();
    let mut room = [0u8; BLOCK];
    let e = &mut room[..n];
    leaves::difference(e, &array[p..p + n], new);
    add_at_four(array, starts, i, e);
}

// Writes new at the first start: block by block, its difference to what was there goes to all four alike.
fn add_four(array: &mut [u8], starts: [usize; 4], new: &[u8])
    requires { Inside (length array.old) starts (length new.now) × FirstApart starts (length new.now) }
    ensures { array.new ≡ add_all array.old starts (difference_at array.old (get_or starts 0 0) new.now) }
{
    let (blocks, rest) = new.as_chunks::<BLOCK>();
    for (b, block) in blocks.iter().enumerate() {
        add_block(array, starts, BLOCK * b, block);
    }
    add_block(array, starts, new.len() - rest.len(), rest);
}

// Writes a range whose call is checked: one check may serve many of these. It is called, not inlined, so that what it keeps on the
// stack does not stand there while the design is checked.
#[inline(never)]
pub fn write_checked(geometry: Geometry, array: &mut [u8], four: Four, offset: u64, bytes: &[u8])
    requires { Sound geometry × FourIn geometry four × (offset + length bytes.now ≤ geometry.u) × (length array.old ≡ bytes_of geometry) }
    ensures { array.new ≡ written array.old (data_start geometry four offset) (parity_starts geometry four offset) bytes.now }
{
    let at = offset as usize;
    let user = array::start_of(geometry, four.user) + at;
    let outer = array::start_of(geometry, four.outer) + at;
    let inner = array::start_of(geometry, four.inner) + at;
    let both = array::start_of(geometry, four.both) + at;
    add_four(array, [user, outer, inner, both], bytes);
}
