// One unit of a set from the rest of it (01, rebuild: "becomes the XOR of the rest"). It goes block by block, each in a local, so
// that it stays in registers and no buffer of a unit is made.
#![tactic(auto)]

ghost use Rattle.std.specs.Prelude.{◌≡◌, ◌+◌, ◌≤◌, length, get_or};
ghost use Rattle.leaves.specs.Bytes.{xors, sums};
ghost use Rattle.restoring.specs.Restore.{rest_of, stored, restored_in, OneOf};

const BLOCK: usize = 64;

// XORs into room the bytes from offset i on of every source but the own one.
fn gather_rest(room: &mut [u8], array: &[u8], starts: &[usize], own: usize, i: usize)
    requires { OneOf (length array.now) starts.now own (i + length room.old) }
    ensures { room.new ≡ xors room.old
        (sums array.now (rest_of starts.now own) i (length room.old)) }
{
    runs::gather(room, array, &starts[..own], i);
    runs::gather(room, array, &starts[own + 1..], i);
}

// n bytes, a block at most, stored whole on a part that starts at their offset. Where n is a number, they stay in registers.
#[inline(always)]
fn restore_block(array: &mut [u8], starts: &[usize], own: usize, i: usize, n: usize)
    requires { (n ≤ BLOCK) × OneOf (length array.old) starts.now own (i + n) }
    ensures { array.new ≡ stored array.old (get_or starts.now own 0 + i)
        (sums array.old (rest_of starts.now own) i n) }
{
    let p = starts[own] + i;
    let mut room = [0u8; BLOCK];
    let block = &mut room[..n];
    gather_rest(block, array, starts, own, i);
    leaves::copy_into(&mut array[p..p + n], block);
}

// Restores the u bytes from the own start. The runs lie apart, so no block reads what an earlier one stored.
pub fn restore_run(array: &mut [u8], starts: &[usize], own: usize, u: usize)
    requires { OneOf (length array.old) starts.now own u }
    ensures { array.new ≡ restored_in array.old starts.now own u }
{
    for block in 0..u / BLOCK {
        restore_block(array, starts, own, BLOCK * block, BLOCK);
    }
    let rest = u % BLOCK;
    if rest != 0 {
        restore_block(array, starts, own, u - rest, rest);
    }
}
