// Runs of bytes inside one lent array: bytes XORed into one, and the test whether several XOR to zero, which goes block by block.
#![tactic(auto)]

ghost use Rattle.std.specs.Prelude.{◌≡◌, ◌+◌, ◌≤◌, length};
ghost use Rattle.leaves.specs.Bytes.{xors, add_at, sums, zero_sum, zero_sum_from, Inside};

// A block of the zero test, in a local (one of 64 bytes does not stay in registers: its zero test is unrolled too early).
const BLOCK: usize = 128;

// XORs e into the array from p on. Every store of a write goes through here, on a part that starts at its offset.
pub fn add_run(array: &mut [u8], p: usize, e: &[u8])
    requires { p + length e.now ≤ length array.old }
    ensures { array.new ≡ add_at array.old p e.now }
{
    leaves::xor_into(&mut array[p..p + e.len()], e);
}

// XORs into room, for every source, the bytes that it has from offset i on: one source a turn, so any number of them.
pub fn gather(room: &mut [u8], array: &[u8], starts: &[usize], i: usize)
    requires { Inside (length array.now) starts.now (i + length room.old) }
    ensures { room.new
        ≡ xors room.old (sums array.now starts.now i (length room.old)) }
{
    let n = room.len();
    for start in starts {
        let p = start + i;
        leaves::xor_into(room, &array[p..p + n]);
    }
}

// Whether n bytes of the sources, a block at most, XOR to zero. Where n is a number, the block stays in registers.
#[inline(always)]
fn zero_block(array: &[u8], starts: &[usize], i: usize, n: usize) -> bool
    requires { (n ≤ BLOCK) × Inside (length array.now) starts.now (i + n) }
    ensures { result ≡ zero_sum_from array.now starts.now i n }
{
    let mut room = [0u8; BLOCK];
    let block = &mut room[..n];
    gather(block, array, starts, i);
    leaves::zero(block)
}

// Whether the runs of u bytes from the starts XOR to zero at every offset.
pub fn zero_sum(array: &[u8], starts: &[usize], u: usize) -> bool
    requires { Inside (length array.now) starts.now u }
    ensures { result ≡ zero_sum array.now starts.now u }
{
    let mut i = 0;

    // Not a `for` over the blocks: where the compiler knows that the rest is shorter than one, it packs fewer of its bytes.
    while BLOCK <= u - i {
        if !zero_block(array, starts, i, BLOCK) {
            return false;
        }
        i += BLOCK;
    }
    zero_block(array, starts, i, u - i)
}
