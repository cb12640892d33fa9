// Bytes in one lent list: XOR, copy and zero test. A run is lent as a part that starts at its offset, so each leaf sees plain
// slices. Every loop is one that a compiler turns into vector instructions: no early exit inside it.
#![tactic(auto)]

ghost use Rattle.std.specs.Prelude.{◌≡◌, ◌≤◌, length, replicate};
ghost use Rattle.leaves.specs.Bytes.{xors, all_zero};

// XORs src into the first bytes of dst.
pub fn xor_into(dst: &mut [u8], src: &[u8])
    requires { length src.now ≤ length dst.old }
    ensures { dst.new ≡ xors dst.old src.now }
{
    for i in 0..src.len() {
        dst[i] ^= src[i];
    }
}

// Copies src over dst. (`copy_from_slice` would be a call of memmove, a name that the archive does not ask for.)
pub fn copy_into(dst: &mut [u8], src: &[u8])
    requires { length src.now ≡ length dst.old }
    ensures { dst.new ≡ src.now }
{
    for (i, byte) in dst.iter_mut().enumerate() {
        *byte = src[i];
    }
}

// Makes every byte zero.
pub fn clear(dst: &mut [u8])
    ensures { dst.new ≡ replicate (length dst.old) 0 }
{
    dst.fill(0);
}

// The XOR of two runs, byte by byte: what a write of new over old changes.
pub fn difference(out: &mut [u8], old: &[u8], new: &[u8])
    requires { (length old.now ≡ length out.old) × (length new.now ≡ length out.old) }
    ensures { out.new ≡ xors old.now new.now }
{
    for (i, byte) in out.iter_mut().enumerate() {
        *byte = old[i] ^ new[i];
    }
}

// Whether every byte is zero: the OR of all of them, since a loop that stops early takes a byte a turn.
pub fn zero(src: &[u8]) -> bool
    ensures { result ≡ all_zero src.now }
{
    src.iter().fold(0, |any, byte| any | byte) == 0
}
