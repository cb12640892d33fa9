// The design's list, scanned entry by entry for a group.
ghost use Rattle.std.specs.Prelude.{ℕ, ◌≤◌, ◌<◌, ◌≡◌, ◌&&◌, get_or, length, eqb};
ghost use Rattle.counting.specs.Counting.{count_below, first_below};

use geometry::{Group, Part};

// How many entries before `end` are the group. The count is as wide as an entry, so that the loop works on many at once.
pub fn count_entries(design: &[u16], a: Group, end: usize) -> u16
    requires { (end ≤ length design.now) × (end ≤ 8190) × (a.0 ≤ 65535) }
    ensures { result ≡ count_below (λ (e : ℕ). eqb (get_or design.now e 0) a.0) end }
{
    let name = a.0 as u16;
    let mut n: u16 = 0;
    for entry in &design[..end] {
        if *entry == name {
            n += 1;
        }
    }
    n
}

// The p-th entry, from 0, that is the group.
pub fn find_entry(design: &[u16], a: Group, p: Part) -> Option<usize>
    requires { (length design.now ≤ 8190) × (a.0 ≤ 65535) × (p.0 ≤ 65535) }
    ensures { let is_group = λ (e : ℕ). eqb (get_or design.now e 0) a.0 in
        result ≡ first_below (λ (e : ℕ). is_group e && eqb (count_below is_group e) p.0) (length design.now) }
{
    let name = a.0 as u16;
    let wanted = p.0 as u16;
    let mut n: u16 = 0;
    for (at, entry) in design.iter().enumerate() {
        if *entry == name {
            if n == wanted {
                return Some(at);
            }
            n += 1;
        }
    }
    None
}
