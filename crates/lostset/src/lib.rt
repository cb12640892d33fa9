// The set of lost disks (01, rebuild): "a value that hands back a new one when a disk is added or taken out".
#![tactic(auto)]

ghost use Rattle.std.specs.Prelude.{◌≡◌, set};
ghost use Rattle.lostset.specs.Lost.{has, none_marked, marked, cleared, flags_of};

use geometry::{Disk, Geometry};

// One flag a disk, for the most disks that an array can have.
#[derive(Clone, Copy, Debug, PartialEq, Eq)]
pub struct LostSet {
    pub flags: [bool; LostSet::MOST],
}

impl LostSet {
    // 91 groups of 13.
    pub const MOST: usize = (Geometry::V_MAX * Geometry::G_MAX) as usize;

    pub fn none() -> LostSet
        ensures { result.flags ≡ none_marked }
    {
        LostSet {
            flags: [false; LostSet::MOST],
        }
    }

    // The set with one flag as given. A number too high leaves it as it is.
    fn put(mut self, disk: Disk, lost: bool) -> LostSet
        ensures { result.flags ≡ set self.flags disk.0 lost }
    {
        let at = disk.0 as usize;
        if at < self.flags.len() {
            self.flags[at] = lost;
        }
        self
    }

    pub fn mark(self, disk: Disk) -> LostSet
        ensures { result.flags ≡ marked self.flags disk.0 }
    {
        self.put(disk, true)
    }

    pub fn clear(self, disk: Disk) -> LostSet
        ensures { result.flags ≡ cleared self.flags disk.0 }
    {
        self.put(disk, false)
    }

    pub fn has(self, disk: Disk) -> bool
        ensures { result ≡ has self.flags disk.0 }
    {
        self.flags.get(disk.0 as usize).copied().unwrap_or(false)
    }
}

// The disks whose mark is 1.
pub fn from_marks(marks: &[u8]) -> LostSet
    ensures { result.flags ≡ flags_of marks.now }
{
    let mut lost = LostSet::none();
    for x in 0..marks.len().min(LostSet::MOST) {
        lost.flags[x] = marks[x] == 1;
    }
    lost
}
