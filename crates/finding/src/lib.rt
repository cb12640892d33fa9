// What an audit finds (01): "how many sets don't XOR to zero and the lowest such number, 0 if none": a set more, or sets of
// lower numbers that were counted apart.
#![tactic(auto)]

ghost use Rattle.std.specs.Prelude.{◌+◌, ◌^◌, ◌<◌, ◌≤◌, ◌≡◌};
ghost use Rattle.finding.specs.Steps.{with_set, after};

#[derive(Clone, Copy, Debug, PartialEq, Eq)]
pub struct Found {
    pub bad: u32,
    pub lowest: u32,
}

impl Found {
    pub const NONE: Found = Found { bad: 0, lowest: 0 };

    // What is found with set s, the next.
    pub fn with_set(self, s: u32, zero: bool) -> Found
        requires { self.bad ≤ 2000000 }
        ensures { result ≡ with_set self s zero }
    {
        if zero {
            return self;
        }
        Found { bad: 1, lowest: s }.after(self)
    }

    // What is found with `earlier`, of sets that all have lower numbers, too.
    pub fn after(self, earlier: Found) -> Found
        requires { earlier.bad + self.bad < 2 ^ 32 }
        ensures { result ≡ after self earlier }
    {
        if self.bad == 0 {
            return earlier;
        }
        if earlier.bad == 0 {
            return self;
        }
        Found {
            bad: earlier.bad + self.bad,
            lowest: earlier.lowest,
        }
    }
}
