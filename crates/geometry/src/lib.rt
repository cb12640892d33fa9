// The numbers of document 000, each a type of its own, and the geometry with its limits and derived sizes.
#![tactic(auto)]

ghost use Rattle.std.specs.Prelude.{◌≡◌};
ghost use Rattle.geometry.specs.Geometry.{Limits, Sound, beyond_limits, r_of, b_of, whole, no_divisor_below, sizes_allowed, disks_of, parts_of, units_of, tuples_of, user_units_of, tuple_sets_of, sets_of, bytes_of};

// 01: "a disk number never stands where a unit number is meant".
#[derive(Clone, Copy, Debug, PartialEq, Eq)]
pub struct Disk(pub u32);

#[derive(Clone, Copy, Debug, PartialEq, Eq)]
pub struct Group(pub u32);

#[derive(Clone, Copy, Debug, PartialEq, Eq)]
pub struct Tuple(pub u32);

#[derive(Clone, Copy, Debug, PartialEq, Eq)]
pub struct Part(pub u32);

#[derive(Clone, Copy, Debug, PartialEq, Eq)]
pub struct Unit(pub u32);

#[derive(Clone, Copy, Debug, PartialEq, Eq)]
pub struct UserUnit(pub u32);

// v groups, k of them in a tuple, g disks in a group, u bytes in a unit.
#[derive(Clone, Copy, Debug, PartialEq, Eq)]
pub struct Geometry {
    pub v: u32,
    pub k: u32,
    pub g: u32,
    pub u: u32,
}

// "v or k beyond its limits" (01, refusal 2).
pub fn beyond_limits(v: u32, k: u32) -> bool
    ensures { result ≡ beyond_limits v k }
{
    !(Geometry::V_MIN..=Geometry::V_MAX).contains(&v)
        || !(Geometry::K_MIN..=Geometry::K_MAX).contains(&k)
        || v < k
}

// r = (v-1)/(k-1): in how many tuples a group stands.
pub fn r_of(v: u32, k: u32) -> u32
    requires { Limits v k }
    ensures { result ≡ r_of v k }
{
    (v - 1) / (k - 1)
}

// b = v(v-1)/(k(k-1)): how many tuples there are.
pub fn b_of(v: u32, k: u32) -> u32
    requires { Limits v k }
    ensures { result ≡ b_of v k }
{
    v * (v - 1) / (k * (k - 1))
}

// Neither division leaves a rest.
pub fn is_whole(v: u32, k: u32) -> bool
    requires { Limits v k }
    ensures { result ≡ whole v k }
{
    r_of(v, k) * (k - 1) == v - 1 && b_of(v, k) * (k * (k - 1)) == v * (v - 1)
}

// No e with 2 ≤ e < n divides g.
pub fn no_divisor_below(n: u32, g: u32) -> bool
    ensures { result ≡ no_divisor_below n g }
{
    (2..n).all(|e| g % e != 0)
}

// "g is a prime from 2 to 13 and at least k. A unit has u bytes, 1 to 4,096" (01); else refusal 6.
pub fn sizes_allowed(k: u32, g: u32, u: u32) -> bool
    ensures { result ≡ sizes_allowed k g u }
{
    (Geometry::G_MIN..=Geometry::G_MAX).contains(&g)
        && k <= g
        && (Geometry::U_MIN..=Geometry::U_MAX).contains(&u)
        && no_divisor_below(g, g)
}

// "The limits and the derived sizes belong to the geometry itself and are asked of it by name" (01).
impl Geometry {
    pub const V_MIN: u32 = 2;

    pub const V_MAX: u32 = 91;

    pub const K_MIN: u32 = 2;

    pub const K_MAX: u32 = 10;

    pub const G_MIN: u32 = 2;

    pub const G_MAX: u32 = 13;

    pub const U_MIN: u32 = 1;

    pub const U_MAX: u32 = 4096;

    // "v·g·r·g·u bytes, at most 1,073,741,824"
    pub const BYTES_MAX: u64 = 1_073_741_824;

    pub fn r(self) -> u32
        requires { Limits self.v self.k }
        ensures { result ≡ r_of self.v self.k }
    {
        r_of(self.v, self.k)
    }

    pub fn b(self) -> u32
        requires { Limits self.v self.k }
        ensures { result ≡ b_of self.v self.k }
    {
        b_of(self.v, self.k)
    }

    pub fn disks(self) -> u32
        requires { Sound self }
        ensures { result ≡ disks_of self }
    {
        self.v * self.g
    }

    pub fn parts(self) -> u32
        requires { Sound self }
        ensures { result ≡ parts_of self }
    {
        self.r()
    }

    // The units of one disk.
    pub fn units(self) -> u32
        requires { Sound self }
        ensures { result ≡ units_of self }
    {
        self.r() * self.g
    }

    pub fn tuples(self) -> u32
        requires { Sound self }
        ensures { result ≡ tuples_of self }
    {
        self.b()
    }

    pub fn user_units(self) -> u32
        requires { Sound self }
        ensures { result ≡ user_units_of self }
    {
        self.b() * (self.k - 1) * (self.g - 1) * self.g
    }

    // The sets of one tuple.
    pub fn tuple_sets(self) -> u32
        requires { Sound self }
        ensures { result ≡ tuple_sets_of self }
    {
        (self.g - 1) * self.g + self.k * self.g
    }

    pub fn sets(self) -> u32
        requires { Sound self }
        ensures { result ≡ sets_of self }
    {
        self.b() * self.tuple_sets()
    }

    pub fn bytes(self) -> u64
        requires { Sound self }
        ensures { result ≡ bytes_of self }
    {
        u64::from(self.disks()) * u64::from(self.r()) * u64::from(self.g) * u64::from(self.u)
    }
}
