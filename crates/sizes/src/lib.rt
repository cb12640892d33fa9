// The sizes of a checked design and geometry: refusals 2 to 6.
#![tactic(auto)]

ghost use Rattle.std.specs.Prelude.{◌≡◌};
ghost use Rattle.refusal.specs.Refusal.{answer, verdict, outcome_of};
ghost use Rattle.geometry.specs.Geometry.{Sound};
ghost use Rattle.sizes.specs.Sizes.{sizes_rules, sizes_of};

use geometry::Geometry;
use refusal::Refusal;

// What is derived from a geometry: parts of a disk (r), tuples (b), disks, units of a disk, user units, sets, bytes of the array.
#[derive(Clone, Copy)]
pub struct Sizes {
    pub parts: u32,
    pub tuples: u32,
    pub disks: u32,
    pub units: u32,
    pub users: u32,
    pub sets: u32,
    pub bytes: u64,
}

// Refusals 2 to 6, which every call on a design and a geometry tests first: the design, then g and u.
pub fn check_sizes(geometry: Geometry, design: &[u16]) -> Result<(), Refusal>
    ensures { outcome_of result ≡ verdict (sizes_rules geometry design.now) }
{
    checking::check(geometry.v, geometry.k, design)?;
    if !geometry::sizes_allowed(geometry.k, geometry.g, geometry.u) {
        return Err(Refusal::NotAllowed);
    }
    Ok(())
}

// The derived numbers of a geometry, by name.
fn derived(geometry: Geometry) -> Sizes
    requires { Sound geometry }
    ensures { result ≡ sizes_of geometry }
{
    Sizes {
        parts: geometry.parts(),
        tuples: geometry.tuples(),
        disks: geometry.disks(),
        units: geometry.units(),
        users: geometry.user_units(),
        sets: geometry.sets(),
        bytes: geometry.bytes(),
    }
}

// The derived numbers of a geometry with its design, or the refusal: 2 to 6.
pub fn sizes_of(geometry: Geometry, design: &[u16]) -> Result<Sizes, Refusal>
    ensures { outcome_of result ≡ answer (sizes_rules geometry design.now) (sizes_of geometry) }
{
    check_sizes(geometry, design)?;
    Ok(derived(geometry))
}
