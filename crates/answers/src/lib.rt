// The answers of the calls laid out flat for C: one struct of numbers, so that no result has a length that could be wrong. A
// refusal's number and place come first (0 and 0: accepted); a refused call's other numbers are 0.
#![tactic(auto)]

ghost use Rattle.std.specs.Prelude.{◌≡◌};
ghost use Rattle.refusal.specs.Refusal.{outcome_of};
ghost use Rattle.answers.specs.Flat.{flat_answer, flat_sizes, flat_map, flat_role, flat_role_of, flat_audit, flat_count};

use cells::Role;
use finding::Found;
use layout::Four;
use refusal::Refusal;
use sizes::Sizes;

#[repr(C)]
#[derive(Clone, Copy, Default)]
pub struct Answer {
    pub refusal: u32,
    pub place: u32,
}

#[repr(C)]
#[derive(Clone, Copy, Default)]
pub struct SizesAnswer {
    pub refusal: u32,
    pub place: u32,
    pub parts: u32,
    pub tuples: u32,
    pub disks: u32,
    pub units: u32,
    pub user_units: u32,
    pub sets: u32,
    pub bytes: u64,
}

#[repr(C)]
#[derive(Clone, Copy, Default)]
pub struct MapAnswer {
    pub refusal: u32,
    pub place: u32,
    pub data_disk: u32,
    pub data_unit: u32,
    pub outer_disk: u32,
    pub outer_unit: u32,
    pub inner_disk: u32,
    pub inner_unit: u32,
    pub both_disk: u32,
    pub both_unit: u32,
}

#[repr(C)]
#[derive(Clone, Copy, Default)]
pub struct RoleAnswer {
    pub refusal: u32,
    pub place: u32,
    pub kind: u32,
    pub a: u32,
    pub b: u32,
    pub c: u32,
}

#[repr(C)]
#[derive(Clone, Copy, Default)]
pub struct AuditAnswer {
    pub refusal: u32,
    pub place: u32,
    pub bad: u32,
    pub lowest: u32,
}

#[repr(C)]
#[derive(Clone, Copy, Default)]
pub struct CountAnswer {
    pub refusal: u32,
    pub place: u32,
    pub count: u32,
}

// Accepted or refused: there is nothing else to tell.
impl From<Result<(), Refusal>> for Answer {
    ghost from_gives = { λ x r. r ≡ flat_answer (outcome_of x) };

    fn from(x: Result<(), Refusal>) -> Answer {
        match x {
            Ok(()) => Answer::default(),
            Err(why) => Answer {
                refusal: why.number(),
                place: why.place(),
            },
        }
    }
}

// The sizes of a geometry.
impl From<Result<Sizes, Refusal>> for SizesAnswer {
    ghost from_gives = { λ x r. r ≡ flat_sizes (outcome_of x) };

    fn from(x: Result<Sizes, Refusal>) -> SizesAnswer {
        match x {
            Ok(s) => SizesAnswer {
                parts: s.parts,
                tuples: s.tuples,
                disks: s.disks,
                units: s.units,
                user_units: s.users,
                sets: s.sets,
                bytes: s.bytes,
                ..SizesAnswer::default()
            },
            Err(why) => SizesAnswer {
                refusal: why.number(),
                place: why.place(),
                ..SizesAnswer::default()
            },
        }
    }
}

// The four places of a user unit.
impl From<Result<Four, Refusal>> for MapAnswer {
    ghost from_gives = { λ x r. r ≡ flat_map (outcome_of x) };

    fn from(x: Result<Four, Refusal>) -> MapAnswer {
        match x {
            Ok(f) => MapAnswer {
                data_disk: f.user.disk.0,
                data_unit: f.user.unit.0,
                outer_disk: f.outer.disk.0,
                outer_unit: f.outer.unit.0,
                inner_disk: f.inner.disk.0,
                inner_unit: f.inner.unit.0,
                both_disk: f.both.disk.0,
                both_unit: f.both.unit.0,
                ..MapAnswer::default()
            },
            Err(why) => MapAnswer {
                refusal: why.number(),
                place: why.place(),
                ..MapAnswer::default()
            },
        }
    }
}

// What a unit is for: kind 0, 1 or 2 and its numbers.
impl From<Role> for RoleAnswer {
    ghost from_gives = { λ x r. r ≡ flat_role_of x };

    fn from(x: Role) -> RoleAnswer {
        match x {
            Role::User(n) => RoleAnswer {
                a: n.0,
                ..RoleAnswer::default()
            },
            Role::Outer(t, i, c) => RoleAnswer {
                kind: 1,
                a: t.0,
                b: i,
                c,
                ..RoleAnswer::default()
            },
            Role::Inner(t, l, j) => RoleAnswer {
                kind: 2,
                a: t.0,
                b: l,
                c: j,
                ..RoleAnswer::default()
            },
        }
    }
}

// The role of a disk's unit.
impl From<Result<Role, Refusal>> for RoleAnswer {
    ghost from_gives = { λ x r. r ≡ flat_role (outcome_of x) };

    fn from(x: Result<Role, Refusal>) -> RoleAnswer {
        match x {
            Ok(role) => role.into(),
            Err(why) => RoleAnswer {
                refusal: why.number(),
                place: why.place(),
                ..RoleAnswer::default()
            },
        }
    }
}

// How many sets are bad, and the lowest of them.
impl From<Result<Found, Refusal>> for AuditAnswer {
    ghost from_gives = { λ x r. r ≡ flat_audit (outcome_of x) };

    fn from(x: Result<Found, Refusal>) -> AuditAnswer {
        match x {
            Ok(f) => AuditAnswer {
                bad: f.bad,
                lowest: f.lowest,
                ..AuditAnswer::default()
            },
            Err(why) => AuditAnswer {
                refusal: why.number(),
                place: why.place(),
                ..AuditAnswer::default()
            },
        }
    }
}

// How many there are: triples of a plan, units restored.
impl From<Result<u32, Refusal>> for CountAnswer {
    ghost from_gives = { λ x r. r ≡ flat_count (outcome_of x) };

    fn from(x: Result<u32, Refusal>) -> CountAnswer {
        match x {
            Ok(count) => CountAnswer {
                count,
                ..CountAnswer::default()
            },
            Err(why) => CountAnswer {
                refusal: why.number(),
                place: why.place(),
                ..CountAnswer::default()
            },
        }
    }
}
