// What a host controller written in C calls: numbers and lent slices in, one flat struct of numbers out (crates/answers).
// include/himzolven.h declares each of these for C.
#![tactic(auto)]

ghost use Rattle.std.specs.Prelude.{◌≡◌, length};
ghost use Rattle.refusal.specs.Refusal.{answer, verdict, kept};
ghost use Rattle.checking.specs.Rules.{design_rules};
ghost use Rattle.held.specs.Held.{fill_rules, held_design};
ghost use Rattle.sizes.specs.Sizes.{sizes_rules, sizes_of};
ghost use Rattle.address.specs.Address.{map_rules, role_rules};
ghost use Rattle.layout.specs.Places.{four_of, role_at};
ghost use Rattle.array.specs.Array.{formatted_array, formatted_marks};
ghost use Rattle.array.specs.Rules.{array_rules};
ghost use Rattle.reading.specs.Reading.{read_of, read_rules};
ghost use Rattle.fourfold.specs.Writing.{write_of};
ghost use Rattle.writing.specs.Writing.{write_rules};
ghost use Rattle.finding.specs.Bad.{audit_of};
ghost use Rattle.auditing.specs.Auditing.{audit_rules};
ghost use Rattle.planning.specs.Plan.{triples_of, planned, plan_rules};
ghost use Rattle.rebuilding.specs.Rebuild.{rebuilt_of, restored_of, rebuild_rules};
ghost use Rattle.answers.specs.Flat.{geometry, flat_answer, flat_sizes, flat_map, flat_role, flat_audit, flat_count};

use answers::{Answer, AuditAnswer, CountAnswer, MapAnswer, RoleAnswer, SizesAnswer};
use geometry::{Disk, Geometry, Unit, UserUnit};

// Fills the list with the design of a held v: refusals 1 and 3.
pub fn himzolven_fill(v: u32, design: &mut [u16]) -> Answer
    ensures { (result ≡ flat_answer (verdict (fill_rules v (length design.old))))
        × (design.new
        ≡ kept (verdict (fill_rules v (length design.old))) (held_design v) design.old) }
{
    held::fill(v, design).into()
}

// Checks a design: refusals 2 to 5.
pub fn himzolven_check(v: u32, k: u32, design: &[u16]) -> Answer
    ensures { result ≡ flat_answer (verdict (design_rules v k design.now)) }
{
    checking::check(v, k, design).into()
}

// The sizes of a design and geometry: refusals 2 to 6.
pub fn himzolven_sizes(v: u32, k: u32, g: u32, u: u32, design: &[u16]) -> SizesAnswer
    ensures { result
        ≡ flat_sizes (answer (sizes_rules (geometry v k g u) design.now) (sizes_of (geometry v k g u))) }
{
    sizes::sizes_of(Geometry { v, k, g, u }, design).into()
}

// The four places of a user unit: refusals 2 to 6 and 10.
pub fn himzolven_map(v: u32, k: u32, g: u32, u: u32, design: &[u16], user_unit: u32) -> MapAnswer
    ensures { result
        ≡ flat_map
        (answer (map_rules (geometry v k g u) design.now user_unit)
        (four_of (geometry v k g u) design.now user_unit)) }
{
    address::map(Geometry { v, k, g, u }, design, UserUnit(user_unit)).into()
}

// The role of a disk's unit: refusals 2 to 6 and 9.
pub fn himzolven_role(
    v: u32,
    k: u32,
    g: u32,
    u: u32,
    design: &[u16],
    disk: u32,
    unit: u32,
) -> RoleAnswer
    ensures { result
        ≡ flat_role
        (answer (role_rules (geometry v k g u) design.now disk unit)
        (role_at (geometry v k g u) design.now disk unit)) }
{
    address::role(Geometry { v, k, g, u }, design, Disk(disk), Unit(unit)).into()
}

// Makes all array bytes and marks 0: refusals 2 to 8.
pub fn himzolven_format(
    v: u32,
    k: u32,
    g: u32,
    u: u32,
    design: &[u16],
    array: &mut [u8],
    marks: &mut [u8],
) -> Answer
    ensures { (result
        ≡ flat_answer (verdict (array_rules (geometry v k g u) design.now (length array.old) marks.old)))
        × (array.new
        ≡ kept (verdict (array_rules (geometry v k g u) design.now (length array.old) marks.old))
        (formatted_array (geometry v k g u)) array.old)
        × (marks.new
        ≡ kept (verdict (array_rules (geometry v k g u) design.now (length array.old) marks.old))
        (formatted_marks (geometry v k g u)) marks.old) }
{
    array::format(Geometry { v, k, g, u }, design, array, marks).into()
}

// Reads a byte range of one user unit into the lent buffer: refusals 2 to 8 and 10 to 12.
pub fn himzolven_read(
    v: u32,
    k: u32,
    g: u32,
    u: u32,
    design: &[u16],
    array: &[u8],
    marks: &[u8],
    user_unit: u32,
    offset: u64,
    bytes: &mut [u8],
) -> Answer
    ensures { (result
        ≡ flat_answer
        (verdict
        (read_rules (geometry v k g u) design.now (length array.now) marks.now user_unit offset
        (length bytes.old))))
        × (bytes.new
        ≡ kept
        (verdict
        (read_rules (geometry v k g u) design.now (length array.now) marks.now user_unit offset
        (length bytes.old)))
        (read_of (geometry v k g u) design.now array.now user_unit offset (length bytes.old))
        bytes.old) }
{
    reading::read(
        Geometry { v, k, g, u },
        design,
        array,
        marks,
        UserUnit(user_unit),
        offset,
        bytes,
    )
    .into()
}

// Writes a byte range of one user unit, and its difference to what was there into three parity units: refusals 2 to 8 and 10 to 12.
pub fn himzolven_write(
    v: u32,
    k: u32,
    g: u32,
    u: u32,
    design: &[u16],
    array: &mut [u8],
    marks: &[u8],
    user_unit: u32,
    offset: u64,
    bytes: &[u8],
) -> Answer
    ensures { (result
        ≡ flat_answer
        (verdict
        (write_rules (geometry v k g u) design.now (length array.old) marks.now user_unit offset
        (length bytes.now))))
        × (array.new
        ≡ kept
        (verdict
        (write_rules (geometry v k g u) design.now (length array.old) marks.now user_unit offset
        (length bytes.now)))
        (write_of (geometry v k g u) design.now array.old user_unit offset bytes.now)
        array.old) }
{
    writing::write(
        Geometry { v, k, g, u },
        design,
        array,
        marks,
        UserUnit(user_unit),
        offset,
        bytes,
    )
    .into()
}

// How many sets don't XOR to zero, and the lowest of them: refusals 2 to 7.
pub fn himzolven_audit(v: u32, k: u32, g: u32, u: u32, design: &[u16], array: &[u8]) -> AuditAnswer
    ensures { result
        ≡ flat_audit
        (answer (audit_rules (geometry v k g u) design.now (length array.now))
        (audit_of (geometry v k g u) design.now array.now)) }
{
    auditing::audit(Geometry { v, k, g, u }, design, array).into()
}

// Lists the units that are read to restore one disk, and counts the triples: refusals 2 to 6, 9 and 14.
pub fn himzolven_plan(
    v: u32,
    k: u32,
    g: u32,
    u: u32,
    design: &[u16],
    disk: u32,
    list: &mut [u32],
) -> CountAnswer
    ensures { (result
        ≡ flat_count
        (answer (plan_rules (geometry v k g u) design.now disk (length list.old))
        (triples_of (geometry v k g u))))
        × (list.new
        ≡ kept
        (answer (plan_rules (geometry v k g u) design.now disk (length list.old))
        (triples_of (geometry v k g u)))
        (planned (geometry v k g u) design.now disk list.old)
        list.old) }
{
    planning::plan(Geometry { v, k, g, u }, design, Disk(disk), list).into()
}

// Gives the lost disks their bytes back, clears the marks and counts the units restored: refusals 2 to 8 and 13.
pub fn himzolven_rebuild(
    v: u32,
    k: u32,
    g: u32,
    u: u32,
    design: &[u16],
    array: &mut [u8],
    marks: &mut [u8],
) -> CountAnswer
    ensures { (result
        ≡ flat_count
        (answer (rebuild_rules (geometry v k g u) design.now (length array.old) marks.old)
        (restored_of (geometry v k g u) design.now marks.old)))
        × (array.new
        ≡ kept
        (answer (rebuild_rules (geometry v k g u) design.now (length array.old) marks.old)
        (restored_of (geometry v k g u) design.now marks.old))
        (rebuilt_of (geometry v k g u) design.now marks.old array.old)
        array.old)
        × (marks.new
        ≡ kept
        (answer (rebuild_rules (geometry v k g u) design.now (length array.old) marks.old)
        (restored_of (geometry v k g u) design.now marks.old))
        (formatted_marks (geometry v k g u)) marks.old) }
{
    rebuilding::rebuild(Geometry { v, k, g, u }, design, array, marks).into()
}
