// The held difference sets (01), and the call that fills a lent list with the design of a held v.
#![tactic(auto)]

ghost use Rattle.std.specs.Prelude.{◌≡◌, ◌*◌, ◌<◌, length, MatchOption};
ghost use Rattle.counting.specs.Lists.{list_of};
ghost use Rattle.refusal.specs.Refusal.{verdict, kept, outcome_of};
ghost use Rattle.held.specs.Held.{table, set_for, held_group, held_design, fill_rules};
ghost use Rattle.held.specs.Reasons.{HeldSet, NoSet};
ghost use Rattle.held.specs.Developed.{Developable, first_past, developed};

use refusal::Refusal;

// A row of the table: "a v and its set", the first `length` of ten members.
#[derive(Clone, Copy)]
struct Held {
    v: u32,
    length: usize,
    members: [u16; 10],
}

// 000's table 1, with 57 for its fifth v (01), each set padded to ten members: no addresses, so that nothing is to be relocated
// where a program is loaded.
static TABLE: [Held; 7] = [
    Held {
        v: 7,
        length: 3,
        members: [0, 1, 3, 0, 0, 0, 0, 0, 0, 0],
    },
    Held {
        v: 13,
        length: 4,
        members: [0, 1, 3, 9, 0, 0, 0, 0, 0, 0],
    },
    Held {
        v: 21,
        length: 5,
        members: [0, 1, 4, 14, 16, 0, 0, 0, 0, 0],
    },
    Held {
        v: 31,
        length: 6,
        members: [0, 1, 3, 8, 12, 18, 0, 0, 0, 0],
    },
    Held {
        v: 57,
        length: 8,
        members: [0, 1, 3, 13, 32, 36, 43, 52, 0, 0],
    },
    Held {
        v: 73,
        length: 9,
        members: [0, 1, 3, 7, 15, 31, 36, 54, 63, 0],
    },
    Held {
        v: 91,
        length: 10,
        members: [0, 1, 3, 9, 27, 49, 56, 61, 77, 81],
    },
];

// The set held for v.
fn set_of(v: u32) -> Option<&'static [u16]>
    ensures { MatchOption result (NoSet v) (λ set. HeldSet table v set.now) }
{
    let Some(held) = TABLE.iter().find(|held| held.v == v) else {
        return None;
    };
    Some(&held.members[..held.length])
}

// Where row i splits the set: the first member that reaches v where i is added to it, and the set's end where none does.
// (`partition_point` would take the fill up to a quarter more instructions.)
fn first_past(v: u16, set: &[u16], i: u16) -> usize
    requires { Developable v set.now × (i < v) }
    ensures { result ≡ first_past v set.now i }
{
    let reaches = v - i;
    set.iter()
        .position(|member| reaches <= *member)
        .unwrap_or(set.len())
}

// The l-th lowest group of row i: the members from `past` on come first, less v, and then the others.
fn group_of(v: u16, set: &[u16], i: u16, past: usize, l: usize) -> u16
    requires { Developable v set.now × (i < v) × (past ≡ first_past v set.now i) × (l < length set.now) }
    ensures { result ≡ held_group v set.now i l }
{
    let wrapped = set.len() - past;
    if l < wrapped {
        set[past + l] + i - v
    } else {
        set[l - wrapped] + i
    }
}

// Row i of the design, into a list of the set's length.
fn develop_row(v: u16, set: &[u16], i: u16, row: &mut [u16])
    requires { Developable v set.now × (i < v) × (length row.old ≡ length set.now) }
    ensures { row.new ≡ list_of (held_group v set.now i) (length set.now) }
{
    let past = first_past(v, set, i);
    for (l, group) in row.iter_mut().enumerate() {
        *group = group_of(v, set, i, past, l);
    }
}

// The design of a set, row after row. (Of what `chunks_exact_mut` lends, no proof knows how it ends.)
fn develop(v: u16, set: &[u16], design: &mut [u16])
    requires { Developable v set.now × (length design.old ≡ v * length set.now) }
    ensures { design.new ≡ list_of (developed v set.now) (v * length set.now) }
{
    let k = set.len();
    for i in 0..v {
        let at = usize::from(i) * k;
        develop_row(v, set, i, &mut design[at..at + k]);
    }
}

// k for a held v: how many members its set has, and 0 where no set is held for v.
pub fn set_size(v: u32) -> usize
    ensures { result ≡ length (set_for v) }
{
    set_of(v).map_or(0, |set| set.len())
}

// "A call fills a lent list with the design of a held v" (01): refusal 1 where no set is held for v, 3 where the list's
// length is not b·k; else the list is filled.
pub fn fill(v: u32, design: &mut [u16]) -> Result<(), Refusal>
    ensures { (outcome_of result ≡ verdict (fill_rules v (length design.old))) × (design.new ≡ kept (verdict (fill_rules v (length design.old))) (held_design v) design.old) }
{
    let Some(set) = set_of(v) else {
        return Err(Refusal::NotHeld);
    };
    if design.len() != (v as usize) * set.len() {
        return Err(Refusal::NotWhole);
    }
    develop(v as u16, set, design);
    Ok(())
}
