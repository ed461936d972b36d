// The record that one tag of an accepted policy text yields, as the numbers of its fields.
#![tactic(auto)]

ghost use Rattle.std.specs.Prelude.{◌≡◌, ◌-◌, ◌%◌, ◌≤◌, ◌<◌, length};
ghost use Rattle.paper_lower.specs.Lists.Maybe.{just};
ghost use Rattle.paper_lower.specs.Sets.{plus};
ghost use Rattle.paper_opl.specs.Tree.{decimal as decimal_of};
ghost use Rattle.paper_opl.specs.Naming.{number_in};
ghost use Rattle.paper_opl.specs.Walk.{record_said};
ghost use Rattle.opl_names.specs.Table.{found_of};
ghost use Rattle.opl_table.specs.Numbers.{OPERATION, OBJECT, PARTITION-TASK, PERMISSION-ID, OPERATION-ID, OBJECT-ID, TASK-ID};
ghost use Rattle.opl_spaces.specs.Spaces.{PERMISSIONS, OPERATIONS, OBJECTS, TASKS, limit_of, scratch_words, list_of};
ghost use Rattle.opl_turns.specs.Meaning.{inner_of};
ghost use Rattle.opl_turns.specs.Listing.{Leads};
ghost use Rattle.opl_turns.specs.Turning.{Cardinal, saying_at};
ghost use Rattle.opl_said.specs.Said.{space_at, all_names, Holds, NumberIs, cardinality_at, SaysIt};
ghost use Rattle.opl_said.specs.Forms.{field_at, Inner, MemberIs, NextIs, first_at, set_at, one_said, two_said, three_said, set_said, partitioning_of, wall_of, FieldsAre};

use opl_spaces::{BY_TAGS, OBJECTS, OPERATIONS, PERMISSIONS, ROLES, TASKS, TEMPLATES, USERS};
use opl_table::{
    BOUND_TASK_ID, CARDINALITY, CRITICAL_ROLE, CRITICAL_ROLES, CRITICAL_TASK, LOWER_ROLE, OBJECT,
    OBJECT_ID, OPERATION, OPERATION_ID, PARTITION_TASK, PERMISSION_ID, PREREQ_TASK_ID, ROLE_ID,
    TASK_ID, TEMPLATE_ID, UPPER_ROLE, USER_ID,
};
use opl_tags::value_of;
use opl_turns::{Met, meet};

// The greatest number of partitionings, of walls, and of blocks of one wall.
const MOST: u64 = 16;

// The greatest number of blocks of all walls together.
const BLOCKS: u64 = 256;

// What records are made from: an accepted policy text, accepted task lines, and a scratch buffer whose tables hold the names that both declare.
#[derive(Clone, Copy)]
pub struct Texts<'a> {
    pub policy: &'a [u8],
    pub lines: &'a [u8],
    pub scratch: &'a [u64],
}

// A start tag: the index where its name ends, and the number of listed tags up to it.
#[derive(Clone, Copy)]
pub struct StartTag {
    pub end: usize,
    pub entry: usize,
}

// The fields of a record.
#[derive(Clone, Copy)]
pub struct Fields {
    pub n: u64,
    pub a: u64,
    pub b: u64,
    pub c: u64,
    pub m: u64,
}

// A tag that was met while looking for elements inside another: `Here`, one that is looked for; `Other`, a different one inside it, with the index to go on
// from and the number of listed tags up to there; `Last`, no further one inside.
#[derive(Clone, Copy)]
pub enum Member {
    Other { next: usize, entry: usize },
    Here(StartTag),
    Last,
}

// ---- Names.

// The number of a name in space i.
pub fn number_of(texts: Texts, i: usize, name: &[u8]) -> Option<usize>
    requires { Holds texts.policy.now texts.lines.now texts.scratch.now × (i < 7) }
    ensures { NumberIs (limit_of i) (number_in (space_at (all_names texts.entry.policy.now texts.entry.lines.now) i) name.now) result }
{
    if i < BY_TAGS {
        return opl_spaces::number(texts.policy, texts.scratch, i, name);
    }
    opl_spaces::number(texts.lines, texts.scratch, i, name)
}

// The number of the name in attribute `id` of the start tag whose name ends at `end`, in space i.
fn field(texts: Texts, end: usize, id: u64, i: usize) -> Option<u64>
    requires { Holds texts.policy.now texts.lines.now texts.scratch.now × ((end ≤ length texts.policy.now) × (i < 7)) }
    ensures { NumberIs (limit_of i) (field_at texts.entry.policy.now texts.entry.lines.now end id i) result }
{
    let number = number_of(texts, i, value_of(texts.policy, end, id))?;
    Some(number as u64)
}

// ---- Cardinalities.

// The number that decimal digits write; in an accepted text it is at most 255.
fn decimal(v: &[u8]) -> u64
    requires { decimal_of 0 v.now ≤ 255 }
    ensures { result ≡ decimal_of 0 v.now }
{
    let mut n = 0;
    for b in v {
        n = 10 * n + u64::from(b.saturating_sub(b'0'));
    }
    n
}

// The cardinality of the start tag whose name ends at `end`.
fn cardinality(s: &[u8], end: usize) -> u64
    requires { (end ≤ length s.now) × Cardinal s.now end }
    ensures { result ≡ cardinality_at s.now end }
{
    decimal(value_of(s, end, CARDINALITY))
}

// ---- The elements inside an element.

// Whether an element is one of those that occur inside an element which yields a record.
fn inner(id: u64) -> bool
    ensures { result ≡ inner_of id }
{
    (id == OPERATION)
        | (id == OBJECT)
        | (id == CRITICAL_ROLES)
        | (id == CRITICAL_ROLE)
        | (id == CRITICAL_TASK)
        | (id == PARTITION_TASK)
}

// The next tag from `at` on, while looking for elements e.
fn member_at(texts: Texts, e: u64, at: usize, entry: usize) -> Member
    requires { ((length texts.scratch.now ≡ scratch_words) × Inner e) × ((at ≤ length texts.policy.now) × Leads texts.policy.now (list_of texts.scratch.now) entry at) }
    ensures { MemberIs texts.entry.policy.now (list_of texts.entry.scratch.now) e at result }
{
    let Some(t) = meet(texts.policy, texts.scratch, at, entry) else {
        return Member::Last;
    };
    match t {
        Met::Ended(next) => Member::Other { next, entry },
        Met::Begun { id, end, entry } => {
            if id == e {
                return Member::Here(StartTag { end, entry });
            }
            if inner(id) {
                return Member::Other { next: end, entry };
            }
            Member::Last
        }
    }
}

// The next element e after a start tag.
fn next_member(texts: Texts, e: u64, tag: StartTag) -> Option<StartTag>
    requires { ((length texts.scratch.now ≡ scratch_words) × Inner e) × ((tag.end ≤ length texts.policy.now) × Leads texts.policy.now (list_of texts.scratch.now) tag.entry tag.end) }
    ensures { NextIs texts.entry.policy.now (list_of texts.entry.scratch.now) e tag.end result }
{
    let mut at = tag.end;
    let mut k = tag.entry;
    loop {
        match member_at(texts, e, at, k) {
            Member::Last => {
                return None;
            }
            Member::Here(found) => {
                return Some(found);
            }
            Member::Other { next, entry } => {
                at = next;
                k = entry;
            }
        }
    }
}

// The number of the name in attribute `id` of the first element e after a start tag, in space i.
fn first_member(texts: Texts, e: u64, id: u64, i: usize, tag: StartTag) -> Option<u64>
    requires { Holds texts.policy.now texts.lines.now texts.scratch.now × (((tag.end ≤ length texts.policy.now) × Leads texts.policy.now (list_of texts.scratch.now) tag.entry tag.end) × (Inner e × (i < 7))) }
    ensures { NumberIs (limit_of i) (first_at texts.entry.policy.now texts.entry.lines.now tag.end e id i) result }
{
    let first = next_member(texts, e, tag)?;
    field(texts, first.end, id, i)
}

// The set m with one more member.
fn with(m: u64, i: u64) -> u64
    requires { i < 64 }
    ensures { result ≡ plus m i }
{
    sets::set_of(m).with(i).bits
}

// The set of the numbers of the names in attribute `id` of all elements e after a start tag, in space i.
fn members(texts: Texts, e: u64, id: u64, i: usize, tag: StartTag) -> Option<u64>
    requires { Holds texts.policy.now texts.lines.now texts.scratch.now × (((tag.end ≤ length texts.policy.now) × Leads texts.policy.now (list_of texts.scratch.now) tag.entry tag.end) × (Inner e × ((i < 7) × (limit_of i ≤ 64)))) }
    ensures { found_of result ≡ set_at texts.entry.policy.now texts.entry.lines.now tag.end e id i }
{
    let mut m = 0;
    let mut last = tag;
    while let Some(next) = next_member(texts, e, last) {
        let number = field(texts, next.end, id, i)?;
        m = with(m, number);
        last = next;
    }
    Some(m)
}

// ---- Records.

// A record with one name.
fn one(texts: Texts, end: usize, id: u64, i: usize) -> Option<Fields>
    requires { Holds texts.policy.now texts.lines.now texts.scratch.now × ((end ≤ length texts.policy.now) × (i < 7)) }
    ensures { FieldsAre (one_said 0 (field_at texts.entry.policy.now texts.entry.lines.now end id i)) result }
{
    let a = field(texts, end, id, i)?;
    Some(Fields {
        n: 0,
        a,
        b: 0,
        c: 0,
        m: 0,
    })
}

// A record with two names.
fn two(texts: Texts, end: usize, id: u64, i: usize, id2: u64, i2: usize) -> Option<Fields>
    requires { Holds texts.policy.now texts.lines.now texts.scratch.now × ((end ≤ length texts.policy.now) × ((i < 7) × (i2 < 7))) }
    ensures { FieldsAre (two_said (field_at texts.entry.policy.now texts.entry.lines.now end id i) (field_at texts.entry.policy.now texts.entry.lines.now end id2 i2)) result }
{
    let first = one(texts, end, id, i)?;
    let b = field(texts, end, id2, i2)?;
    Some(Fields { b, ..first })
}

// A record with a task and a cardinality.
fn counted(texts: Texts, end: usize) -> Option<Fields>
    requires { Holds texts.policy.now texts.lines.now texts.scratch.now × ((end ≤ length texts.policy.now) × Cardinal texts.policy.now end) }
    ensures { FieldsAre (one_said (cardinality_at texts.entry.policy.now end) (field_at texts.entry.policy.now texts.entry.lines.now end TASK-ID TASKS)) result }
{
    let task = one(texts, end, TASK_ID, TASKS)?;
    Some(Fields {
        n: cardinality(texts.policy, end),
        ..task
    })
}

// A record of a permission, with its operation and its object.
fn permission(texts: Texts, tag: StartTag) -> Option<Fields>
    requires { Holds texts.policy.now texts.lines.now texts.scratch.now × ((tag.end ≤ length texts.policy.now) × Leads texts.policy.now (list_of texts.scratch.now) tag.entry tag.end) }
    ensures { FieldsAre (three_said (field_at texts.entry.policy.now texts.entry.lines.now tag.end PERMISSION-ID PERMISSIONS) (first_at texts.entry.policy.now texts.entry.lines.now tag.end OPERATION OPERATION-ID OPERATIONS) (first_at texts.entry.policy.now texts.entry.lines.now tag.end OBJECT OBJECT-ID OBJECTS)) result }
{
    let a = field(texts, tag.end, PERMISSION_ID, PERMISSIONS)?;
    let b = first_member(texts, OPERATION, OPERATION_ID, OPERATIONS, tag)?;
    let c = first_member(texts, OBJECT, OBJECT_ID, OBJECTS, tag)?;
    Some(Fields {
        n: 0,
        a,
        b,
        c,
        m: 0,
    })
}

// A record with the fields n and a, and the set of the elements e after its tag.
fn of_set(texts: Texts, n: u64, a: u64, e: u64, id: u64, i: usize, tag: StartTag) -> Option<Fields>
    requires { Holds texts.policy.now texts.lines.now texts.scratch.now × (((n < 256) × (a < 65536)) × (((tag.end ≤ length texts.policy.now) × Leads texts.policy.now (list_of texts.scratch.now) tag.entry tag.end) × (Inner e × ((i < 7) × (limit_of i ≤ 64))))) }
    ensures { FieldsAre (set_said n (just a) (set_at texts.entry.policy.now texts.entry.lines.now tag.end e id i)) result }
{
    let m = members(texts, e, id, i, tag)?;
    Some(Fields {
        n,
        a,
        b: 0,
        c: 0,
        m,
    })
}

// A record of a block of a partitioning.
fn partition(texts: Texts, number: u64, tag: StartTag) -> Option<Fields>
    requires { Holds texts.policy.now texts.lines.now texts.scratch.now × ((tag.end ≤ length texts.policy.now) × Leads texts.policy.now (list_of texts.scratch.now) tag.entry tag.end) }
    ensures { FieldsAre (set_said 0 (partitioning_of number) (set_at texts.entry.policy.now texts.entry.lines.now tag.end PARTITION-TASK TASK-ID TASKS)) result }
{
    if MOST <= number {
        return None;
    }
    of_set(texts, 0, number, PARTITION_TASK, TASK_ID, TASKS, tag)
}

// A record of an object in a block of a wall. There are numbers for 16 walls with 16 blocks each.
fn blocked(texts: Texts, number: u64, end: usize) -> Option<Fields>
    requires { Holds texts.policy.now texts.lines.now texts.scratch.now × (end ≤ length texts.policy.now) }
    ensures { FieldsAre (three_said (wall_of number) (just (number % 16)) (field_at texts.entry.policy.now texts.entry.lines.now end OBJECT-ID OBJECTS)) result }
{
    if BLOCKS <= number {
        return None;
    }
    let c = field(texts, end, OBJECT_ID, OBJECTS)?;
    Some(Fields {
        n: 0,
        a: number / MOST,
        b: number % MOST,
        c,
        m: 0,
    })
}

// The record of this kind that a start tag yields; none if a name in it has no number. `number` is that of its partitioning or block.
pub fn said(texts: Texts, kind: u64, number: u64, tag: StartTag) -> Option<Fields>
    requires { Holds texts.policy.now texts.lines.now texts.scratch.now × (((tag.end ≤ length texts.policy.now) × Leads texts.policy.now (list_of texts.scratch.now) tag.entry tag.end) × Cardinal texts.policy.now tag.end) }
    ensures { SaysIt kind (record_said (all_names texts.entry.policy.now texts.entry.lines.now) (saying_at texts.entry.policy.now kind number tag.end)) result }
{
    let end = tag.end;
    match kind {
        1 => one(texts, end, USER_ID, USERS),
        2 => one(texts, end, ROLE_ID, ROLES),
        3 => permission(texts, tag),
        4 => two(texts, end, USER_ID, USERS, ROLE_ID, ROLES),
        5 => two(texts, end, ROLE_ID, ROLES, PERMISSION_ID, PERMISSIONS),
        7 => two(texts, end, TASK_ID, TASKS, ROLE_ID, ROLES),
        8 => two(texts, end, TASK_ID, TASKS, PERMISSION_ID, PERMISSIONS),
        9 | 10 => {
            let n = cardinality(texts.policy, end);
            of_set(texts, n, 0, CRITICAL_ROLE, ROLE_ID, ROLES, tag)
        }
        11 => {
            let n = cardinality(texts.policy, end);
            of_set(texts, n, 0, CRITICAL_TASK, TASK_ID, TASKS, tag)
        }
        12 => partition(texts, number, tag),
        13 => one(texts, end, TEMPLATE_ID, TEMPLATES),
        14 => counted(texts, end),
        15 => two(texts, end, TASK_ID, TASKS, BOUND_TASK_ID, TASKS),
        16 => two(texts, end, PREREQ_TASK_ID, TASKS, TASK_ID, TASKS),
        17 => two(texts, end, UPPER_ROLE, ROLES, LOWER_ROLE, ROLES),
        18 => blocked(texts, number, end),
        _ => None,
    }
}
