// The table of elements in code: which names may occur where, what may follow them, and which attributes an element has. It works as a state machine on
// numbers: of names, of lists of children that may still follow (the states), and of lists of attributes that may still be given. specs/Numbers defines what
// the numbers mean.
#![tactic(auto)]

ghost use Rattle.std.specs.Prelude.{◌≡◌, ◌-◌, slice_index, get_or, map, []};
ghost use Rattle.paper_lower.specs.Lists.{some};
ghost use Rattle.paper_opl.specs.Reading.{same};
ghost use Rattle.paper_opl.specs.Elements.{elements_of, row_in, may_end};
ghost use Rattle.paper_opl.specs.Tree.{required};
ghost use Rattle.opl_table.specs.Numbers.{name_of, left_of, list_of};
ghost use Rattle.opl_table.specs.Found.{place_of, Follows, Allows};

// What is found under a name: for an element, its number and the state after it; for an attribute, its class and the list of attributes after it.
#[derive(Clone, Copy, PartialEq, Eq)]
pub struct Known {
    pub number: u64,
    pub after: u64,
}

// The numbers of names that other crates use: first elements, then attributes; from 69 on those of the wider call.
pub const USER: u64 = 12;

pub const OPERATION: u64 = 15;

pub const OBJECT: u64 = 16;

pub const STATIC_SEPARATION: u64 = 20;

pub const DYNAMIC_SEPARATION: u64 = 21;

pub const CRITICAL_ROLE_SET: u64 = 23;

pub const CRITICAL_ROLES: u64 = 24;

pub const CRITICAL_ROLE: u64 = 25;

pub const CRITICAL_TASK: u64 = 36;

pub const PARTITIONING: u64 = 38;

pub const PARTITION: u64 = 39;

pub const PARTITION_TASK: u64 = 40;

pub const USER_ID: u64 = 53;

pub const ROLE_ID: u64 = 54;

pub const PERMISSION_ID: u64 = 56;

pub const OPERATION_ID: u64 = 57;

pub const OBJECT_ID: u64 = 58;

pub const CARDINALITY: u64 = 59;

pub const TASK_ID: u64 = 61;

pub const TEMPLATE_ID: u64 = 62;

pub const BOUND_TASK_ID: u64 = 63;

pub const PREREQ_TASK_ID: u64 = 64;

pub const CHINESE_WALL: u64 = 69;

pub const CW_PARTITION: u64 = 71;

pub const PARTITION_OBJECT: u64 = 72;

pub const UPPER_ROLE: u64 = 74;

pub const LOWER_ROLE: u64 = 75;

// A number that no name has.
pub const NO_NAME: u64 = 127;

// ---- The tables. They are statics, because a constant array would be built on the stack at each use.

// All names; a name's number is its index.
static NAMES: [&[u8]; 76] = [
    b"policy_object",
    b"policy_object_attributes",
    b"attribute",
    b"active_modules",
    b"active_module",
    b"policy_object_modules",
    b"module_rbac_core_policy",
    b"users",
    b"roles",
    b"permissions",
    b"user_assignments",
    b"permission_assignments",
    b"user",
    b"role",
    b"permission",
    b"operation",
    b"object",
    b"user_assignment",
    b"permission_assignment",
    b"module_sep_duty_policy",
    b"static_separation_of_duty",
    b"dynamic_separation_of_duty",
    b"critical_role_sets",
    b"critical_role_set",
    b"critical_roles",
    b"critical_role",
    b"module_wf_core_policy",
    b"task_permission_assignments",
    b"task_role_assignments",
    b"task_permission_assignment",
    b"task_role_assignment",
    b"module_wf_sep_duty_policy",
    b"hdsodsl",
    b"critical_workflow_template",
    b"hdsod",
    b"critical_tasks_set",
    b"critical_task",
    b"hdsodtp",
    b"hdsodtp_partitioning",
    b"hdsodtp_partition",
    b"partition_task",
    b"module_wf_cardinality_policy",
    b"task_cardinalities",
    b"task_cardinality",
    b"module_wf_bind_duty_policy",
    b"bind_of_duty_constraints",
    b"bind_of_duty_constraint",
    b"module_wf_prereq_step_policy",
    b"prereq_steps",
    b"prereq_step",
    b"key",
    b"value",
    b"name",
    b"user_id",
    b"role_id",
    b"role_description",
    b"permission_id",
    b"operation_id",
    b"object_id",
    b"cardinality",
    b"description",
    b"task_id",
    b"template_id",
    b"bound_task_id",
    b"prereq_task_id",
    b"module_role_hierarchy_policy",
    b"role_hierarchy",
    b"inherit_role",
    b"module_sep_duty_rh_policy",
    b"module_chinese_wall_policy",
    b"cw_partitions",
    b"cw_partition",
    b"partition_object",
    b"uocws",
    b"upper_role",
    b"lower_role",
];

// The first place of each state. A place is one name that may occur in one state or attribute list; the places of one state or list follow each other.
static STATE_FROM: [u8; 61] = [
    0, 0, 1, 2, 3, 4, 5, 6, 13, 20, 21, 22, 23, 24, 25, 26, 27, 28, 29, 30, 31, 32, 34, 35, 36, 37,
    38, 39, 40, 41, 42, 43, 44, 45, 48, 50, 51, 52, 53, 54, 55, 56, 57, 58, 59, 60, 61, 62, 63, 64,
    65, 66, 67, 69, 70, 71, 72, 73, 74, 84, 94,
];

// The first place of each attribute list.
static LIST_FROM: [u8; 34] = [
    94, 94, 96, 97, 98, 100, 101, 102, 103, 105, 107, 110, 111, 113, 115, 116, 117, 119, 121, 123,
    125, 126, 127, 128, 130, 132, 133, 134, 135, 136, 137, 139, 140, 141,
];

// The number of the name at each place.
static PLACE_NAME: [u8; 141] = [
    0, 1, 3, 5, 2, 4, 6, 19, 26, 31, 41, 44, 47, 6, 19, 26, 31, 41, 44, 47, 7, 8, 9, 10, 11, 12,
    13, 14, 17, 18, 15, 16, 20, 21, 21, 22, 22, 23, 24, 25, 25, 27, 28, 29, 30, 32, 34, 37, 34, 37,
    37, 33, 35, 36, 36, 38, 39, 40, 40, 42, 43, 45, 46, 48, 49, 66, 67, 20, 21, 21, 70, 73, 71, 72,
    6, 65, 19, 68, 69, 26, 31, 41, 44, 47, 6, 65, 19, 68, 69, 26, 31, 41, 44, 47, 50, 51, 52, 53,
    54, 55, 56, 57, 58, 54, 53, 56, 54, 59, 52, 60, 54, 61, 56, 61, 54, 62, 61, 52, 60, 61, 59, 61,
    63, 64, 61, 51, 50, 55, 59, 60, 59, 52, 60, 52, 59, 63, 64, 75, 74, 74, 75,
];

// What follows each place: for an element, the next state; for an attribute, the next list + 64 times its class.
static PLACE_THEN: [u8; 141] = [
    0, 3, 4, 0, 5, 6, 8, 8, 8, 8, 8, 8, 8, 8, 8, 8, 8, 8, 8, 8, 10, 11, 12, 13, 0, 14, 15, 16, 17,
    18, 20, 0, 22, 0, 0, 0, 0, 25, 0, 28, 28, 30, 0, 31, 32, 34, 35, 0, 35, 0, 0, 36, 37, 39, 39,
    40, 41, 43, 43, 0, 45, 0, 47, 0, 49, 0, 51, 22, 0, 0, 55, 0, 56, 57, 59, 59, 59, 59, 59, 59,
    59, 59, 59, 59, 59, 59, 59, 59, 59, 59, 59, 59, 59, 59, 148, 149, 128, 0, 22, 203, 0, 0, 0, 3,
    11, 11, 5, 80, 215, 216, 0, 5, 15, 11, 15, 0, 0, 217, 218, 27, 79, 28, 15, 15, 29, 128, 128,
    192, 89, 219, 90, 219, 192, 192, 64, 0, 0, 31, 32, 0, 0,
];

// The first state in the content of each element of the wider table.
static FIRST_STATE: [u8; 72] = [
    2, 5, 0, 6, 0, 58, 9, 14, 15, 16, 17, 18, 0, 0, 19, 0, 0, 0, 0, 21, 23, 23, 25, 26, 27, 0, 29,
    31, 32, 0, 0, 33, 36, 0, 37, 38, 0, 40, 41, 42, 0, 44, 45, 0, 46, 47, 0, 48, 49, 0, 0, 0, 0, 0,
    0, 0, 0, 0, 0, 0, 0, 0, 0, 0, 0, 50, 51, 0, 21, 54, 56, 57,
];

// The attribute list of each element of the wider table.
static FIRST_LIST: [u8; 73] = [
    0, 0, 1, 0, 2, 0, 0, 0, 0, 0, 0, 0, 3, 4, 5, 6, 7, 8, 9, 0, 0, 0, 0, 10, 0, 11, 0, 0, 0, 12,
    13, 0, 0, 14, 0, 10, 15, 0, 16, 16, 15, 0, 0, 17, 0, 0, 18, 0, 0, 19, 0, 0, 0, 0, 0, 0, 0, 0,
    0, 0, 0, 0, 0, 0, 0, 0, 0, 30, 0, 0, 0, 0, 7,
];

// ---- Lookups.

// Whether v is entry k of a table of names; past its end, whether v is empty.
fn is_entry(v: &[u8], table: &[&[u8]], k: u64) -> bool
    ensures { result ≡ same v.now (get_or (map (λ name. name.now) table.now) k []) }
{
    match table.get(k as usize) {
        Some(name) => opl_text::same_bytes(v, name),
        None => v.len() == 0,
    }
}

// Whether a name has this number.
pub fn is_name(v: &[u8], id: u64) -> bool
    ensures { result ≡ same v.now (name_of id) }
{
    is_entry(v, &NAMES, id)
}

// Number k of a table, and 0 past its end.
pub fn number_at(table: &[u8], k: u64) -> u64
    ensures { result ≡ slice_index table.now k }
{
    match table.get(k as usize) {
        Some(number) => u64::from(*number),
        None => 0,
    }
}

// Bit k is set if an element may end in state k.
const ENDS: u64 = 0xfb3aabbf9267c161;

// Bit k is set if attribute list k has a required attribute.
const MISSING: u64 = 0x00000001f9befffe;

// The first place from `from` on, before `end`, whose name is v.
#[tactic(auto, using(crate::proofs::Ways::no_place, crate::proofs::Ways::place_here, crate::proofs::Ways::place_more))]
fn pick(v: &[u8], from: u64, end: u64) -> Option<u64>
    ensures { result ≡ place_of v.now from (end - from) }
{
    for k in from..end {
        if is_name(v, number_at(&PLACE_NAME, k)) {
            return Some(k);
        }
    }
    None
}

// Looks up the element v in a state.
pub fn next(v: &[u8], left: u64) -> Option<Known>
    ensures { Follows v.now (left_of left) result }
{
    if 60 <= left {
        return None;
    }
    let k = pick(
        v,
        number_at(&STATE_FROM, left),
        number_at(&STATE_FROM, left + 1),
    )?;
    Some(Known {
        number: number_at(&PLACE_NAME, k),
        after: number_at(&PLACE_THEN, k),
    })
}

// Looks up the attribute v in an attribute list.
pub fn attribute(v: &[u8], list: u64) -> Option<Known>
    ensures { Allows v.now (list_of list) result }
{
    if 33 <= list {
        return None;
    }
    let k = pick(
        v,
        number_at(&LIST_FROM, list),
        number_at(&LIST_FROM, list + 1),
    )?;
    let then = number_at(&PLACE_THEN, k);
    Some(Known {
        number: then / 64,
        after: then % 64,
    })
}

// The state at the beginning of an element's content, in the table of the call: `all` is false for Ask 4's, true for the wider one.
#[tactic(auto, using(crate::proofs::Rows::first_modules, crate::proofs::Rows::first_none, crate::proofs::Rows::first_other))]
pub fn first(id: u64, all: bool) -> u64
    ensures { left_of result ≡ (row_in (elements_of all) (name_of id)).children }
{
    if !all & (id == 5) {
        return 7;
    }
    if !all & (65 <= id) {
        return 0;
    }
    number_at(&FIRST_STATE, id)
}

// The attribute list of an element, in the table of the call.
#[tactic(auto, using(crate::proofs::Rows::given_none, crate::proofs::Rows::given_other))]
pub fn attributes(id: u64, all: bool) -> u64
    ensures { list_of result ≡ (row_in (elements_of all) (name_of id)).attributes }
{
    if !all & (65 <= id) {
        return 0;
    }
    number_at(&FIRST_LIST, id)
}

// Whether an element may end in this state: no child that must occur is missing.
#[tactic(auto, using(crate::proofs::Rows::ends_is, crate::proofs::Rows::ends_past))]
pub fn may_end(left: u64) -> bool
    ensures { result ≡ may_end (left_of left) }
{
    if 64 <= left {
        return true;
    }
    (ENDS >> left) % 2 == 1
}

// Whether an attribute list still has a required attribute.
#[tactic(auto, using(crate::proofs::Rows::missing_is, crate::proofs::Rows::missing_past))]
pub fn missing(list: u64) -> bool
    ensures { result ≡ some (λ a. required a.class) (list_of list) }
{
    if 64 <= list {
        return false;
    }
    (MISSING >> list) % 2 == 1
}
