// The seven tables of names in the caller's scratch buffer. A table is called a space and has a number: 0 users, 1 roles, 2 permissions, 3 operations,
// 4 objects, 5 tasks, 6 templates. Each is a table of opl_names.
#![tactic(auto)]

ghost use Rattle.std.specs.Prelude.{◌≡◌, ◌+◌, ◌*◌, ◌≤◌, ◌<◌, length, take, drop};
ghost use Rattle.opl_names.specs.Table.{Sound, found_of};
ghost use Rattle.opl_spaces.specs.Spaces.{limit_of, base_of, scratch_words, table_of, numbered, Empties, DeclaresIn};

// The numbers of the spaces.
pub const USERS: usize = 0;

pub const ROLES: usize = 1;

pub const PERMISSIONS: usize = 2;

pub const OPERATIONS: usize = 3;

pub const OBJECTS: usize = 4;

pub const TASKS: usize = 5;

pub const TEMPLATES: usize = 6;

// The number of spaces.
pub const SPACES: usize = 7;

// The first five are filled by the tags of the policy text, the others by the task lines.
pub const BY_TAGS: usize = 5;

// The greatest length of a name in bytes; a longer name has no number.
pub const LONGEST_NAME: usize = 64;

// The length of the scratch buffer in words (docs/STATE.md): the tables, then the kept records, then the list of tags.
pub const WORDS: usize = 921784;

// The words of the tables. The kept records begin here, two words each.
pub const TABLES: usize = 397495;

// The greatest number of records that can be kept.
pub const KEPT: usize = 131072;

// Where the list of tags begins: one word for its length, then one for each tag.
pub const LIST: usize = 659639;

// The greatest number of tags that can be listed.
pub const LISTED: usize = 262144;

// The number of names that a space can hold. This and `base` are matches, because an array would be built on the stack at each use.
#[tactic(auto, unfolding(crate::specs::Spaces::limit_of))]
fn limit(i: usize) -> usize
    requires { i < 7 }
    ensures { result ≡ limit_of i }
{
    match i {
        0 => 1024,
        1 => 64,
        2 => 256,
        3 => 65536,
        4 => 65536,
        5 => 64,
        6 => 16,
        _ => 0,
    }
}

// Where the table of a space begins.
#[tactic(auto, unfolding(crate::specs::Spaces::base_of))]
fn base(i: usize) -> usize
    requires { i < 7 }
    ensures { result ≡ base_of i }
{
    match i {
        0 => 0,
        1 => 3073,
        2 => 3266,
        3 => 4035,
        4 => 200644,
        5 => 397253,
        6 => 397446,
        _ => 0,
    }
}

// Empties a space, whatever its words were.
#[tactic(auto, using(crate::proofs::SpaceLaws::lent_fits))]
pub fn empty(w: &mut [u64], i: usize)
    requires { (length w.old ≡ scratch_words) × (i < 7) }
    ensures { Empties i w.old w.new }
{
    let n = limit(i);
    let from = base(i);
    let to = from + 1 + 3 * n;
    opl_names::empty(&mut w[from..to], n);
}

// Declares the name at a place of the text in a space.
#[tactic(auto, using(crate::proofs::SpaceLaws::lent_fits))]
pub fn declare(s: &[u8], w: &mut [u64], i: usize, at: usize, size: usize) -> Option<usize>
    requires { ((length w.old ≡ scratch_words) × (i < 7)) × (Sound s.now (limit_of i) (table_of i w.old) × ((at + size ≤ length s.now) × (size ≤ 64))) }
    ensures { DeclaresIn s.now i (take size (drop at s.now)) w.old w.new result }
{
    let n = limit(i);
    let from = base(i);
    let to = from + 1 + 3 * n;
    opl_names::declare(s, &mut w[from..to], n, at, size)
}

// The number of a name in a space; none if the name is too long.
#[tactic(auto, using(crate::proofs::SpaceLaws::lent_fits))]
pub fn number(s: &[u8], w: &[u64], i: usize, name: &[u8]) -> Option<usize>
    requires { ((length w.now ≡ scratch_words) × (i < 7)) × Sound s.now (limit_of i) (table_of i w.now) }
    ensures { found_of result ≡ numbered s.now i w.now name.now }
{
    if LONGEST_NAME < name.len() {
        return None;
    }
    let n = limit(i);
    let from = base(i);
    let to = from + 1 + 3 * n;
    // This match copies the result part by part. Returning r itself would copy it as a whole, which waits for both parts (4 to 5 % of the time of the call).
    let r = opl_names::find(s, &w[from..to], n, name);
    match r {
        Some(k) => Some(k),
        None => None,
    }
}
