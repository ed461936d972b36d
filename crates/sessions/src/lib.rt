// The sessions buffer. For each subject: its user, its active roles, and all roles that it has had active; from these, the roles of a user over all subjects.
// For each user: the blocks of walls that the user is bound to.
#![tactic(auto)]

ghost use Rattle.std.specs.Prelude.{◌≡◌, cond, ◌+◌, ◌<◌, ◌≤◌};
ghost use Rattle.paper_lower.specs.Sets.{empty};
ghost use Rattle.paper_lower.specs.Lists.{some_number_below};
ghost use Rattle.paper_lower.specs.Roles.{subject_of, active_of, counted_of};
ghost use Rattle.paper_lower.specs.Sessions.{create_next, destroy_next};
ghost use Rattle.blocks.specs.Reading.{blocks_of};
ghost use Rattle.sessions.specs.Reading.{sessions_of, roles_anew, bound_anew, Cleared};

use blocks::Blocks;
use sets::Set;

// The length of the buffer in words.
pub const SESSIONS_WORDS: usize = 2432;

// The sessions buffer: the words that a caller lends for users, roles and subjects.
pub type SessionsBuffer = [u64; SESSIONS_WORDS];

// The number of subjects. Word a says whether subject a is live, and its user.
const SUBJECTS: usize = 128;

// The first word of the active roles, one for each subject.
const ACTIVE: usize = 128;

// The first word of the roles that each subject has had active.
const HAD: usize = 256;

// The first word of the walls in which each user is bound.
const WALLS: usize = 384;

// The first word of the blocks in those walls, one for each user.
const BLOCKS: usize = 1408;

// Whether subject a is live.
pub fn live(s: &SessionsBuffer, a: usize) -> bool
    requires { a < 128 }
    ensures { result ≡ (sessions_of s.now).live a }
{
    s[a] / 1024 % 2 == 1
}

// The user of subject a.
pub fn user(s: &SessionsBuffer, a: usize) -> u64
    requires { a < 128 }
    ensures { (result ≡ (sessions_of s.now).user a) × (result < 1024) }
{
    s[a] % 1024
}

// The active roles of subject a.
pub fn active(s: &SessionsBuffer, a: usize) -> Set
    requires { a < 128 }
    ensures { result.bits ≡ (sessions_of s.now).active a }
{
    Set {
        bits: s[ACTIVE + a],
    }
}

// The roles that subject a has had active. The active roles always belong to them, whatever the word says.
pub fn had(s: &SessionsBuffer, a: usize) -> Set
    requires { a < 128 }
    ensures { result.bits ≡ (sessions_of s.now).had a }
{
    let word = Set { bits: s[HAD + a] };
    word.union(active(s, a))
}

// Whether subject a is live and belongs to user u, by one comparison of its word.
fn of_user(s: &SessionsBuffer, u: u64, a: usize) -> bool
    requires { (u < 1024) × (a < 128) }
    ensures { result ≡ subject_of (sessions_of s.now) u a }
{
    s[a] % 2048 == 1024 + u
}

// The same test on the lowest 16 bits of the word, so that one vector instruction
// compares eight subjects. Callers count hits in a u16, which keeps this width.
fn quarter_of(s: &SessionsBuffer, u: u16, a: usize) -> bool
    requires { (u < 1024) × (a < 128) }
    ensures { result ≡ subject_of (sessions_of s.now) u a }
{
    let quarter = (s[a] % 2048) as u16;
    quarter == 1024 + u
}

// Makes subject a live, for user u with these roles active.
pub fn create(s: &mut SessionsBuffer, a: usize, u: u64, roles: Set)
    requires { (a < 128) × (u < 1024) }
    ensures { sessions_of s.new ≡ create_next (sessions_of s.old) a u roles.bits }
{
    s[a] = 1024 + u;
    s[ACTIVE + a] = roles.bits;
    s[HAD + a] = roles.bits;
}

// Removes subject a, and what it has had active.
pub fn destroy(s: &mut SessionsBuffer, a: usize)
    requires { a < 128 }
    ensures { sessions_of s.new ≡ destroy_next (sessions_of s.old) a }
{
    s[a] = 0;
    s[ACTIVE + a] = 0;
    s[HAD + a] = 0;
}

// Replaces the subject's active roles and those that it has had active.
pub fn set_roles(s: &mut SessionsBuffer, a: usize, active: Set, had: Set)
    requires { a < 128 }
    ensures { sessions_of s.new ≡ roles_anew (sessions_of s.old) a active.bits had.bits }
{
    s[ACTIVE + a] = active.bits;
    s[HAD + a] = had.bits;
}

// The blocks of walls that user u is bound to.
pub fn bound_to(s: &SessionsBuffer, u: usize) -> Blocks
    requires { u < 1024 }
    ensures { blocks_of result ≡ (sessions_of s.now).bound_to u }
{
    Blocks {
        walls: s[WALLS + u],
        blocks: s[BLOCKS + u],
    }
}

// Replaces the blocks of walls that user u is bound to.
pub fn set_bound_to(s: &mut SessionsBuffer, u: usize, to: Blocks)
    requires { u < 1024 }
    ensures { sessions_of s.new ≡ bound_anew (sessions_of s.old) u (blocks_of to) }
{
    s[WALLS + u] = to.walls;
    s[BLOCKS + u] = to.blocks;
}

// Whether one of the 64 subjects from `from` on is live and belongs to user u. It has no early exit, so that the compiler can vectorise it.
fn has_among(s: &SessionsBuffer, u: u64, from: usize) -> bool
    requires { (u < 1024) × (from ≤ 64) }
    ensures { result ≡ some_number_below 64 (λ k. subject_of (sessions_of s.now) u (from + k)) }
{
    let mut hits: u16 = 0;
    for a in 0..64 {
        hits += u16::from(quarter_of(s, u as u16, from + a));
    }
    0 < hits
}

// Whether user u has a live subject. It tests 64 subjects at a time: a loop over all 128 would use vector registers that a callee has to save, and every
// request would save them (docs/DECISIONS.md, D225).
pub fn has_subject(s: &SessionsBuffer, u: u64) -> bool
    requires { u < 1024 }
    ensures { result ≡ some_number_below 128 (subject_of (sessions_of s.now) u) }
{
    if has_among(s, u, 0) {
        return true;
    }
    has_among(s, u, 64)
}

// The active roles of subject a if it is live and belongs to user u, otherwise none. Both words are read before the choice.
fn active_in(s: &SessionsBuffer, u: u64, a: usize) -> Set
    requires { (u < 1024) × (a < 128) }
    ensures { result.bits ≡ cond (subject_of (sessions_of s.now) u a) ((sessions_of s.now).active a) empty }
{
    let roles = active(s, a);
    if of_user(s, u, a) { roles } else { Set::EMPTY }
}

// The roles that are active in some subject of user u. It keeps only one set and a counter (02, Ask 6).
pub fn active_of(s: &SessionsBuffer, u: u64) -> Set
    requires { u < 1024 }
    ensures { result.bits ≡ active_of (sessions_of s.now) u }
{
    let mut all = Set::EMPTY;
    for a in 0..SUBJECTS {
        all = all.union(active_in(s, u, a));
    }
    all
}

// The roles that subject a has had active if it is live and belongs to user u, otherwise none.
fn had_in(s: &SessionsBuffer, u: u64, a: usize) -> Set
    requires { (u < 1024) × (a < 128) }
    ensures { result.bits ≡ cond (subject_of (sessions_of s.now) u a) ((sessions_of s.now).had a) empty }
{
    let roles = had(s, a);
    if of_user(s, u, a) { roles } else { Set::EMPTY }
}

// The roles that some live subject of user u has had active, which are those that a dynamic set counts.
pub fn counted_of(s: &SessionsBuffer, u: u64) -> Set
    requires { u < 1024 }
    ensures { result.bits ≡ counted_of (sessions_of s.now) u }
{
    let mut all = Set::EMPTY;
    for a in 0..SUBJECTS {
        all = all.union(had_in(s, u, a));
    }
    all
}

// Empties the buffer: no subject is live, and nobody is bound.
pub fn clear(s: &mut SessionsBuffer)
    ensures { Cleared s.new }
{
    s.fill(0);
}
