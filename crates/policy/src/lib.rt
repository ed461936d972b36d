// The policy buffer: getters and setters for its tables, which have one word per
// row. The layout is defined in specs/Layout.antt and described in docs/STATE.md.
#![tactic(auto)]

ghost use Rattle.std.specs.Prelude.{◌≡◌, ◌+◌, ◌*◌, ◌/◌, ◌%◌, ◌<◌, ◌≤◌, min, true, leb};
ghost use Rattle.paper_lower.specs.Sets.{has};
ghost use Rattle.paper_lower.specs.Lists.{holds, there, is};
ghost use Rattle.paper_lower.specs.Policy.{together};
ghost use Rattle.policy.specs.Layout.{same, seniors_in, flag_of, permission_of, table_in, bucket_table, bucket_of, first_in, second_in, eights_in, first_anew, second_anew, eights_anew, among, listing_for, row_holds, in_bucket, unless_in, unless_stray, limit_count, limit_at, block_count, block_at, pair_count, pair_at, wall_word, wall_count, walled_at, wall_rows, walled_is};
ghost use Rattle.policy.specs.Kinds.{set_index, pair_index};
ghost use Rattle.policy.specs.Reading.{policy_of, value_of, Cleared, Ready, Tidied, roles_anew, user_anew, assigned_anew, juniors_anew, below_anew, permission_anew, holders_anew, carriers_anew, template_anew, open_to_anew, banned_anew, most_anew, limit_added, block_added, pair_added, wall_added};

use sets::Set;

// ---- The first word of each table. Word 0 has the declared roles, words 1 to 6 the numbers of rules kept of each kind, and word 7 the roles that have a
// role below them. The other tables follow each other without gaps, in the order of docs/STATE.md.
const ROLES: usize = 0;

const LIMIT_COUNTS: usize = 1;

const BLOCK_COUNT: usize = 4;

const PAIR_COUNTS: usize = 5;

const SENIORS: usize = 7;

const USERS: usize = 8;

const ASSIGNED: usize = USERS + 1024;

const PERMISSIONS: usize = ASSIGNED + 1024;

const HOLDERS: usize = PERMISSIONS + 256;

const CARRIERS: usize = HOLDERS + 256;

const TEMPLATES: usize = CARRIERS + 256;

const OPEN_TO: usize = TEMPLATES + 64;

const MOST: usize = OPEN_TO + 64;

const BANNED: usize = MOST + 64;
// For each of three kinds of set: 32 words for n and 32 for the members.
const LIMITS: usize = BANNED + 16;

const MEMBERS: usize = LIMITS + 32;

const PARTITIONINGS: usize = LIMITS + 192;

const BLOCKS: usize = PARTITIONINGS + 64;
// For each of two kinds of pair: 64 words.
const PAIRS: usize = BLOCKS + 64;

const BUCKETS: usize = PAIRS + 128;

const JUNIORS: usize = BUCKETS + 1024;

const BELOW: usize = JUNIORS + 64;

const WALL_COUNT: usize = BELOW + 64;

const WALLED: usize = WALL_COUNT + 1;
// For each of 64 buckets: four words.
const WALL_BUCKETS: usize = WALLED + 256;

// The length of the buffer. A new table goes here, at the end, so that it moves no other.
pub const POLICY_WORDS: usize = WALL_BUCKETS + 256;

// The policy buffer: the words that a caller lends for the policy.
pub type PolicyBuffer = [u64; POLICY_WORDS];

// ---- The kinds of rules whose tables stand side by side.

// The sets of roles or tasks of which no one may have more than n members.
#[derive(Clone, Copy, PartialEq, Eq)]
pub enum SetKind {
    Static,
    Dynamic,
    Task,
}

impl SetKind {
    // The position of the kind's tables.
    pub fn index(self) -> usize
        ensures { (result ≡ set_index self) × (result < 3) }
    {
        match self {
            SetKind::Static => 0,
            SetKind::Dynamic => 1,
            SetKind::Task => 2,
        }
    }
}

// The pairs of tasks.
#[derive(Clone, Copy, PartialEq, Eq)]
pub enum PairKind {
    Binding,
    Prerequisite,
}

impl PairKind {
    // The position of the kind's tables.
    pub fn index(self) -> usize
        ensures { (result ≡ pair_index self) × (result < 2) }
    {
        match self {
            PairKind::Binding => 0,
            PairKind::Prerequisite => 1,
        }
    }
}

// ---- People.

// The declared roles.
pub fn declared_roles(p: &PolicyBuffer) -> Set
    ensures { result.bits ≡ (policy_of p.now).people.roles }
{
    Set { bits: p[ROLES] }
}

// Replaces the set of declared roles.
pub fn set_declared_roles(p: &mut PolicyBuffer, roles: Set)
    ensures { policy_of p.new ≡ roles_anew (policy_of p.old) roles.bits }
{
    p[ROLES] = roles.bits;
}

// Whether user a is declared.
pub fn user_declared(p: &PolicyBuffer, a: usize) -> bool
    requires { a < 1024 }
    ensures { result ≡ (policy_of p.now).people.users a }
{
    p[USERS + a] % 2 == 1
}

// Declares user a (1) or removes the declaration (0), and replaces the user's roles.
pub fn set_user(p: &mut PolicyBuffer, a: usize, declared: u64, roles: Set)
    requires { a < 1024 }
    ensures { policy_of p.new ≡ user_anew (policy_of p.old) a (flag_of declared) roles.bits }
{
    p[USERS + a] = declared;
    p[ASSIGNED + a] = roles.bits;
}

// The roles assigned to user a.
pub fn assigned(p: &PolicyBuffer, a: usize) -> Set
    requires { a < 1024 }
    ensures { result.bits ≡ (policy_of p.now).people.assigned a }
{
    Set {
        bits: p[ASSIGNED + a],
    }
}

// Replaces the roles assigned to user a.
pub fn set_assigned(p: &mut PolicyBuffer, a: usize, roles: Set)
    requires { a < 1024 }
    ensures { policy_of p.new ≡ assigned_anew (policy_of p.old) a roles.bits }
{
    p[ASSIGNED + a] = roles.bits;
}

// ---- Senior roles.

// The roles that records of kind 17 put below role r.
pub fn juniors(p: &PolicyBuffer, r: usize) -> Set
    requires { r < 64 }
    ensures { result.bits ≡ (policy_of p.now).seniority.juniors r }
{
    Set {
        bits: p[JUNIORS + r],
    }
}

// Replaces these roles.
pub fn set_juniors(p: &mut PolicyBuffer, r: usize, roles: Set)
    requires { r < 64 }
    ensures { policy_of p.new ≡ juniors_anew (policy_of p.old) r roles.bits }
{
    p[JUNIORS + r] = roles.bits;
}

// The roles that have a role below them.
pub fn seniors(p: &PolicyBuffer) -> Set
    ensures { result.bits ≡ seniors_in p.now }
{
    Set { bits: p[SENIORS] }
}

// All roles below role r, at any distance.
pub fn below(p: &PolicyBuffer, r: usize) -> Set
    requires { r < 64 }
    ensures { result.bits ≡ (policy_of p.now).seniority.below r }
{
    if !seniors(p).has(r as u64) {
        return Set::EMPTY;
    }
    below_senior(p, r)
}

// The same for a role that is known to have a role below it.
pub fn below_senior(p: &PolicyBuffer, r: usize) -> Set
    requires { (r < 64) × (has (seniors_in p.now) r ≡ true) }
    ensures { result.bits ≡ (policy_of p.now).seniority.below r }
{
    Set { bits: p[BELOW + r] }
}

// Replaces all roles below role r, and marks r as a role that has a role below it. The old row need not be read.
pub fn set_below(p: &mut PolicyBuffer, r: usize, roles: Set)
    requires { r < 64 }
    ensures { policy_of p.new ≡ below_anew (policy_of p.old) r roles.bits }
{
    let more = seniors(p).with(r as u64);
    p[BELOW + r] = roles.bits;
    p[SENIORS] = more.bits;
}

// ---- Permissions.

// A permission's row is one word: its operation, above that its object, and above both a 1 that says that it is declared.
const DECLARED: u64 = 4294967296;

// A bucket's word has the set of its groups of eight in its upper half.
const EIGHTS: u64 = 4294967296;

// The bucket of a pair of operation and object.
fn bucket_of(operation: u64, object: u64) -> usize
    requires { (operation < 65536) × (object < 65536) }
    ensures { (result ≡ bucket_of operation object) × (result < 1024) }
{
    ((operation + 65536 * object) * 2654435761 / 4194304 % 1024) as usize
}

// The word of a bucket, which lists permissions.
fn listing_in(p: &PolicyBuffer, bucket: usize) -> u64
    requires { bucket < 1024 }
    ensures { result ≡ table_in bucket_table p.now bucket }
{
    p[BUCKETS + bucket]
}

// The first of the two permissions that a bucket's word lists by number.
pub fn first_in(w: u64) -> usize
    ensures { (result ≡ first_in w) × (result < 256) }
{
    (w % 256) as usize
}

// The second of them.
pub fn second_in(w: u64) -> usize
    ensures { (result ≡ second_in w) × (result < 256) }
{
    (w / 256 % 256) as usize
}

// The groups of eight permissions that a bucket's word lists. Group t is the permissions 8 t to 8 t + 7.
pub fn eights_in(w: u64) -> Set
    ensures { (result.bits ≡ eights_in w) × (result.bits < 4294967296) }
{
    Set { bits: w / EIGHTS }
}

// Whether a bucket's word lists permission b. Most buckets list one permission, as the first number, so that this is compared first (DECISIONS D261).
fn among(w: u64, b: usize) -> bool
    requires { b < 256 }
    ensures { result ≡ among w b }
{
    if first_in(w) == b {
        return true;
    }
    let far = eights_in(w).has((b / 8) as u64);
    (second_in(w) == b) | far
}

// Whether permission b is declared: its row has a pair, and the bucket of that pair lists b.
pub fn permission_declared(p: &PolicyBuffer, b: usize) -> bool
    requires { b < 256 }
    ensures { result ≡ there ((policy_of p.now).permissions.declared b) }
{
    let word = p[PERMISSIONS + b];
    let bucket = bucket_of(word % 65536, word / 65536 % 65536);
    let listed = among(listing_in(p, bucket), b);
    (word / DECLARED == 1) & listed
}

// The row of permission b, or 0 if b is not declared.
fn declared_row(p: &PolicyBuffer, b: usize) -> u64
    requires { b < 256 }
    ensures { (result % 65536 ≡ value_of (λ x. x.operation) ((policy_of p.now).permissions.declared b)) × (result / 65536 % 65536 ≡ value_of (λ x. x.object) ((policy_of p.now).permissions.declared b)) }
{
    if permission_declared(p, b) {
        p[PERMISSIONS + b]
    } else {
        0
    }
}

// The operation of permission b, or 0 if b is not declared.
pub fn permission_operation(p: &PolicyBuffer, b: usize) -> u64
    requires { b < 256 }
    ensures { (result ≡ value_of (λ x. x.operation) ((policy_of p.now).permissions.declared b)) × (result < 65536) }
{
    declared_row(p, b) % 65536
}

// The object of permission b, or 0 if b is not declared.
pub fn permission_object(p: &PolicyBuffer, b: usize) -> u64
    requires { b < 256 }
    ensures { (result ≡ value_of (λ x. x.object) ((policy_of p.now).permissions.declared b)) × (result < 65536) }
{
    declared_row(p, b) / 65536 % 65536
}

// The word that lists every permission for this operation on this object, and possibly others.
pub fn listing_for(p: &PolicyBuffer, operation: u64, object: u64) -> u64
    requires { (operation < 65536) × (object < 65536) }
    ensures { result ≡ listing_for p.now operation object }
{
    listing_in(p, bucket_of(operation, object))
}

// Whether row b has this pair, by one comparison of its word. It is a declared permission only if listing_for lists it too.
pub fn row_is(p: &PolicyBuffer, b: usize, operation: u64, object: u64) -> bool
    requires { (b < 256) × ((operation < 65536) × (object < 65536)) }
    ensures { result ≡ row_holds p.now operation object b }
{
    p[PERMISSIONS + b] == DECLARED + operation + 65536 * object
}

// A row's word, or 0 if the pair of the row has this bucket.
fn unless_in(word: u64, bucket: usize) -> u64
    ensures { permission_of result ≡ unless_in bucket (permission_of word) }
{
    if bucket_of(word % 65536, word / 65536 % 65536) == bucket {
        0
    } else {
        word
    }
}

// A row's word if the bucket lists the row; otherwise the word, or 0 if the pair of the row has this bucket.
fn unless_stray(word: u64, bucket: usize, listed: bool) -> u64
    ensures { permission_of result ≡ unless_stray bucket listed (permission_of word) }
{
    if listed {
        return word;
    }
    unless_in(word, bucket)
}

// Whether a row has a pair and the pair has this bucket.
fn is_in(word: u64, bucket: usize) -> bool
    ensures { result ≡ in_bucket bucket (permission_of word) }
{
    (word / DECLARED == 1) & (bucket_of(word % 65536, word / 65536 % 65536) == bucket)
}

// Empties those rows of a group of eight that the bucket does not list although their pair has this bucket. They do not count now, but would count once the
// bucket lists the group. No load leaves such rows; other contents of the buffer may have them and must read as before.
fn empty_strays(p: &mut PolicyBuffer, eight: usize, bucket: usize)
    requires { (eight < 32) × (bucket < 1024) }
    ensures { Tidied p.old eight bucket (8 * eight + 8) p.new }
{
    let w = listing_in(p, bucket);
    for b in 8 * eight..8 * eight + 8 {
        p[PERMISSIONS + b] = unless_stray(p[PERMISSIONS + b], bucket, among(w, b));
    }
}

// A bucket's word with a as its first number.
fn first_anew(w: u64, a: usize) -> u64
    requires { a < 256 }
    ensures { result ≡ first_anew w a }
{
    w - w % 256 + a as u64
}

// A bucket's word with a as its second number.
fn second_anew(w: u64, a: usize) -> u64
    requires { a < 256 }
    ensures { result ≡ second_anew w a }
{
    w - 256 * (w / 256 % 256) + 256 * (a as u64)
}

// A bucket's word with the group of a added.
fn eights_anew(w: u64, a: usize) -> u64
    requires { a < 256 }
    ensures { result ≡ eights_anew w a }
{
    let eights = eights_in(w).with((a / 8) as u64);
    w % EIGHTS + EIGHTS * eights.bits
}

// The bucket's word with permission a listed too. If both numbers are equal, a replaces the first. If the row of the second number is not of this bucket,
// listing it has no effect, and a replaces it. Otherwise the group of a is added.
fn listing_with(p: &mut PolicyBuffer, a: usize, bucket: usize) -> u64
    requires { (a < 256) × (bucket < 1024) }
    ensures { Ready p.old a bucket p.new result }
{
    let w = listing_in(p, bucket);
    let first = first_in(w);
    let second = second_in(w);
    if first == second {
        return first_anew(w, a);
    }
    if is_in(p[PERMISSIONS + second], bucket) {
        empty_strays(p, a / 8, bucket);
        return eights_anew(w, a);
    }
    second_anew(w, a)
}

// Declares permission a: writes its row, and lists it in the bucket of its pair.
pub fn set_permission(p: &mut PolicyBuffer, a: usize, operation: u64, object: u64)
    requires { (a < 256) × ((operation < 65536) × (object < 65536)) }
    ensures { policy_of p.new ≡ permission_anew (policy_of p.old) a operation object }
{
    let bucket = bucket_of(operation, object);
    let w = listing_with(p, a, bucket);
    p[PERMISSIONS + a] = DECLARED + operation + 65536 * object;
    p[BUCKETS + bucket] = w;
}

// The roles that have permission b.
pub fn holders(p: &PolicyBuffer, b: usize) -> Set
    requires { b < 256 }
    ensures { result.bits ≡ (policy_of p.now).permissions.holders b }
{
    Set {
        bits: p[HOLDERS + b],
    }
}

// Replaces the roles that have permission b.
pub fn set_holders(p: &mut PolicyBuffer, b: usize, roles: Set)
    requires { b < 256 }
    ensures { policy_of p.new ≡ holders_anew (policy_of p.old) b roles.bits }
{
    p[HOLDERS + b] = roles.bits;
}

// The tasks that carry permission b.
pub fn carriers(p: &PolicyBuffer, b: usize) -> Set
    requires { b < 256 }
    ensures { result.bits ≡ (policy_of p.now).permissions.carriers b }
{
    Set {
        bits: p[CARRIERS + b],
    }
}

// Replaces the tasks that carry permission b.
pub fn set_carriers(p: &mut PolicyBuffer, b: usize, tasks: Set)
    requires { b < 256 }
    ensures { policy_of p.new ≡ carriers_anew (policy_of p.old) b tasks.bits }
{
    p[CARRIERS + b] = tasks.bits;
}

// ---- Tasks.

// Whether task t is declared.
pub fn task_declared(p: &PolicyBuffer, t: usize) -> bool
    requires { t < 64 }
    ensures { result ≡ there ((policy_of p.now).tasks.template t) }
{
    p[TEMPLATES + t] / 16 % 2 == 1
}

// The template of task t, or 0 if t is not declared.
pub fn template(p: &PolicyBuffer, t: usize) -> u64
    requires { t < 64 }
    ensures { (result ≡ value_of same ((policy_of p.now).tasks.template t)) × (result < 16) }
{
    let word = p[TEMPLATES + t];
    if word / 16 % 2 == 1 {
        return word % 16;
    }
    0
}

// Whether task t is declared and of template j.
pub fn task_is_of(p: &PolicyBuffer, t: usize, j: u64) -> bool
    requires { (t < 64) × (j < 16) }
    ensures { result ≡ is j ((policy_of p.now).tasks.template t) }
{
    p[TEMPLATES + t] % 32 == 16 + j
}

// Whether tasks a and b are declared and of the same template.
pub fn same_template(p: &PolicyBuffer, a: usize, b: usize) -> bool
    requires { (a < 64) × (b < 64) }
    ensures { result ≡ together (policy_of p.now).tasks a b }
{
    let word = p[TEMPLATES + a];
    (word / 16 % 2 == 1) & (p[TEMPLATES + b] % 32 == word % 32)
}

// Declares task t, of template j.
pub fn set_template(p: &mut PolicyBuffer, t: usize, j: u64)
    requires { (t < 64) × (j < 16) }
    ensures { policy_of p.new ≡ template_anew (policy_of p.old) t j }
{
    p[TEMPLATES + t] = 16 + j;
}

// The roles that task t is open to.
pub fn open_to(p: &PolicyBuffer, t: usize) -> Set
    requires { t < 64 }
    ensures { result.bits ≡ (policy_of p.now).tasks.open_to t }
{
    Set {
        bits: p[OPEN_TO + t],
    }
}

// Replaces the roles that task t is open to.
pub fn set_open_to(p: &mut PolicyBuffer, t: usize, roles: Set)
    requires { t < 64 }
    ensures { policy_of p.new ≡ open_to_anew (policy_of p.old) t roles.bits }
{
    p[OPEN_TO + t] = roles.bits;
}

// Whether template j is banned for lone workers.
pub fn banned(p: &PolicyBuffer, j: usize) -> bool
    requires { j < 16 }
    ensures { result ≡ (policy_of p.now).tasks.banned j }
{
    p[BANNED + j] % 2 == 1
}

// Bans template j for lone workers.
pub fn set_banned(p: &mut PolicyBuffer, j: usize)
    requires { j < 16 }
    ensures { policy_of p.new ≡ banned_anew (policy_of p.old) j }
{
    p[BANNED + j] = 1;
}

// Whether task t has a count limit.
pub fn task_limited(p: &PolicyBuffer, t: usize) -> bool
    requires { t < 64 }
    ensures { result ≡ there ((policy_of p.now).tasks.most t) }
{
    p[MOST + t] % 256 != 0
}

// The count limit of task t, or 0 if it has none.
pub fn most(p: &PolicyBuffer, t: usize) -> u64
    requires { t < 64 }
    ensures { (result ≡ value_of same ((policy_of p.now).tasks.most t)) × (result < 256) }
{
    p[MOST + t] % 256
}

// Whether task t has a count limit and `times` has reached it.
pub fn limit_reached(p: &PolicyBuffer, t: usize, times: u64) -> bool
    requires { t < 64 }
    ensures { result ≡ holds (λ n. leb n times) ((policy_of p.now).tasks.most t) }
{
    let most = p[MOST + t] % 256;
    (most != 0) & (most <= times)
}

// Gives task t the count limit n.
pub fn set_most(p: &mut PolicyBuffer, t: usize, n: u64)
    requires { (t < 64) × ((0 < n) × (n < 256)) }
    ensures { policy_of p.new ≡ most_anew (policy_of p.old) t n }
{
    p[MOST + t] = n;
}

// ---- Rules. Row k is the rule with place k + 1.

// The number of sets of a kind.
pub fn limit_count(p: &PolicyBuffer, which: SetKind) -> usize
    ensures { (result ≡ limit_count (set_index which) p.now) × (result ≤ 32) }
{
    cut(p[LIMIT_COUNTS + which.index()], 32)
}

// A number of rows as the buffer has it, capped at its limit, because any content of the buffer must read as some tables.
fn cut(count: u64, most: usize) -> usize
    requires { most ≤ 256 }
    ensures { result ≡ min count most }
{
    if count < most as u64 {
        count as usize
    } else {
        most
    }
}

// The n of set k: at most n members.
pub fn limit_n(p: &PolicyBuffer, which: SetKind, k: usize) -> u64
    requires { k < 32 }
    ensures { result ≡ (limit_at (set_index which) p.now k).n }
{
    p[LIMITS + 64 * which.index() + k]
}

// The members of set k.
pub fn limit_members(p: &PolicyBuffer, which: SetKind, k: usize) -> Set
    requires { k < 32 }
    ensures { result.bits ≡ (limit_at (set_index which) p.now k).members }
{
    Set {
        bits: p[MEMBERS + 64 * which.index() + k],
    }
}

// Adds a set, as the last of its kind.
pub fn add_limit(p: &mut PolicyBuffer, which: SetKind, n: u64, members: Set)
    requires { limit_count (set_index which) p.old < 32 }
    ensures { policy_of p.new ≡ limit_added (policy_of p.old) (set_index which) n members.bits }
{
    let k = limit_count(p, which);
    let kind = which.index();
    p[LIMITS + 64 * kind + k] = n;
    p[MEMBERS + 64 * kind + k] = members.bits;
    p[LIMIT_COUNTS + kind] = k as u64 + 1;
}

// The number of blocks.
pub fn block_count(p: &PolicyBuffer) -> usize
    ensures { (result ≡ block_count p.now) × (result ≤ 64) }
{
    cut(p[BLOCK_COUNT], 64)
}

// The partitioning of block k.
pub fn block_partitioning(p: &PolicyBuffer, k: usize) -> u64
    requires { k < 64 }
    ensures { result ≡ (block_at p.now k).partitioning }
{
    p[PARTITIONINGS + k] % 16
}

// The tasks of block k.
pub fn block_tasks(p: &PolicyBuffer, k: usize) -> Set
    requires { k < 64 }
    ensures { result.bits ≡ (block_at p.now k).tasks }
{
    Set {
        bits: p[BLOCKS + k],
    }
}

// Adds a block, as the last one.
pub fn add_block(p: &mut PolicyBuffer, partitioning: u64, tasks: Set)
    requires { (partitioning < 16) × (block_count p.old < 64) }
    ensures { policy_of p.new ≡ block_added (policy_of p.old) partitioning tasks.bits }
{
    let k = block_count(p);
    p[PARTITIONINGS + k] = partitioning;
    p[BLOCKS + k] = tasks.bits;
    p[BLOCK_COUNT] = k as u64 + 1;
}

// The number of pairs of a kind.
pub fn pair_count(p: &PolicyBuffer, which: PairKind) -> usize
    ensures { (result ≡ pair_count (pair_index which) p.now) × (result ≤ 64) }
{
    cut(p[PAIR_COUNTS + which.index()], 64)
}

// The task a of pair k.
pub fn pair_a(p: &PolicyBuffer, which: PairKind, k: usize) -> u64
    requires { k < 64 }
    ensures { (result ≡ (pair_at (pair_index which) p.now k).a) × (result < 64) }
{
    p[PAIRS + 64 * which.index() + k] % 64
}

// The task b of pair k.
pub fn pair_b(p: &PolicyBuffer, which: PairKind, k: usize) -> u64
    requires { k < 64 }
    ensures { (result ≡ (pair_at (pair_index which) p.now k).b) × (result < 64) }
{
    p[PAIRS + 64 * which.index() + k] / 64 % 64
}

// Adds a pair, as the last of its kind.
pub fn add_pair(p: &mut PolicyBuffer, which: PairKind, a: u64, b: u64)
    requires { (a < 64) × ((b < 64) × (pair_count (pair_index which) p.old < 64)) }
    ensures { policy_of p.new ≡ pair_added (policy_of p.old) (pair_index which) a b }
{
    let k = pair_count(p, which);
    let kind = which.index();
    p[PAIRS + 64 * kind + k] = a + 64 * b;
    p[PAIR_COUNTS + kind] = k as u64 + 1;
}

// ---- Walls. Each row has a wall, a block and an object.

// The number of rows.
pub fn wall_count(p: &PolicyBuffer) -> usize
    ensures { (result ≡ wall_count p.now) × (result ≤ 256) }
{
    cut(p[WALL_COUNT], 256)
}

// The wall of row k.
pub fn walled_wall(p: &PolicyBuffer, k: usize) -> u64
    requires { k < 256 }
    ensures { (result ≡ (walled_at p.now k).wall) × (result < 16) }
{
    p[WALLED + k] % 16
}

// The block of row k.
pub fn walled_block(p: &PolicyBuffer, k: usize) -> u64
    requires { k < 256 }
    ensures { (result ≡ (walled_at p.now k).block) × (result < 16) }
{
    p[WALLED + k] / 16 % 16
}

// The object of row k, or 65,536, which is no object, if the object's bucket does not have the row.
pub fn walled_object(p: &PolicyBuffer, k: usize) -> u64
    requires { k < 256 }
    ensures { (result ≡ (walled_at p.now k).object) × (result ≤ 65536) }
{
    let object = p[WALLED + k] / 256 % 65536;
    if !wall_rows(p, object, k / 64).has((k % 64) as u64) {
        return 65536;
    }
    object
}

// The index of the word of the object's bucket that has the rows 64 part to 64 part + 63.
fn wall_word(object: u64, part: usize) -> usize
    requires { part < 4 }
    ensures { (result ≡ wall_word object part) × (result < 256) }
{
    4 * (object % 64) as usize + part
}

// The rows of the object's bucket among the rows 64 part to 64 part + 63. Every row about the object is in its bucket.
pub fn wall_rows(p: &PolicyBuffer, object: u64, part: usize) -> Set
    requires { part < 4 }
    ensures { result.bits ≡ wall_rows p.now object part }
{
    Set {
        bits: p[WALL_BUCKETS + wall_word(object, part)],
    }
}

// Whether row k has this object, by one comparison of its word. It counts only if wall_rows has it too.
pub fn walled_is(p: &PolicyBuffer, k: usize, object: u64) -> bool
    requires { k < 256 }
    ensures { result ≡ walled_is p.now object k }
{
    p[WALLED + k] / 256 % 65536 == object
}

// Adds a row, as the last one, and adds it to the bucket of its object.
pub fn add_wall(p: &mut PolicyBuffer, wall: u64, block: u64, object: u64)
    requires { (wall < 16) × ((block < 16) × ((object < 65536) × (wall_count p.old < 256))) }
    ensures { policy_of p.new ≡ wall_added (policy_of p.old) wall block object }
{
    let k = wall_count(p);
    let rows = wall_rows(p, object, k / 64).with((k % 64) as u64);
    let word = wall_word(object, k / 64);
    p[WALLED + k] = wall + 16 * block + 256 * object;
    p[WALL_BUCKETS + word] = rows.bits;
    p[WALL_COUNT] = k as u64 + 1;
}

// ---- Empties the policy: every word is 0.
pub fn clear(p: &mut PolicyBuffer)
    ensures { Cleared p.new }
{
    p.fill(0);
}
