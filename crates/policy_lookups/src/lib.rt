// Questions about the tasks, users and rules of a policy, answered by going through the rows of the policy buffer. Each equals its definition in paper_lower,
// Policy. The crate uses only the getters of the policy buffer, not its layout.
#![tactic(auto)]

ghost use Rattle.std.specs.Prelude.{◌≡◌, ◌&&◌, ◌<◌, leb};
ghost use Rattle.paper_lower.specs.Sets.{minus, size, within};
ghost use Rattle.paper_lower.specs.Lists.{some_number_below, some};
ghost use Rattle.paper_lower.specs.Policy.{down, breaks, declared_tasks, tasks_of, has_task, one_template, same_limit, is_same_block, same_pair, partitioned};
ghost use Rattle.policy.specs.Layout.{limit_at, block_at, pair_at};
ghost use Rattle.policy.specs.Kinds.{set_index, pair_index};
ghost use Rattle.policy.specs.Reading.{policy_of, limit_rows_of, pairs_of};
ghost use Rattle.policy_lookups.specs.Rows.{strays, lacks, exceeds, joined};

use policy::{PairKind, PolicyBuffer, SetKind};
use sets::Set;

// ---- Tasks.

// The declared tasks.
pub fn declared_tasks(p: &PolicyBuffer) -> Set
    ensures { result.bits ≡ declared_tasks (policy_of p.now).tasks }
{
    let mut all = Set::EMPTY;
    for t in 0..64 {
        all = all.with_if(policy::task_declared(p, t), t as u64);
    }
    all
}

// Whether template j has a task.
pub fn has_task(p: &PolicyBuffer, j: u64) -> bool
    requires { j < 16 }
    ensures { result ≡ has_task (policy_of p.now).tasks j }
{
    (0..64).any(|t| policy::task_is_of(p, t, j))
}

// Whether t is in m but is not a task of template j.
fn is_stray(p: &PolicyBuffer, t: usize, m: Set, j: u64) -> bool
    requires { (t < 64) × (j < 16) }
    ensures { result ≡ strays (policy_of p.now).tasks m.bits j t }
{
    m.has(t as u64) & !policy::task_is_of(p, t, j)
}

// Whether the tasks m are all of template j.
fn all_of(p: &PolicyBuffer, m: Set, j: u64) -> bool
    requires { j < 16 }
    ensures { result ≡ within m.bits (tasks_of (policy_of p.now).tasks j) }
{
    !(0..64).any(|t| is_stray(p, t, m, j))
}

// Whether the tasks m are all of one template.
pub fn one_template(p: &PolicyBuffer, m: Set) -> bool
    ensures { result ≡ one_template (policy_of p.now).tasks m.bits }
{
    (0..16).any(|j| all_of(p, m, j))
}

// Whether i is a task of template j other than t that is not in d.
fn is_lacking(p: &PolicyBuffer, i: usize, j: u64, t: u64, d: Set) -> bool
    requires { (i < 64) × (j < 16) }
    ensures { result ≡ lacks (policy_of p.now).tasks j t d.bits i }
{
    policy::task_is_of(p, i, j) & (i as u64 != t) & !d.has(i as u64)
}

// Whether every task of template j other than t is in d.
pub fn others_within(p: &PolicyBuffer, j: u64, t: u64, d: Set) -> bool
    requires { j < 16 }
    ensures { result ≡ within (minus (tasks_of (policy_of p.now).tasks j) t) d.bits }
{
    !(0..64).any(|i| is_lacking(p, i, j, t, d))
}

// Whether template j has two or more tasks. It stops at the second: the compiler would vectorise a count of all 64, and every request would then have to save
// the vector registers.
pub fn two_tasks(p: &PolicyBuffer, j: u64) -> bool
    requires { j < 16 }
    ensures { result ≡ leb 2 (size (tasks_of (policy_of p.now).tasks j)) }
{
    let mut n = 0u64;
    for i in 0..64 {
        if policy::task_is_of(p, i, j) {
            if n == 1 {
                return true;
            }
            n = 1;
        }
    }
    false
}

// ---- Sets of roles or tasks of which no one may have more than n members.

// Whether m has more members of set k than the set allows.
fn limit_breaks(p: &PolicyBuffer, which: SetKind, k: usize, m: Set) -> bool
    requires { k < 32 }
    ensures { result ≡ breaks m.bits (limit_at (set_index which) p.now k) }
{
    policy::limit_n(p, which, k) < policy::limit_members(p, which, k).overlap(m)
}

// Whether the roles m break some set of this kind.
pub fn broken(p: &PolicyBuffer, which: SetKind, m: Set) -> bool
    ensures { result ≡ some (breaks m.bits) (limit_rows_of (policy_of p.now).rules (set_index which)) }
{
    (0..policy::limit_count(p, which)).any(|k| limit_breaks(p, which, k, m))
}

// Whether set k has this n and these members.
fn limit_is(p: &PolicyBuffer, which: SetKind, k: usize, n: u64, m: Set) -> bool
    requires { k < 32 }
    ensures { result ≡ same_limit n m.bits (limit_at (set_index which) p.now k) }
{
    (policy::limit_n(p, which, k) == n) & (policy::limit_members(p, which, k).bits == m.bits)
}

// Whether some set of this kind has this n and these members.
pub fn limit_repeated(p: &PolicyBuffer, which: SetKind, n: u64, m: Set) -> bool
    ensures { result ≡ some (same_limit n m.bits) (limit_rows_of (policy_of p.now).rules (set_index which)) }
{
    (0..policy::limit_count(p, which)).any(|k| limit_is(p, which, k, n, m))
}

// Whether user u is declared and has more than n of the roles m, counting the roles below those assigned.
fn user_exceeds(p: &PolicyBuffer, u: usize, n: u64, m: Set) -> bool
    requires { u < 1024 }
    ensures { result ≡ exceeds (policy_of p.now) n m.bits u }
{
    policy::user_declared(p, u) & (n < m.overlap(policy_seniors::down(p, policy::assigned(p, u))))
}

// Whether some user has more than n of the roles m, counting the roles below those assigned.
pub fn user_breaks(p: &PolicyBuffer, n: u64, m: Set) -> bool
    ensures { result ≡ some_number_below 1024 (λ u. (policy_of p.now).people.users u && breaks (down (policy_of p.now).seniority ((policy_of p.now).people.assigned u)) (record { n = n; members = m.bits })) }
{
    (0..1024).any(|u| user_exceeds(p, u, n, m))
}

// ---- Blocks.

// Whether block k is of partitioning a and has exactly the tasks m.
fn block_is(p: &PolicyBuffer, k: usize, a: u64, m: Set) -> bool
    requires { k < 64 }
    ensures { result ≡ is_same_block a m.bits (block_at p.now k) }
{
    (policy::block_partitioning(p, k) == a) & (policy::block_tasks(p, k).bits == m.bits)
}

// Whether some block is of partitioning a and has exactly the tasks m.
pub fn block_repeated(p: &PolicyBuffer, a: u64, m: Set) -> bool
    ensures { result ≡ some (is_same_block a m.bits) (policy_of p.now).rules.blocks }
{
    (0..policy::block_count(p)).any(|k| block_is(p, k, a, m))
}

// The tasks of block k, if it is of partitioning a, together with those collected from later blocks.
fn with_block(p: &PolicyBuffer, k: usize, a: u64, rest: Set) -> Set
    requires { k < 64 }
    ensures { result.bits ≡ joined a (block_at p.now k) rest.bits }
{
    if policy::block_partitioning(p, k) == a {
        policy::block_tasks(p, k).union(rest)
    } else {
        rest
    }
}

// The tasks in the blocks of partitioning a.
pub fn partitioned(p: &PolicyBuffer, a: u64) -> Set
    ensures { result.bits ≡ partitioned a (policy_of p.now).rules.blocks }
{
    let mut all = Set::EMPTY;
    let count = policy::block_count(p);
    for k in (0..count).rev() {
        all = with_block(p, k, a, all);
    }
    all
}

// ---- Pairs of tasks.

// Whether pair k is (a, b).
fn pair_is(p: &PolicyBuffer, which: PairKind, k: usize, a: u64, b: u64) -> bool
    requires { k < 64 }
    ensures { result ≡ same_pair a b (pair_at (pair_index which) p.now k) }
{
    (policy::pair_a(p, which, k) == a) & (policy::pair_b(p, which, k) == b)
}

// Whether some pair of this kind is (a, b).
pub fn pair_repeated(p: &PolicyBuffer, which: PairKind, a: u64, b: u64) -> bool
    ensures { result ≡ some (same_pair a b) (pairs_of (policy_of p.now).rules (pair_index which)) }
{
    (0..policy::pair_count(p, which)).any(|k| pair_is(p, which, k, a, b))
}
