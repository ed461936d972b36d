// Policy kinds 9 to 16, the rules of a policy. For each kind, the public function checks a record and adds its rule if the record is accepted.
#![tactic(auto)]

ghost use Rattle.std.specs.Prelude.{◌≡◌, cond, ◌<◌, leb};
ghost use Rattle.paper_lower.specs.Checks.{FULL, GRANTED};
ghost use Rattle.paper_lower.specs.Policy.{ill_made, static_checks, static_next, dynamic_checks, dynamic_next, task_set_checks, task_set_next, block_checks, block_next, ban_checks, ban_next, most_checks, most_next, bind_checks, bind_next, before_checks, before_next};
ghost use Rattle.replies.specs.Replies.{number_of};
ghost use Rattle.policy.specs.Kinds.{set_index, pair_index};
ghost use Rattle.policy.specs.Promises.{Judged, Recorded};
ghost use Rattle.policy.specs.Reading.{limit_added, pair_added};
ghost use Rattle.policy_rule_records.specs.Shared.{limit_checks, pair_checks};

use policy::{PairKind, PolicyBuffer, SetKind};
use replies::{Refusal, Reply};
use sets::Set;

// FULL if the policy already has the most rules of the kind, otherwise GRANTED. This is the last check of a rule.
fn full_at(most: usize, kept: usize) -> Reply
    ensures { number_of result ≡ cond (leb most kept) FULL GRANTED }
{
    if most <= kept {
        return Err(Refusal::Full);
    }
    Ok(())
}

// ---- Sets.

// Whether n is 0 or is not below the number of members.
#[tactic(auto, unfolding(paper_lower::specs::Policy::ill_made))]
fn ill_made(n: u64, m: Set) -> bool
    ensures { result ≡ ill_made n m.bits }
{
    !((1 <= n) & (n < m.count()))
}

// The reply to a set. `known` are the roles or tasks that may be members; `ill` says
// that the rule is ill made; `over` that a user already has more than n of the members.
#[tactic(auto, using(crate::proofs::Room::limits_many), unfolding(crate::specs::Shared::limit_checks))]
fn limit_reply(
    p: &PolicyBuffer,
    which: SetKind,
    known: Set,
    ill: bool,
    over: bool,
    n: u64,
    m: Set,
) -> Reply
    ensures { Judged (λ t. limit_checks t (set_index which) known.bits ill over n m.bits) p.now result }
{
    if !m.within(known) {
        return Err(Refusal::Unknown);
    }
    if policy_lookups::limit_repeated(p, which, n, m) {
        return Err(Refusal::Taken);
    }
    if ill {
        return Err(Refusal::Rule);
    }
    if over {
        return Err(Refusal::Static);
    }
    full_at(32, policy::limit_count(p, which))
}

// Checks a set and adds it if it is accepted.
#[tactic(auto, using(crate::proofs::Room::limit_room))]
fn limit(
    p: &mut PolicyBuffer,
    which: SetKind,
    known: Set,
    ill: bool,
    over: bool,
    n: u64,
    m: Set,
) -> Reply
    ensures { Recorded (λ t. limit_checks t (set_index which) known.bits ill over n m.bits) (λ t. limit_added t (set_index which) n m.bits) p.old p.new result }
{
    limit_reply(p, which, known, ill, over, n, m)?;
    policy::add_limit(p, which, n, m);
    Ok(())
}

// ---- "9 static set, n, roles m."

// Adds the static set, unless a check refuses it.
#[tactic(auto, unfolding(paper_lower::specs::Policy::static_checks, paper_lower::specs::Policy::static_next, crate::specs::Shared::limit_checks))]
pub fn static_set(p: &mut PolicyBuffer, n: u64, m: Set) -> Reply
    ensures { Recorded (λ t. static_checks t n m.bits) (λ t. static_next t n m.bits) p.old p.new result }
{
    let roles = policy::declared_roles(p);
    let ill = ill_made(n, m);
    let over = policy_lookups::user_breaks(p, n, m);
    limit(p, SetKind::Static, roles, ill, over, n, m)
}

// ---- "10 dynamic set, n, roles m."

// Adds the dynamic set, unless a check refuses it.
#[tactic(auto, unfolding(paper_lower::specs::Policy::dynamic_checks, paper_lower::specs::Policy::dynamic_next, crate::specs::Shared::limit_checks))]
pub fn dynamic_set(p: &mut PolicyBuffer, n: u64, m: Set) -> Reply
    ensures { Recorded (λ t. dynamic_checks t n m.bits) (λ t. dynamic_next t n m.bits) p.old p.new result }
{
    let roles = policy::declared_roles(p);
    let ill = ill_made(n, m);
    limit(p, SetKind::Dynamic, roles, ill, false, n, m)
}

// ---- "11 task set, n, tasks m."

// Adds the task set, unless a check refuses it.
#[tactic(auto, unfolding(paper_lower::specs::Policy::task_set_checks, paper_lower::specs::Policy::task_set_next, crate::specs::Shared::limit_checks))]
pub fn task_set(p: &mut PolicyBuffer, n: u64, m: Set) -> Reply
    ensures { Recorded (λ t. task_set_checks t n m.bits) (λ t. task_set_next t n m.bits) p.old p.new result }
{
    let tasks = policy_lookups::declared_tasks(p);
    let ill = ill_made(n, m) | !policy_lookups::one_template(p, m);
    limit(p, SetKind::Task, tasks, ill, false, n, m)
}

// ---- "12 block of partitioning a, tasks m."

// The reply to a block.
#[tactic(auto, using(crate::proofs::Room::blocks_many), unfolding(paper_lower::specs::Policy::block_checks))]
fn block_reply(p: &PolicyBuffer, a: u64, m: Set) -> Reply
    ensures { Judged (λ t. block_checks t a m.bits) p.now result }
{
    if !m.within(policy_lookups::declared_tasks(p)) {
        return Err(Refusal::Unknown);
    }
    if policy_lookups::block_repeated(p, a, m) {
        return Err(Refusal::Taken);
    }
    let earlier = policy_lookups::partitioned(p, a);
    if m.is_empty() | !policy_lookups::one_template(p, m.union(earlier)) | m.meets(earlier) {
        return Err(Refusal::Rule);
    }
    full_at(64, policy::block_count(p))
}

// Adds the block, unless a check refuses it.
#[tactic(auto, using(crate::proofs::Room::block_room), unfolding(paper_lower::specs::Policy::block_next))]
pub fn block(p: &mut PolicyBuffer, a: u64, m: Set) -> Reply
    requires { a < 16 }
    ensures { Recorded (λ t. block_checks t a m.bits) (λ t. block_next t a m.bits) p.old p.new result }
{
    block_reply(p, a, m)?;
    policy::add_block(p, a, m);
    Ok(())
}

// ---- "13 lone-worker ban on template a."

// The reply to a lone-worker ban.
#[tactic(auto, unfolding(paper_lower::specs::Policy::ban_checks))]
fn ban_reply(p: &PolicyBuffer, a: u64) -> Reply
    requires { a < 16 }
    ensures { Judged (λ t. ban_checks t a) p.now result }
{
    if !policy_lookups::has_task(p, a) {
        return Err(Refusal::Unknown);
    }
    if policy::banned(p, a as usize) {
        return Err(Refusal::Taken);
    }
    Ok(())
}

// Bans template a for lone workers, unless a check refuses it.
#[tactic(auto, unfolding(paper_lower::specs::Policy::ban_next))]
pub fn ban(p: &mut PolicyBuffer, a: u64) -> Reply
    requires { a < 16 }
    ensures { Recorded (λ t. ban_checks t a) (λ t. ban_next t a) p.old p.new result }
{
    ban_reply(p, a)?;
    policy::set_banned(p, a as usize);
    Ok(())
}

// ---- "14 task a at most n times."

// The reply to a count limit.
#[tactic(auto, unfolding(paper_lower::specs::Policy::most_checks))]
fn most_reply(p: &PolicyBuffer, n: u64, a: u64) -> Reply
    requires { a < 64 }
    ensures { Judged (λ t. most_checks t n a) p.now result }
{
    if !policy::task_declared(p, a as usize) {
        return Err(Refusal::Unknown);
    }
    if policy::task_limited(p, a as usize) {
        return Err(Refusal::Taken);
    }
    if n == 0 {
        return Err(Refusal::Rule);
    }
    Ok(())
}

// Gives task a the count limit n, unless a check refuses it.
#[tactic(auto, using(crate::proofs::Room::most_some), unfolding(paper_lower::specs::Policy::most_next))]
pub fn most(p: &mut PolicyBuffer, n: u64, a: u64) -> Reply
    requires { (a < 64) × (n < 256) }
    ensures { Recorded (λ t. most_checks t n a) (λ t. most_next t n a) p.old p.new result }
{
    most_reply(p, n, a)?;
    policy::set_most(p, a as usize, n);
    Ok(())
}

// ---- Pairs of tasks.

// The reply to a pair; `repeated` says that the policy already has it.
#[tactic(auto, using(crate::proofs::Room::pairs_many), unfolding(crate::specs::Shared::pair_checks))]
fn pair_reply(p: &PolicyBuffer, which: PairKind, repeated: bool, a: u64, b: u64) -> Reply
    requires { (a < 64) × (b < 64) }
    ensures { Judged (λ t. pair_checks t (pair_index which) repeated a b) p.now result }
{
    if !policy::task_declared(p, a as usize) | !policy::task_declared(p, b as usize) {
        return Err(Refusal::Unknown);
    }
    if repeated {
        return Err(Refusal::Taken);
    }
    if (a == b) | !policy::same_template(p, a as usize, b as usize) {
        return Err(Refusal::Rule);
    }
    full_at(64, policy::pair_count(p, which))
}

// Checks a pair and adds it if it is accepted.
#[tactic(auto, using(crate::proofs::Room::pair_room))]
fn pair(p: &mut PolicyBuffer, which: PairKind, repeated: bool, a: u64, b: u64) -> Reply
    requires { (a < 64) × (b < 64) }
    ensures { Recorded (λ t. pair_checks t (pair_index which) repeated a b) (λ t. pair_added t (pair_index which) a b) p.old p.new result }
{
    pair_reply(p, which, repeated, a, b)?;
    policy::add_pair(p, which, a, b);
    Ok(())
}

// ---- "15 task a bound to task b."

// Adds the binding, unless a check refuses it.
#[tactic(auto, unfolding(paper_lower::specs::Policy::bind_checks, paper_lower::specs::Policy::bind_next, crate::specs::Shared::pair_checks))]
pub fn bind(p: &mut PolicyBuffer, a: u64, b: u64) -> Reply
    requires { (a < 64) × (b < 64) }
    ensures { Recorded (λ t. bind_checks t a b) (λ t. bind_next t a b) p.old p.new result }
{
    let repeated = policy_lookups::pair_repeated(p, PairKind::Binding, a, b)
        | policy_lookups::pair_repeated(p, PairKind::Binding, b, a);
    pair(p, PairKind::Binding, repeated, a, b)
}

// ---- "16 task a before task b."

// Adds the prerequisite, unless a check refuses it.
#[tactic(auto, unfolding(paper_lower::specs::Policy::before_checks, paper_lower::specs::Policy::before_next, crate::specs::Shared::pair_checks))]
pub fn before(p: &mut PolicyBuffer, a: u64, b: u64) -> Reply
    requires { (a < 64) × (b < 64) }
    ensures { Recorded (λ t. before_checks t a b) (λ t. before_next t a b) p.old p.new result }
{
    let repeated = policy_lookups::pair_repeated(p, PairKind::Prerequisite, a, b);
    pair(p, PairKind::Prerequisite, repeated, a, b)
}
