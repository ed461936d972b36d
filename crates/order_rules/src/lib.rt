// The claim rules on the policy buffer. Each function equals its definition (paper_upper, Rules; docs/RULES.md, "The ledger and the claim rules"). Those for
// BEFORE, SEPARATION, BLOCK and BOUND return the place of the first rule broken, counted from 1 in policy order, or None. Here d are the tasks of the claiming
// user, called D in the rules.
#![tactic(auto)]

ghost use Rattle.std.specs.Prelude.{◌≡◌, ◌<◌};
ghost use Rattle.paper_lower.specs.Lists.{some};
ghost use Rattle.paper_lower.specs.Lists.Maybe.{just};
ghost use Rattle.paper_upper.specs.Rules.{missing, before, crowded, separation, own, strange, block_within, block, alone, tied, bound};
ghost use Rattle.policy.specs.Layout.{limit_at, block_at, pair_at};
ghost use Rattle.policy.specs.Reading.{policy_of};
ghost use Rattle.order_rules.specs.Blocks.{after, apart};
ghost use Rattle.order_rules.specs.Judging.{place_if_any, Judging};

use policy::{PairKind, PolicyBuffer, SetKind};
use replies::{Outcome, Refusal, Refused};
use sets::Set;

// ---- BEFORE.

// Whether prerequisite k requires a task before t that is not done.
fn is_missing(p: &PolicyBuffer, k: usize, finished: Set, t: u64) -> bool
    requires { k < 64 }
    ensures { result ≡ missing finished.bits t (pair_at 1 p.now k) }
{
    let a = policy::pair_a(p, PairKind::Prerequisite, k);
    let b = policy::pair_b(p, PairKind::Prerequisite, k);
    (b == t) & !finished.has(a)
}

// Whether anything is required before t. Most claims need no further search. The loop has no early exit, so that the compiler can vectorise it.
fn has_before(p: &PolicyBuffer, t: u64) -> bool
    ensures { result ≡ some (after t) (policy_of p.now).rules.befores }
{
    let count = policy::pair_count(p, PairKind::Prerequisite);
    let mut found = false;
    for k in 0..count {
        let b = policy::pair_b(p, PairKind::Prerequisite, k);
        found = (b == t) | found;
    }
    found
}

// The place of the first prerequisite that refuses t.
fn before(p: &PolicyBuffer, finished: Set, t: u64) -> Option<u64>
    ensures { result ≡ place_if_any (before (policy_of p.now).rules finished.bits t) }
{
    if !has_before(p, t) {
        return None;
    }
    let count = policy::pair_count(p, PairKind::Prerequisite);
    let missing = (0..count).position(|k| is_missing(p, k, finished, t));
    missing.map(|k| k as u64 + 1)
}

// ---- SEPARATION.

// Whether task set k has t and n or more other members in d.
fn is_crowded(p: &PolicyBuffer, k: usize, d: Set, t: u64) -> bool
    requires { (k < 32) × (t < 64) }
    ensures { result ≡ crowded d.bits t (limit_at 2 p.now k) }
{
    let members = policy::limit_members(p, SetKind::Task, k);
    if !members.has(t) {
        return false;
    }
    let n = policy::limit_n(p, SetKind::Task, k);
    let others = d.without(t);
    n <= members.overlap(others)
}

// The place of the first task set that refuses t.
fn separation(p: &PolicyBuffer, d: Set, t: u64) -> Option<u64>
    requires { t < 64 }
    ensures { result ≡ place_if_any (separation (policy_of p.now).rules d.bits t) }
{
    let count = policy::limit_count(p, SetKind::Task);
    let crowded = (0..count).position(|k| is_crowded(p, k, d, t));
    crowded.map(|k| k as u64 + 1)
}

// ---- BLOCK.

// Whether block k is of partitioning q and has t.
fn is_own(p: &PolicyBuffer, k: usize, q: u64, t: u64) -> bool
    requires { (k < 64) × (t < 64) }
    ensures { result ≡ own q t (block_at p.now k) }
{
    let tasks = policy::block_tasks(p, k);
    (policy::block_partitioning(p, k) == q) & tasks.has(t)
}

// Whether some block of partitioning q has t.
fn has_own(p: &PolicyBuffer, q: u64, t: u64) -> bool
    requires { t < 64 }
    ensures { result ≡ some (own q t) (policy_of p.now).rules.blocks }
{
    let count = policy::block_count(p);
    (0..count).any(|k| is_own(p, k, q, t))
}

// Whether block k is of partitioning q, does not have t, and has a task of d.
fn is_strange(p: &PolicyBuffer, k: usize, q: u64, d: Set, t: u64) -> bool
    requires { (k < 64) × (t < 64) }
    ensures { result ≡ strange q d.bits t (block_at p.now k) }
{
    let tasks = policy::block_tasks(p, k);
    (policy::block_partitioning(p, k) == q) & !tasks.has(t) & tasks.meets(d)
}

// Whether block k, of any partitioning, does not have t and has a task of d.
fn is_apart(p: &PolicyBuffer, k: usize, d: Set, t: u64) -> bool
    requires { (k < 64) × (t < 64) }
    ensures { result ≡ apart d.bits t (block_at p.now k) }
{
    let tasks = policy::block_tasks(p, k);
    !tasks.has(t) & tasks.meets(d)
}

// Whether there is such a block. Without one no claim is refused, so that most claims need no further search. The loop has no early exit, so that the
// compiler can vectorise it.
fn has_apart(p: &PolicyBuffer, d: Set, t: u64) -> bool
    requires { t < 64 }
    ensures { result ≡ some (apart d.bits t) (policy_of p.now).rules.blocks }
{
    if d.is_empty() {
        return false;
    }
    let count = policy::block_count(p);
    let mut found = false;
    for k in 0..count {
        found = is_apart(p, k, d, t) | found;
    }
    found
}

// The place of the first block of partitioning q with a task of d, but without t, if t is in a block of that partitioning.
fn block_within(p: &PolicyBuffer, q: u64, d: Set, t: u64) -> Option<u64>
    requires { t < 64 }
    ensures { result ≡ place_if_any (block_within (policy_of p.now).rules d.bits t q) }
{
    if !has_own(p, q, t) {
        return None;
    }
    let count = policy::block_count(p);
    let strange = (0..count).position(|k| is_strange(p, k, q, d, t));
    strange.map(|k| k as u64 + 1)
}

// The place of the block that refuses t, in the first partitioning that has one.
fn block(p: &PolicyBuffer, d: Set, t: u64) -> Option<u64>
    requires { t < 64 }
    ensures { result ≡ place_if_any (block (policy_of p.now).rules d.bits t) }
{
    if !has_apart(p, d, t) {
        return None;
    }
    (0..16).find_map(|q| block_within(p, q, d, t))
}

// ---- ALONE.

// Whether the template is banned for lone workers and has two or more tasks, all of which other than t are in d.
fn alone(p: &PolicyBuffer, template: u64, d: Set, t: u64) -> bool
    requires { (template < 16) × (t < 64) }
    ensures { result ≡ alone (policy_of p.now).tasks (just template) d.bits t }
{
    if !policy::banned(p, template as usize) {
        return false;
    }
    if !policy_lookups::others_within(p, template, t, d) {
        return false;
    }
    policy_lookups::two_tasks(p, template)
}

// ---- BOUND.

// Whether t is on one side of binding k and another user has an entry of the task on the other side.
fn is_tied(p: &PolicyBuffer, k: usize, others: Set, t: u64) -> bool
    requires { k < 64 }
    ensures { result ≡ tied others.bits t (pair_at 0 p.now k) }
{
    let a = policy::pair_a(p, PairKind::Binding, k);
    let b = policy::pair_b(p, PairKind::Binding, k);
    if (a != t) & (b != t) {
        return false;
    }
    ((a == t) & others.has(b)) | ((b == t) & others.has(a))
}

// The place of the first binding that refuses t.
fn bound(p: &PolicyBuffer, others: Set, t: u64) -> Option<u64>
    ensures { result ≡ place_if_any (bound (policy_of p.now).rules others.bits t) }
{
    if others.is_empty() {
        return None;
    }
    let count = policy::pair_count(p, PairKind::Binding);
    let tied = (0..count).position(|k| is_tied(p, k, others, t));
    tied.map(|k| k as u64 + 1)
}

// ---- All rules.

// The reply of the first claim rule that refuses task t, in the order of the rules, and its place.
pub fn judge(
    p: &PolicyBuffer,
    template: u64,
    mine: Set,
    done: Set,
    others: Set,
    times: u64,
    t: u64,
) -> Outcome
    requires { (template < 16) × (t < 64) }
    ensures { Judging (policy_of p.now).tasks (policy_of p.now).rules (just template) mine.bits done.bits others.bits times t result }
{
    if let Some(place) = before(p, done, t) {
        return Err(Refused {
            refusal: Refusal::Before,
            place,
        });
    }
    if let Some(place) = separation(p, mine, t) {
        return Err(Refused {
            refusal: Refusal::Separation,
            place,
        });
    }
    if let Some(place) = block(p, mine, t) {
        return Err(Refused {
            refusal: Refusal::Block,
            place,
        });
    }
    if alone(p, template, mine, t) {
        return Err(Refused::from(Refusal::Alone));
    }
    if let Some(place) = bound(p, others, t) {
        return Err(Refused {
            refusal: Refusal::Bound,
            place,
        });
    }
    if policy::limit_reached(p, t as usize, times) {
        return Err(Refused::from(Refusal::Count));
    }
    Ok(())
}
