// The tasks of a template that can never be claimed because of prerequisites (02, Ask 13; paper_upper, Stuck): the free tasks as a list and the others as a
// set. The only state is `had`, the set of the tasks listed so far; prerequisites are found by a loop over the policy buffer.
#![tactic(auto)]

ghost use Rattle.std.specs.Prelude.{◌≡◌, not, ◌&&◌, ◌<◌, replicate};
ghost use Rattle.paper_lower.specs.Sets.{has, collect};
ghost use Rattle.paper_lower.specs.Policy.{tasks_of};
ghost use Rattle.paper_upper.specs.Stuck.{may, lowest_from, stuck_of};
ghost use Rattle.paper_upper.specs.Requests.{stuck_checks};
ghost use Rattle.paper_upper.specs.Questions.{answer_words, padded};
ghost use Rattle.policy.specs.Layout.{pair_at};
ghost use Rattle.policy.specs.Reading.{policy_of};
ghost use Rattle.policy.specs.Promises.{Judged};
ghost use Rattle.order_stuck.specs.Listing.{waits, waiting, optional, Listed};

use policy::{PairKind, PolicyBuffer};
use replies::{Refusal, Reply};
use sets::Set;

// The length of an answer, which mishantral_words(3) tells.
pub const ANSWER_WORDS: usize = 66;

// The answer to a question.
pub type AnswerBuffer = [u64; ANSWER_WORDS];

// ---- The reply.

// The reply to request 60 about template j.
pub fn judge(p: &PolicyBuffer, j: u64) -> Reply
    requires { j < 16 }
    ensures { Judged (λ k. stuck_checks k.tasks j) p.now result }
{
    if policy_lookups::has_task(p, j) {
        Ok(())
    } else {
        Err(Refusal::Unknown)
    }
}

// ---- The next task of the list.

// The set `rest`, with the later task of pair k added unless the earlier one is in `had`.
fn with_pair(p: &PolicyBuffer, k: usize, had: Set, rest: Set) -> Set
    requires { k < 64 }
    ensures { result.bits ≡ waits had.bits (pair_at 1 p.now k) rest.bits }
{
    let a = policy::pair_a(p, PairKind::Prerequisite, k);
    let b = policy::pair_b(p, PairKind::Prerequisite, k);
    if had.has(a) { rest } else { rest.with(b) }
}

// The tasks that wait for a task that is not in `had`.
fn waiting(p: &PolicyBuffer, had: Set) -> Set
    ensures { result.bits ≡ waiting had.bits (policy_of p.now).rules.befores }
{
    let count = policy::pair_count(p, PairKind::Prerequisite);
    let mut all = Set::EMPTY;
    for k in (0..count).rev() {
        all = with_pair(p, k, had, all);
    }
    all
}

// The tasks of m that are not in k.
fn others(m: Set, k: Set) -> Set
    ensures { result.bits ≡ collect 64 (λ t. has m.bits t && not (has k.bits t)) }
{
    Set {
        bits: m.bits & !k.bits,
    }
}

// The lowest task of m.
fn lowest(m: Set) -> Option<u64>
    ensures { result ≡ optional (lowest_from 0 64 (has m.bits)) }
{
    if m.is_empty() {
        return None;
    }
    Some(u64::from(m.bits.trailing_zeros()))
}

// The lowest task of m that may follow the tasks in `had`.
fn next(p: &PolicyBuffer, m: Set, had: Set) -> Option<u64>
    ensures { result ≡ optional (lowest_from 0 64 (may m.bits (policy_of p.now).rules.befores had.bits)) }
{
    let wait = waiting(p, had);
    lowest(others(m, had.union(wait)))
}

// ---- The list.

// Writes the free tasks of m from word 2 on and their number to word 1, and returns them as a set.
fn list(p: &PolicyBuffer, m: Set, out: &mut AnswerBuffer) -> Set
    ensures { Listed m.bits (policy_of p.now).rules.befores out.old out.new result.bits }
{
    let mut had = Set::EMPTY;
    let mut count = 0u64;
    for n in 0..64 {
        let Some(t) = next(p, m, had) else {
            break;
        };
        out[n + 2] = t;
        had = had.with(t);
        count += 1;
    }
    out[1] = count;
    had
}

// ---- The answer.

// The tasks of template j.
fn tasks_of(p: &PolicyBuffer, j: u64) -> Set
    requires { j < 16 }
    ensures { result.bits ≡ tasks_of (policy_of p.now).tasks j }
{
    let mut all = Set::EMPTY;
    for t in 0..64 {
        if policy::task_is_of(p, t, j) {
            all = all.with(t as u64);
        }
    }
    all
}

// Writes the answer about template j, into words that are 0: the set of its stuck tasks, the number of free ones, and the free ones in their order.
pub fn answer(p: &PolicyBuffer, j: u64, out: &mut AnswerBuffer)
    requires { (j < 16) × (out.old ≡ replicate answer_words 0) }
    ensures { out.new ≡ padded (stuck_of (policy_of p.now).tasks (policy_of p.now).rules j) }
{
    let m = tasks_of(p, j);
    let had = list(p, m, out);
    out[0] = others(m, had).bits;
}
