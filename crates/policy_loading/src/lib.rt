// The load of a policy: checks and carries out its records one after the other.
#![tactic(auto)]

ghost use Rattle.std.specs.Prelude.{◌≡◌, ◌/◌, length};
ghost use Rattle.paper_lower.specs.Forms.{policy_forms};
ghost use Rattle.paper_lower.specs.Kinds.{chosen};
ghost use Rattle.paper_lower.specs.Policy.{policy_kinds};
ghost use Rattle.paper_lower.specs.Load.{policy_answer, load_on};
ghost use Rattle.replies.specs.Done.{Done};
ghost use Rattle.replies.specs.Replies.{outcome_reply, outcome_place};
ghost use Rattle.records.specs.Reading.{paper_of};
ghost use Rattle.records.specs.Limits.{Limits};
ghost use Rattle.policy.specs.Promises.{Recorded};
ghost use Rattle.policy.specs.Reading.{policy_of};
ghost use Rattle.policy_loading.specs.LoadDone.{LoadDone, leaves};

use policy::{POLICY_WORDS, PolicyBuffer};
use records::{Call, Record};
use replies::{Outcome, Refusal, Refused, Reply};

// Carries out one record that passed SHAPE and RANGE.
#[tactic(auto, using(records::proofs::Passing::below), unfolding(crate::proofs::Turns::step_open))]
fn step(r: Record, p: &mut PolicyBuffer) -> Reply
    requires { Limits policy_forms r }
    ensures { Recorded (λ t. (chosen policy_kinds r.kind).checks t (paper_of r)) (λ t. (chosen policy_kinds r.kind).next t (paper_of r)) p.old p.new result }
{
    let kind = r.kind;
    let n = r.n;
    let a = r.a;
    let b = r.b;
    let c = r.c;
    let m = sets::set_of(r.m);
    match kind {
        1 => policy_declarations::user(p, a),
        2 => policy_declarations::role(p, a),
        3 => policy_declarations::permission(p, a, b, c),
        4 => policy_declarations::assign(p, a, b),
        5 => policy_declarations::give(p, a, b),
        6 => policy_declarations::task(p, a, b),
        7 => policy_declarations::open_to(p, a, b),
        8 => policy_declarations::carries(p, a, b),
        9 => policy_rule_records::static_set(p, n, m),
        10 => policy_rule_records::dynamic_set(p, n, m),
        11 => policy_rule_records::task_set(p, n, m),
        12 => policy_rule_records::block(p, a, m),
        13 => policy_rule_records::ban(p, a),
        14 => policy_rule_records::most(p, n, a),
        15 => policy_rule_records::bind(p, a, b),
        16 => policy_rule_records::before(p, a, b),
        17 => policy_senior_records::raise(p, a, b),
        18 => policy_wall_records::wall(p, a, b, c),
        _ => Err(Refusal::Shape),
    }
}

// Checks and carries out one record, whatever its bytes are.
pub fn record(bytes: &[u8], p: &mut PolicyBuffer) -> Reply
    ensures { Done policy_of (policy_answer (policy_of p.old) bytes.now).reply (policy_answer (policy_of p.old) bytes.now).tables p.old p.new result }
{
    records::judge(Call::Load, bytes)?;
    step(records::decode(bytes), p)
}

// Carries out the records of a policy, each on the tables that the previous ones left. It stops at the first that is refused.
fn run(bytes: &[u8], p: &mut PolicyBuffer) -> Outcome
    ensures { leaves (outcome_reply result) (outcome_place result) (policy_of p.new) ≡ load_on (length bytes.now / 16) 1 bytes.now (policy_of p.old) }
{
    for (passed, chunk) in bytes.chunks_exact(16).enumerate() {
        if let Err(refusal) = record(chunk, p) {
            return Err(Refused {
                refusal,
                place: passed as u64 + 1,
            });
        }
    }
    if !bytes.len().is_multiple_of(16) {
        return Err(Refused {
            refusal: Refusal::Shape,
            place: (bytes.len() / 16) as u64 + 1,
        });
    }
    Ok(())
}

// Loads a policy into the buffer, whatever the buffer contains. A refused load leaves the policy empty.
pub fn load(bytes: &[u8], policy: &mut [u64]) -> Outcome
    ensures { LoadDone bytes.now policy.old policy.new (outcome_reply result) (outcome_place result) }
{
    let Some(p) = policy.as_mut_array::<POLICY_WORDS>() else {
        return Err(Refused::from(Refusal::Room));
    };
    policy::clear(p);
    let answer = run(bytes, p);
    if answer.is_err() {
        policy::clear(p);
    }
    answer
}
