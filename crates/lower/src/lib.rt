// The lower part alone: policy, roles and sessions, as dealers build it. Its calls take any bytes and any buffers.
#![tactic(auto)]

ghost use Rattle.std.specs.Prelude.{◌≡◌};
ghost use Rattle.paper_lower.specs.Checks.{first};
ghost use Rattle.paper_lower.specs.Forms.{lower_forms};
ghost use Rattle.paper_lower.specs.Kinds.{chosen};
ghost use Rattle.paper_lower.specs.Sessions.{lower_kinds};
ghost use Rattle.replies.specs.Replies.{outcome_reply, outcome_place};
ghost use Rattle.records.specs.Reading.{paper_of};
ghost use Rattle.records.specs.Limits.{Limits};
ghost use Rattle.sessions.specs.Lower.{lower_tables};
ghost use Rattle.lower.specs.Stepped.{Stepped};
ghost use Rattle.lower.specs.Answers.{Requested, Loads};
ghost use Rattle.lower.specs.Exports.{LoadExported, RequestExported, words_of};

use policy::{POLICY_WORDS, PolicyBuffer};
use records::{Call, Record};
use replies::{Outcome, Refusal, Refused, Reply};
use sessions::{SESSIONS_WORDS, SessionsBuffer};
use sets::Set;

// Carries out a request that passed SHAPE and RANGE.
#[tactic(auto, using(records::proofs::Passing::below), unfolding(crate::proofs::Lifts::step_open))]
pub fn step(r: Record, p: &mut PolicyBuffer, s: &mut SessionsBuffer) -> Reply
    requires { Limits lower_forms r }
    ensures { Stepped (first ((chosen lower_kinds r.kind).checks (lower_tables p.old s.old) (paper_of r))) ((chosen lower_kinds r.kind).next (lower_tables p.old s.old) (paper_of r)) p.old s.old p.new s.new result }
{
    let kind = r.kind;
    match kind {
        32 => session_roles::join(p, r.a, Set { bits: r.m }),
        33 => session_roles::delete(p, s, r.a),
        34 => policy_declarations::assign(p, r.a, r.b),
        35 => session_roles::take_back(p, s, r.a, r.b),
        36 => policy_declarations::give(p, r.a, r.b),
        37 => session_roles::withdraw(p, r.a, r.b),
        40 => session_subjects::create(p, s, r.a, r.b, Set { bits: r.m }),
        41 => session_subjects::destroy(s, r.a),
        42 => session_subjects::activate(p, s, r.a, r.b),
        43 => session_subjects::deactivate(p, s, r.a, r.b),
        56 | 59 => session_subjects::ask(p, s, kind, r.a, r.b, r.c),
        _ => Err(Refusal::Shape),
    }
}

// Answers any bytes as a request to the lower part.
pub fn request(bytes: &[u8], policy: &mut [u64], sessions: &mut [u64]) -> Reply
    ensures { Requested bytes.now policy.old sessions.old policy.new sessions.new result }
{
    let Some(p) = policy.as_mut_array::<POLICY_WORDS>() else {
        return Err(Refusal::Room);
    };
    let Some(s) = sessions.as_mut_array::<SESSIONS_WORDS>() else {
        return Err(Refusal::Room);
    };
    records::judge(Call::Lower, bytes)?;
    step(records::decode(bytes), p, s)
}

// Loads any bytes as a policy. Afterwards no subject is live.
pub fn load(bytes: &[u8], policy: &mut [u64], sessions: &mut [u64]) -> Outcome
    ensures { Loads bytes.now policy.old sessions.old policy.new sessions.new (outcome_reply result) (outcome_place result) }
{
    let Some(p) = policy.as_mut_array::<POLICY_WORDS>() else {
        return Err(Refused::from(Refusal::Room));
    };
    let Some(s) = sessions.as_mut_array::<SESSIONS_WORDS>() else {
        return Err(Refused::from(Refusal::Room));
    };
    sessions::clear(s);
    policy_loading::load(bytes, p)
}

// ---- For C and Rust. The answer is one number: the reply plus 256 times the place.

// The load. A place of 2^55 or more, which no memory could hold records for, is cut.
#[unsafe(no_mangle)]
pub extern "C" fn mishantral_lower_load(
    bytes: &[u8],
    policy: &mut [u64],
    sessions: &mut [u64],
) -> u64
    ensures { LoadExported bytes.now policy.old sessions.old policy.new sessions.new result }
{
    let answer = load(bytes, policy, sessions);
    replies::number(replies::reply(answer)) + 256 * (replies::place(answer) % 36028797018963968)
}

// The request. Requests to the lower part have no place.
#[unsafe(no_mangle)]
pub extern "C" fn mishantral_lower_request(
    bytes: &[u8],
    policy: &mut [u64],
    sessions: &mut [u64],
) -> u64
    ensures { RequestExported bytes.now policy.old sessions.old policy.new sessions.new result }
{
    let r = request(bytes, policy, sessions);
    replies::number(r)
}

// The length of a buffer in words: 0 for the policy, 1 for the sessions.
#[unsafe(no_mangle)]
pub extern "C" fn mishantral_lower_words(group: u64) -> u64
    ensures { result ≡ words_of group }
{
    if group == 0 {
        return POLICY_WORDS as u64;
    }
    if group == 1 {
        return SESSIONS_WORDS as u64;
    }
    0
}
