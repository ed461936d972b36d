// Questions whose answer is more than a reply (document 02, Asks 9 and 13). The state is only read; the answer goes to a buffer of the caller's, of a fixed
// length. The reply is the one that the engine's request gives to the same record.
#![tactic(auto)]

ghost use Rattle.std.specs.Prelude.{◌≡◌, true, ◌++◌, ◌<◌, replicate};
ghost use Rattle.paper_lower.specs.Checks.{first};
ghost use Rattle.paper_lower.specs.Forms.{request_forms, form_checks};
ghost use Rattle.paper_upper.specs.Questions.{answer_words, asks};
ghost use Rattle.replies.specs.Replies.{number_of};
ghost use Rattle.records.specs.Limits.{Limits};
ghost use Rattle.order_entries.specs.Acts.{Ready};
ghost use Rattle.engine.specs.Buffers.{buffers, fit};
ghost use Rattle.call_question.specs.Question.{question_checks};
ghost use Rattle.call_question.specs.Promises.{FiguresAnswered, StuckAnswered, Answered, Questioned};

use order_links::{ORDERS_WORDS, OrdersBuffer};
pub use order_stuck::ANSWER_WORDS;
use order_stuck::AnswerBuffer;
use policy::{POLICY_WORDS, PolicyBuffer};
use records::{Call, Record};
use replies::{Refusal, Reply};

// Whether a kind is a question: 58 or 60.
fn is_question(kind: u64) -> bool
    ensures { result ≡ asks kind }
{
    (kind == 58) | (kind == 60)
}

// Checks lengths, SHAPE and RANGE, which need no table of the state.
fn judge(bytes: &[u8], answer: &[u64], policy: &[u64], sessions: &[u64], orders: &[u64]) -> Reply
    ensures { number_of result ≡ first (question_checks (fit (buffers policy.now sessions.now orders.now)) answer.now bytes.now ++ form_checks request_forms bytes.now) }
{
    if !engine::fit(policy.len(), sessions.len(), orders.len()) {
        return Err(Refusal::Room);
    }
    if answer.len() != ANSWER_WORDS {
        return Err(Refusal::Room);
    }
    if bytes.len() != 16 {
        return Err(Refusal::Shape);
    }
    let r = records::decode(bytes);
    if !is_question(r.kind) {
        return Err(Refusal::Shape);
    }
    records::judge(Call::Request, bytes)
}

// Sets every word of the answer to 0.
fn clear(answer: &mut AnswerBuffer)
    ensures { answer.new ≡ replicate answer_words 0 }
{
    answer.fill(0);
}

// Kind 58: the number of entries of instance a, and the set of its done tasks.
fn figures(answer: &mut AnswerBuffer, o: &OrdersBuffer, a: u64) -> Reply
    requires { Ready o.now × (a < 64) }
    ensures { FiguresAnswered o.now a answer.old answer.new result }
{
    order_requests::figures_reply(o, a)?;
    let f = order_entries::figures_of(o, a);
    let done = f.done;
    clear(answer);
    answer[0] = f.entries;
    answer[1] = done.bits;
    Ok(())
}

// Kind 60: the stuck tasks of template a, and the list of its free tasks.
fn stuck_tasks(answer: &mut AnswerBuffer, p: &PolicyBuffer, a: u64) -> Reply
    requires { a < 16 }
    ensures { StuckAnswered p.now a answer.old answer.new result }
{
    order_stuck::judge(p, a)?;
    clear(answer);
    order_stuck::answer(p, a, answer);
    Ok(())
}

// Answers a question by its kind; `judge` has refused all other kinds before.
fn answer_to(r: Record, answer: &mut AnswerBuffer, p: &PolicyBuffer, o: &OrdersBuffer) -> Reply
    requires { Ready o.now × (Limits request_forms r × (asks r.kind ≡ true)) }
    ensures { Answered p.now o.now r answer.old answer.new result }
{
    let kind = r.kind;
    match kind {
        58 => figures(answer, o, r.a),
        60 => stuck_tasks(answer, p, r.a),
        _ => Err(Refusal::Shape),
    }
}

// Answers a question, given as any bytes. Links that are not sound read as the empty engine, for which every question is UNKNOWN.
pub fn question(
    bytes: &[u8],
    answer: &mut [u64],
    policy: &[u64],
    sessions: &[u64],
    orders: &[u64],
) -> Reply
    ensures { Questioned bytes.now answer.old answer.new (buffers policy.now sessions.now orders.now) (number_of result) }
{
    judge(bytes, answer, policy, sessions, orders)?;
    let answer = answer.as_mut_array::<ANSWER_WORDS>().ok_or(Refusal::Room)?;
    let p = policy.as_array::<POLICY_WORDS>().ok_or(Refusal::Room)?;
    let o = orders.as_array::<ORDERS_WORDS>().ok_or(Refusal::Room)?;
    let r = records::decode(bytes);
    if !order_links::is_sound(o) {
        return Err(Refusal::Unknown);
    }
    answer_to(r, answer, p, o)
}

// `question` for C and Rust: the reply's number.
#[unsafe(no_mangle)]
pub extern "C" fn mishantral_question(
    bytes: &[u8],
    answer: &mut [u64],
    policy: &[u64],
    sessions: &[u64],
    orders: &[u64],
) -> u64
    ensures { Questioned bytes.now answer.old answer.new (buffers policy.now sessions.now orders.now) result }
{
    let r = question(bytes, answer, policy, sessions, orders);
    replies::number(r)
}
