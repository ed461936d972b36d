// Requests 50 to 52 and 57: claim, release, done and task check, which depend on
// the policy, the sessions and the orders. The contracts are in specs/Promises.
#![tactic(auto)]

ghost use Rattle.std.specs.Prelude.{◌≡◌, true, ◌<◌, ◌≤◌};
ghost use Rattle.paper_lower.specs.Sets.{meets};
ghost use Rattle.paper_lower.specs.Policy.{down};
ghost use Rattle.paper_upper.specs.Requests.{unknown};
ghost use Rattle.replies.specs.Replies.{outcome_reply, outcome_place};
ghost use Rattle.policy.specs.Reading.{policy_of};
ghost use Rattle.sessions.specs.Reading.{sessions_of};
ghost use Rattle.order_links.specs.Chains.{sound_of};
ghost use Rattle.order_entries.specs.Acts.{InLimits};
ghost use Rattle.order_requests.specs.Tables.{engine_tables};
ghost use Rattle.order_requests.specs.Promises.{AnyContent};
ghost use Rattle.order_claims.specs.Promises.{Known, ClaimJudged, Claimed, HoldJudged, Released, Finished, TaskCheckJudged};

use order_links::OrdersBuffer;
use policy::PolicyBuffer;
use replies::{Outcome, Refusal, Refused, Reply};
use sessions::SessionsBuffer;

// The most entries in use. "FULL is given only at 2,048 in use."
const MOST: usize = 2048;

// ---- What the four requests share: subject a, instance b, task c.

// The template of instance b, if the subject is live, the instance open and the task one of its template.
fn known(
    p: &PolicyBuffer,
    s: &SessionsBuffer,
    o: &OrdersBuffer,
    a: u64,
    b: u64,
    c: u64,
) -> Option<u64>
    requires { InLimits b c a }
    ensures { Known (engine_tables p.now s.now o.now) a b c result }
{
    let template = order_entries::opened(o, b)?;
    let open = sessions::live(s, a as usize) & policy::task_is_of(p, c as usize, template);
    open.then_some(template)
}

// Whether the subject is not live, or the task is not one of an open instance's template.
fn is_unknown(
    p: &PolicyBuffer,
    s: &SessionsBuffer,
    o: &OrdersBuffer,
    a: u64,
    b: u64,
    c: u64,
) -> bool
    requires { InLimits b c a }
    ensures { result ≡ unknown (engine_tables p.now s.now o.now) a b c }
{
    known(p, s, o, a, b, c).is_none()
}

// Whether an active role of the subject, or a role below one, opens the task.
fn has_role(p: &PolicyBuffer, s: &SessionsBuffer, a: u64, c: u64) -> bool
    requires { (a < 128) × (c < 64) }
    ensures { result ≡ meets ((policy_of p.now).tasks.open_to c) (down (policy_of p.now).seniority ((sessions_of s.now).active a)) }
{
    let roles = policy_seniors::down(p, sessions::active(s, a as usize));
    policy::open_to(p, c as usize).meets(roles)
}

// ---- 50: claim.

// The reply to a claim, and the place of the rule that refuses it. It goes through the entries of the instance once.
fn claim_reply(
    p: &PolicyBuffer,
    s: &SessionsBuffer,
    o: &OrdersBuffer,
    a: u64,
    b: u64,
    c: u64,
) -> Outcome
    requires { InLimits b c a }
    ensures { (outcome_place result ≤ 64) × (sound_of o.now ≡ true → ClaimJudged p.now s.now o.now a b c result) }
{
    let Some(template) = known(p, s, o, a, b, c) else {
        return Err(Refused::from(Refusal::Unknown));
    };
    let user = sessions::user(s, a as usize);
    let g = order_entries::gather(o, b, user, c);
    if g.held == 1 {
        return Err(Refused::from(Refusal::Taken));
    }
    if !has_role(p, s, a, c) {
        return Err(Refused::from(Refusal::NoRole));
    }
    order_rules::judge(p, template, g.mine, g.done, g.others, g.times, c)?;
    if MOST <= order_entries::in_use(o) {
        return Err(Refused::from(Refusal::Full));
    }
    Ok(())
}

// Checks a claim and, if it is granted, adds the entry.
pub fn claim(
    p: &PolicyBuffer,
    s: &SessionsBuffer,
    o: &mut OrdersBuffer,
    a: u64,
    b: u64,
    c: u64,
) -> Outcome
    requires { InLimits b c a }
    ensures { (outcome_place result ≤ 64) × AnyContent o.old (o.new ≡ o.old) (Claimed p.now s.now o.old o.new a b c result) (outcome_reply result) }
{
    claim_reply(p, s, o, a, b, c)?;
    let user = sessions::user(s, a as usize);
    order_entries::enter(o, b, user, c, a);
    Ok(())
}

// ---- 51 and 52: release and done. One pass over the entries finds what the subject holds and changes it. If it finds nothing, it writes nothing.

// Removes the entry of a task that the subject holds.
pub fn release(
    p: &PolicyBuffer,
    s: &SessionsBuffer,
    o: &mut OrdersBuffer,
    a: u64,
    b: u64,
    c: u64,
) -> Reply
    requires { InLimits b c a }
    ensures { AnyContent o.old (o.new ≡ o.old) (Released p.now s.now o.old o.new a b c result) result }
{
    if is_unknown(p, s, o, a, b, c) {
        return Err(Refusal::Unknown);
    }
    if !order_entries::release(o, b, c, a) {
        return Err(Refusal::NotYours);
    }
    Ok(())
}

// Marks the entry of a task that the subject holds as done.
pub fn finish(
    p: &PolicyBuffer,
    s: &SessionsBuffer,
    o: &mut OrdersBuffer,
    a: u64,
    b: u64,
    c: u64,
) -> Reply
    requires { InLimits b c a }
    ensures { AnyContent o.old (o.new ≡ o.old) (Finished p.now s.now o.old o.new a b c result) result }
{
    if is_unknown(p, s, o, a, b, c) {
        return Err(Refusal::Unknown);
    }
    if !order_entries::finish(o, b, c, a) {
        return Err(Refusal::NotYours);
    }
    Ok(())
}

// ---- 57: whether the subject may do the operation on the object with the task that
// it holds. m is the operation plus 65,536 times the object. It changes nothing.

// The reply of the checks before DENIED.
#[tactic(auto, unfolding(paper_upper::specs::Requests::hold_checks))]
fn hold_reply(
    p: &PolicyBuffer,
    s: &SessionsBuffer,
    o: &OrdersBuffer,
    a: u64,
    b: u64,
    c: u64,
) -> Reply
    requires { InLimits b c a }
    ensures { sound_of o.now ≡ true → HoldJudged p.now s.now o.now a b c result }
{
    if is_unknown(p, s, o, a, b, c) {
        return Err(Refusal::Unknown);
    }
    if !order_entries::holds_task(o, b, c, a) {
        return Err(Refusal::NotYours);
    }
    Ok(())
}

// The reply to a task check.
pub fn task_check_reply(
    p: &PolicyBuffer,
    s: &SessionsBuffer,
    o: &OrdersBuffer,
    a: u64,
    b: u64,
    c: u64,
    m: u64,
) -> Reply
    requires { InLimits b c a × (m < 4294967296) }
    ensures { sound_of o.now ≡ true → TaskCheckJudged p.now s.now o.now a b c m result }
{
    hold_reply(p, s, o, a, b, c)?;
    if !policy_permissions::carried(p, c, m % 65536, m / 65536) {
        return Err(Refusal::Denied);
    }
    Ok(())
}
