// Requests 48, 49 and 58, and requests 33 and 41 of the whole engine, which are IN USE because of entries too. For each, `..._reply` checks the request
// without changing anything, and the function of the request also carries it out if it is granted. The contracts are in specs/Promises.
#![tactic(auto)]

ghost use Rattle.std.specs.Prelude.{◌≡◌, true, ◌<◌};
ghost use Rattle.order_links.specs.Chains.{sound_of};
ghost use Rattle.order_requests.specs.Promises.{AnyContent, DeleteJudged, Deleted, DestroyJudged, Destroyed, OpenJudged, Opened, EndJudged, Ended, FiguresJudged};

use order_links::OrdersBuffer;
use policy::PolicyBuffer;
use replies::{Refusal, Reply};
use sessions::SessionsBuffer;

// ---- 33: delete user a, who must have no entry in an open instance.

fn delete_reply(p: &PolicyBuffer, s: &SessionsBuffer, o: &OrdersBuffer, a: u64) -> Reply
    requires { a < 1024 }
    ensures { sound_of o.now ≡ true → DeleteJudged p.now s.now o.now a result }
{
    session_roles::delete_reply(p, s, a)?;
    let used = order_entries::in_open_order(o, a);
    if used { Err(Refusal::InUse) } else { Ok(()) }
}

// Deletes user a, unless a check refuses it.
pub fn delete(p: &mut PolicyBuffer, s: &mut SessionsBuffer, o: &OrdersBuffer, a: u64) -> Reply
    requires { a < 1024 }
    ensures { AnyContent o.now ((p.new ≡ p.old) × (s.new ≡ s.old)) (Deleted p.old s.old p.new s.new o.now a result) result }
{
    delete_reply(p, s, o, a)?;
    session_roles::remove(p, s, a);
    Ok(())
}

// ---- 41: destroy subject a, which must hold no task.

fn destroy_reply(s: &SessionsBuffer, o: &OrdersBuffer, a: u64) -> Reply
    requires { a < 128 }
    ensures { sound_of o.now ≡ true → DestroyJudged s.now o.now a result }
{
    session_subjects::destroy_reply(s, a)?;
    let holds = order_entries::holds_any(o, a);
    if holds { Err(Refusal::InUse) } else { Ok(()) }
}

// Destroys subject a, unless a check refuses it.
pub fn destroy(s: &mut SessionsBuffer, o: &OrdersBuffer, a: u64) -> Reply
    requires { a < 128 }
    ensures { AnyContent o.now (s.new ≡ s.old) (Destroyed s.old s.new o.now a result) result }
{
    destroy_reply(s, o, a)?;
    sessions::destroy(s, a as usize);
    Ok(())
}

// ---- 48: open instance a of template b. The sessions do not matter.

fn open_reply(p: &PolicyBuffer, o: &OrdersBuffer, a: u64, b: u64) -> Reply
    requires { (a < 64) × (b < 16) }
    ensures { OpenJudged p.now o.now a b result }
{
    if !policy_lookups::has_task(p, b) {
        return Err(Refusal::Unknown);
    }
    if order_entries::opened(o, a).is_some() {
        return Err(Refusal::Taken);
    }
    Ok(())
}

// Opens instance a of template b, unless a check refuses it.
pub fn open_order(p: &PolicyBuffer, o: &mut OrdersBuffer, a: u64, b: u64) -> Reply
    requires { (a < 64) × (b < 16) }
    ensures { AnyContent o.old (o.new ≡ o.old) (Opened p.now o.old o.new a b result) result }
{
    open_reply(p, o, a, b)?;
    order_entries::set_opened(o, a, b);
    Ok(())
}

// ---- 49: end instance a. The policy and the sessions do not matter.

fn end_reply(o: &OrdersBuffer, a: u64) -> Reply
    requires { a < 64 }
    ensures { sound_of o.now ≡ true → EndJudged o.now a result }
{
    if order_entries::opened(o, a).is_none() {
        return Err(Refusal::Unknown);
    }
    let held = order_entries::order_held(o, a);
    if held { Err(Refusal::InUse) } else { Ok(()) }
}

// Ends instance a, unless a check refuses it.
pub fn end_order(o: &mut OrdersBuffer, a: u64) -> Reply
    requires { a < 64 }
    ensures { AnyContent o.old (o.new ≡ o.old) (Ended o.old o.new a result) result }
{
    end_reply(o, a)?;
    order_entries::end_order(o, a);
    Ok(())
}

// ---- 58: whether the figures of instance a can be asked for. The policy and the sessions do not matter, and it changes nothing.

// The reply to request 58. The figures are in order_entries::figures_of.
pub fn figures_reply(o: &OrdersBuffer, a: u64) -> Reply
    requires { a < 64 }
    ensures { FiguresJudged o.now a result }
{
    if order_entries::opened(o, a).is_some() {
        Ok(())
    } else {
        Err(Refusal::Unknown)
    }
}
