// The whole engine for C and Rust, as include/mishantral.h declares it. A crate is a library or a static library, not both; so each function here calls the
// library's function of that name, and its contract is that function's.
#![tactic(auto)]

ghost use Rattle.std.specs.Prelude.{◌≡◌, true, false, length};
ghost use Rattle.engine.specs.Buffers.{buffers};
ghost use Rattle.engine.specs.Settling.{SettledAs, SettledExported};
ghost use Rattle.engine.specs.Exports.{LoadExported, RequestExported, words_of};
ghost use Rattle.call_pile.specs.Promises.{PileDone};
ghost use Rattle.call_question.specs.Promises.{Questioned};
ghost use Rattle.call_write.specs.Promises.{WriteExported};
ghost use Rattle.call_mend.specs.Promises.{MendDone};
ghost use Rattle.opl.specs.Call.{Exported};

use policy_mending::Dropped;

// The load: the reply + 256 times the place.
#[unsafe(no_mangle)]
pub extern "C" fn mishantral_load(
    bytes: &[u8],
    policy: &mut [u64],
    sessions: &mut [u64],
    orders: &mut [u64],
) -> u64
    ensures { LoadExported bytes.now (buffers policy.old sessions.old orders.old) (buffers policy.new sessions.new orders.new) result }
{
    engine::mishantral_load(bytes, policy, sessions, orders)
}

// One request, of which nothing is required: the reply + 256 times the place.
#[unsafe(no_mangle)]
pub extern "C" fn mishantral_request(
    bytes: &[u8],
    policy: &mut [u64],
    sessions: &mut [u64],
    orders: &mut [u64],
) -> u64
    ensures { RequestExported bytes.now (buffers policy.old sessions.old orders.old) (buffers policy.new sessions.new orders.new) result }
{
    engine::mishantral_request(bytes, policy, sessions, orders)
}

// Empties an engine whose links are not sound, so that settled requests may follow: the reply.
#[unsafe(no_mangle)]
pub extern "C" fn mishantral_settle(
    policy: &mut [u64],
    sessions: &mut [u64],
    orders: &mut [u64],
) -> u64
    ensures { SettledAs (buffers policy.old sessions.old orders.old) (buffers policy.new sessions.new orders.new) result }
{
    engine::mishantral_settle(policy, sessions, orders)
}

// The length in words of a buffer, of a question's answer or of the scratch buffer for OPL/XML; 0 for any other number.
#[unsafe(no_mangle)]
pub extern "C" fn mishantral_words(group: u64) -> u64
    ensures { result ≡ words_of group }
{
    engine::mishantral_words(group)
}

// One request without checking the links.
#[unsafe(no_mangle)]
pub extern "C" fn mishantral_settled_request(
    bytes: &[u8],
    policy: &mut [u64],
    sessions: &mut [u64],
    orders: &mut [u64],
) -> u64
    ensures { SettledExported bytes.now (buffers policy.old sessions.old orders.old) (buffers policy.new sessions.new orders.new) result }
{
    call_settled::mishantral_settled_request(bytes, policy, sessions, orders)
}

// Many requests in one call: the reply.
#[unsafe(no_mangle)]
pub extern "C" fn mishantral_pile(
    bytes: &[u8],
    answers: &mut [u8],
    at: u64,
    policy: &mut [u64],
    sessions: &mut [u64],
    orders: &mut [u64],
) -> u64
    ensures { PileDone bytes.now answers.old at answers.new (buffers policy.old sessions.old orders.old) (buffers policy.new sessions.new orders.new) result }
{
    call_pile::mishantral_pile(bytes, answers, at, policy, sessions, orders)
}

// A question, with its figures in the answer: the reply.
#[unsafe(no_mangle)]
pub extern "C" fn mishantral_question(
    bytes: &[u8],
    answer: &mut [u64],
    policy: &[u64],
    sessions: &[u64],
    orders: &[u64],
) -> u64
    ensures { Questioned bytes.now answer.old answer.new (buffers policy.now sessions.now orders.now) result }
{
    call_question::mishantral_question(bytes, answer, policy, sessions, orders)
}

// The policy written out as records: the reply + 256 times the number of records.
#[unsafe(no_mangle)]
pub extern "C" fn mishantral_write(
    output: &mut [u8],
    policy: &[u64],
    sessions: &[u64],
    orders: &[u64],
) -> u64
    ensures { WriteExported (buffers policy.now sessions.now orders.now) output.old output.new result }
{
    call_write::mishantral_write(output, policy, sessions, orders)
}

// A damaged policy file mended: the reply + 256 times the number of records kept.
#[unsafe(no_mangle)]
pub extern "C" fn mishantral_mend(
    input: &[u8],
    output: &mut [u8],
    report: &mut [Dropped],
    policy: &mut [u64],
    sessions: &mut [u64],
    orders: &mut [u64],
) -> u64
    ensures { MendDone input.now output.old report.old (buffers policy.old sessions.old orders.old) output.new report.new (buffers policy.new sessions.new orders.new) result }
{
    call_mend::mishantral_mend(input, output, report, policy, sessions, orders)
}

// A dealer's OPL/XML with its task lines, read into records.
#[unsafe(no_mangle)]
pub extern "C" fn mishantral_opl(
    policy: &[u8],
    lines: &[u8],
    output: &mut [u8],
    scratch: &mut [u64],
) -> u64
    ensures { Exported false policy.now lines.now (length scratch.old) output.old output.new result }
{
    opl::mishantral_opl(policy, lines, output, scratch)
}

// The same of a policy text with sections 6.2, 6.4 and 6.6 too.
#[unsafe(no_mangle)]
pub extern "C" fn mishantral_opl_all(
    policy: &[u8],
    lines: &[u8],
    output: &mut [u8],
    scratch: &mut [u64],
) -> u64
    ensures { Exported true policy.now lines.now (length scratch.old) output.old output.new result }
{
    opl::mishantral_opl_all(policy, lines, output, scratch)
}
