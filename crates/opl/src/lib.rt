// Translates a dealer's OPL/XML and task lines to records: the two calls for C and Rust. They accept any texts and any buffers, and always answer.
#![tactic(auto)]

ghost use Rattle.std.specs.Prelude.{◌≡◌, true, false, [], ◌<◌, length};
ghost use Rattle.paper_opl.specs.Tree.{behind_mark, document_in};
ghost use Rattle.opl_line_names.specs.Names.{accepted as readWhole};
ghost use Rattle.opl.specs.declared.Refused.TheVariants.{Names};
ghost use Rattle.opl.specs.Call.{answered, Answers, numbered, inside_one, Exported};
ghost use Rattle.opl.specs.Steps.{Accepts, records_answer, accepted_answer, Gives, Ready};

use opl_line_names::LongName;
use opl_lines::judge;
use opl_naming::name_all;
use opl_passes::{begin, check_lines, check_tags, write_all, write_lines};
use opl_reader::{behind_mark, document, prolog};
use opl_said::Texts;
use opl_spaces::WORDS;

// The reply numbers of these calls.
pub const GRANTED: u64 = 0;

pub const ROOM: u64 = 1;

pub const TEXT: u64 = 21;

pub const NAMES: u64 = 22;

// Why nothing was written: a byte of the policy text or of the task lines is not allowed, at this place from 1; a name has no number; or there is not enough
// room in the output, or the scratch buffer has another length.
#[derive(Clone, Copy, PartialEq, Eq)]
pub enum Refused {
    Policy { place: usize },
    Lines { place: usize },
    Names,
    Room,
}

impl From<LongName> for Refused {
    ghost from_gives = { λ _ e. e ≡ Names };

    fn from(_long: LongName) -> Refused {
        Refused::Names
    }
}

// Writes the records of two accepted texts to the output, and returns their number. Their names are in the scratch buffer already, and the tags of the first
// text begin at `from`.
fn records(s: &[u8], t: &[u8], out: &mut [u8], w: &mut [u64], from: usize) -> Result<usize, Refused>
    requires { Ready s.now t.now w.old from }
    ensures { Gives (records_answer s.now t.now out.old) out.old out.new result }
{
    let Some(n) = check_lines(Texts {
        policy: s,
        lines: t,
        scratch: w,
    }) else {
        return Err(Refused::Names);
    };
    let mut counts = [0; 19];
    let Some(j) = check_tags(s, t, w, &mut counts, from) else {
        return Err(Refused::Names);
    };
    counts[6] = n;
    let Some(total) = begin(&mut counts, out.len() / 16) else {
        return Err(Refused::Room);
    };
    let texts = Texts {
        policy: s,
        lines: t,
        scratch: w,
    };
    let first = counts[6];
    write_lines(texts, out, first);
    write_all(texts, &mut counts, out, from, j);
    Ok(total)
}

// Translates two accepted texts.
fn accepted(s: &[u8], t: &[u8], out: &mut [u8], w: &mut [u64]) -> Result<usize, Refused>
    requires { Accepts s.now t.now }
    ensures { Gives (accepted_answer (length w.old) s.now t.now out.old) out.old out.new result }
{
    if w.len() != WORDS {
        return Err(Refused::Room);
    }
    let Ok(from) = prolog(s) else {
        return Err(Refused::Names);
    };
    name_all(s, t, w, from)?;
    records(s, t, out, w, from)
}

// The task lines without a byte order mark.
fn unmarked(t: &[u8]) -> &[u8]
    ensures { result.now ≡ behind_mark t.now }
{
    let from = behind_mark(t);
    &t[from..]
}

// The rest of a call after the policy text has been accepted. The lines, the output and the scratch buffer may hold anything; what the scratch buffer holds
// afterwards means nothing.
fn behind_policy(s: &[u8], t: &[u8], out: &mut [u8], w: &mut [u64]) -> Result<usize, Refused>
    requires { readWhole (document_in true s.now) ≡ true }
    ensures { Answers true s.now t.now (length w.old) out.old out.new result }
{
    let u = unmarked(t);
    match judge(u) {
        Err(bad) => Err(Refused::Lines {
            place: t.len() - u.len() + bad.at + 1,
        }),
        Ok(_) => accepted(s, u, out, w),
    }
}

// ---- For C and Rust. The answer is one number: the reply + 256 times (which text + 4 times the place of the byte from 1, or the number of records).

// These three as one number.
fn numbered(reply: u64, which: u64, n: u64) -> u64
    requires { (reply < 256) × (which < 4) }
    ensures { result ≡ numbered reply which n }
{
    reply + 256 * (which + 4 * (n % 18014398509481984))
}

// An answer as one number.
fn told(answer: Result<usize, Refused>) -> u64
    ensures { result ≡ inside_one (answered answer []) }
{
    match answer {
        Ok(count) => numbered(GRANTED, 0, count as u64),
        Err(Refused::Policy { place }) => numbered(TEXT, 1, place as u64),
        Err(Refused::Lines { place }) => numbered(TEXT, 2, place as u64),
        Err(Refused::Names) => numbered(NAMES, 0, 0),
        Err(Refused::Room) => numbered(ROOM, 0, 0),
    }
}

// `behind_policy` with its answer as one number.
fn number(s: &[u8], t: &[u8], out: &mut [u8], w: &mut [u64]) -> u64
    requires { readWhole (document_in true s.now) ≡ true }
    ensures { Exported true s.now t.now (length w.old) out.old out.new result }
{
    told(behind_policy(s, t, out, w))
}

// Ask 4's call. Each call judges the policy text itself, before the part that both share, so that the judge's eight frames and the frame of that part are never
// on the stack together (DECISIONS D223).
#[unsafe(no_mangle)]
pub extern "C" fn mishantral_opl(
    policy: &[u8],
    lines: &[u8],
    output: &mut [u8],
    scratch: &mut [u64],
) -> u64
    ensures { Exported false policy.now lines.now (length scratch.old) output.old output.new result }
{
    let d = document(policy, false);
    match d {
        Err(bad) => told(Err(Refused::Policy { place: bad.at + 1 })),
        Ok(_) => number(policy, lines, output, scratch),
    }
}

// The wider call, which also reads sections 6.2, 6.4 and 6.6.
#[unsafe(no_mangle)]
pub extern "C" fn mishantral_opl_all(
    policy: &[u8],
    lines: &[u8],
    output: &mut [u8],
    scratch: &mut [u64],
) -> u64
    ensures { Exported true policy.now lines.now (length scratch.old) output.old output.new result }
{
    let d = document(policy, true);
    match d {
        Err(bad) => told(Err(Refused::Policy { place: bad.at + 1 })),
        Ok(_) => number(policy, lines, output, scratch),
    }
}
