// Reads the task lines: each is the name of a task, one space and the name of a template. It is proved against paper_opl's `lines`.
#![tactic(auto)]

ghost use Rattle.std.specs.Prelude.{◌≤◌, ◌<◌, length, drop};
ghost use Rattle.paper_opl.specs.Reading.{behind};
ghost use Rattle.paper_opl.specs.Naming.{in_line, line_end, lines};
ghost use Rattle.opl_text.specs.Steps.{From, Reads, step_of};
ghost use Rattle.opl_lines.specs.Lines.{forget, ReadsLine};

use opl_text::{BadByte, Step, expect, first_not, is_at};

// Where the two names of a line end, and where the next line begins.
#[derive(Clone, Copy, PartialEq, Eq)]
pub struct Line {
    pub task: usize,
    pub template: usize,
    pub next: usize,
}

// The index after the name that begins at `at`.
fn name_end(t: &[u8], at: usize) -> usize
    requires { at ≤ length t.now }
    ensures { From t.now (behind in_line (drop at t.now)) result }
{
    first_not(t, at, |b| 32 < b)
}

// Reads the end of a line: a line feed, with or without a carriage return before it, or the end of the text.
#[tactic(auto, using(crate::proofs::LineLaws::ends_here, crate::proofs::LineLaws::ends_twice, crate::proofs::LineLaws::ends_once))]
fn line_end(t: &[u8], at: usize) -> Step
    requires { at ≤ length t.now }
    ensures { Reads t.now (step_of t.now) (line_end (drop at t.now)) result }
{
    if t.len() <= at {
        return Ok(at);
    }
    if is_at(t, at, 13) {
        return expect(t, at, b"\r\n");
    }
    expect(t, at, b"\n")
}

// Reads the line that begins at `at`.
#[tactic(auto, using(crate::proofs::LineLaws::line_empty, crate::proofs::LineLaws::line_unspaced))]
pub fn read_line(t: &[u8], at: usize) -> Result<Line, BadByte>
    requires { at ≤ length t.now }
    ensures { ReadsLine t.now at result }
{
    let task = name_end(t, at);
    if task == at {
        return Err(BadByte { at: task });
    }
    if !is_at(t, task, 32) {
        return Err(BadByte { at: task });
    }
    let from = task + 1;
    let template = name_end(t, from);
    if template == from {
        return Err(BadByte { at: template });
    }
    let next = line_end(t, template)?;
    Ok(Line {
        task,
        template,
        next,
    })
}

// Judges all lines. `Ok` holds the length of the text.
pub fn judge(t: &[u8]) -> Step
    ensures { Reads t.now (step_of t.now) (forget (lines (length t.now) t.now)) result }
{
    let mut at = 0;
    while at < t.len() {
        at = read_line(t, at)?.next;
    }
    Ok(at)
}
