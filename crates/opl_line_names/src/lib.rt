// Declares the names of accepted task lines, one space at a time. Its specs are also used for the names that tags declare (opl_naming).
#![tactic(auto)]

ghost use Rattle.std.specs.Prelude.{◌≡◌, true, ◌≤◌, ◌<◌, length, drop};
ghost use Rattle.paper_opl.specs.Naming.{lines};
ghost use Rattle.opl_names.specs.Table.{Sound};
ghost use Rattle.opl_spaces.specs.Spaces.{limit_of, scratch_words, table_of};
ghost use Rattle.opl_line_names.specs.Names.{line_names, accepted, part_of, LineWalking, DeclaresAll};

use opl_lines::read_line;
use opl_spaces::{LONGEST_NAME, TASKS, declare};
use opl_tags::Part;

// Why names cannot all be declared: one of them is too long.
#[derive(Clone, Copy, PartialEq, Eq)]
pub struct LongName;

// The part of a line that declares a name of space i: the task for space 5, the template for space 6.
fn part_of(i: usize, at: usize, task: usize, template: usize) -> Part
    requires { task < template }
    ensures { result ≡ part_of i at task template }
{
    if i == TASKS {
        return Part { from: at, to: task };
    }
    Part {
        from: task + 1,
        to: template,
    }
}

// Declares the name of the line at `at`, and returns the index of the next line; none at the end of the text.
fn declare_line(t: &[u8], w: &mut [u64], i: usize, at: usize) -> Result<Option<usize>, LongName>
    requires { ((length w.old ≡ scratch_words) × (i < 7)) × (Sound t.now (limit_of i) (table_of i w.old) × ((at ≤ length t.now) × (accepted (lines (length t.now) (drop at t.now)) ≡ true))) }
    ensures { LineWalking t.now i at w.old w.new result }
{
    let Ok(line) = read_line(t, at) else {
        return Ok(None);
    };
    let p = part_of(i, at, line.task, line.template);
    let from = p.from;
    let size = p.to - from;
    if LONGEST_NAME < size {
        return Err(LongName);
    }
    declare(t, w, i, from, size);
    Ok(Some(line.next))
}

// Declares the names of all lines of an accepted text.
pub fn declare_lines(t: &[u8], w: &mut [u64], i: usize) -> Result<(), LongName>
    requires { ((length w.old ≡ scratch_words) × (i < 7)) × (Sound t.now (limit_of i) (table_of i w.old) × (accepted (lines (length t.now) t.now) ≡ true)) }
    ensures { DeclaresAll t.now i (line_names t.now i 0) w.old w.new result }
{
    let mut at = 0;
    while let Some(next) = declare_line(t, w, i, at)? {
        at = next;
    }
    Ok(())
}
