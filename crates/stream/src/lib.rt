// The lines of an input that comes in parts, cut anywhere, and the answer to each, told as soon as it has ended: specs/Told.antt says what is told; how the
// characters of an unfinished line are held is `stream_pending`'s. Nothing here reads or writes.
//
// Lines are found by a scan of the part. One that lies whole in it is answered from there; only one that began in an earlier part is copied together first.
// The room for a line, and what is held in it, stay two parameters: the records Held and Tells speak of both.
#![tactic(auto)]

ghost use Rattle.std.specs.Prelude.{List, ◌++◌, ℕ, ◌+◌, ◌≤◌, ◌<◌, length};
ghost use Rattle.frame.specs.Answers.{Answers};
ghost use Rattle.frame.specs.Frames.{fault_of};
ghost use Rattle.frame.specs.Lines.{line_answer, longest_line_answer};
ghost use Rattle.frame_hex.specs.Hex.{hex_of};
ghost use Rattle.stream_pending.specs.Ends.{longest_told};
ghost use Rattle.stream_pending.specs.Held.{Ready, Held};
ghost use Rattle.stream.specs.Tells.{Tells};
ghost use Rattle.stream.specs.Told.{line_told, told_last};

use frame::lines::line_answer;
use stream_pending::{Pending, end_line, goes_on, hold, is_nothing, line_end};

// How many characters were told, what is held behind them, and how many places the answers take.
#[derive(Clone, Copy)]
pub struct Part {
    pub taken: usize,
    pub held: Pending,
    pub count: usize,
}

// ff24
fn put_long(out: &mut [u8]) -> usize
    requires { longest_line_answer ≤ length out.old }
    ensures { Answers (hex_of (fault_of 0x24)) out.old result out.new }
{
    out[..4].copy_from_slice(b"ff24");
    4
}

// The answer to the characters that are held.
fn answer_held(line: &[u8], p: Pending, out: &mut [u8]) -> usize
    requires { Ready line.now p × (longest_line_answer ≤ length out.old) }
    ensures { (result ≤ longest_line_answer)
        × ((xs : List ℕ) → Held xs line.now p → Answers (line_answer xs) out.old result out.new) }
{
    match p.kept {
        Some(len) => line_answer(&line[..len], out),
        None => put_long(out),
    }
}

// The answer to the line that is held and ends with these characters.
fn answer_ended(part: &[u8], line: &mut [u8], p: Pending, out: &mut [u8]) -> usize
    requires { Ready line.old p × (longest_line_answer ≤ length out.old) }
    ensures { (result ≤ longest_line_answer)
        × ((xs : List ℕ) → Held xs line.old p → Answers (line_answer (xs ++ part.now)) out.old result out.new) }
{
    if is_nothing(p) {
        return line_answer(part, out);
    }
    let held = hold(part, line, p);
    answer_held(line, held, out)
}

// What is told of the line that is held and ends with these characters.
fn tell_line(part: &[u8], line: &mut [u8], p: Pending, out: &mut [u8]) -> usize
    requires { Ready line.old p × (longest_told ≤ length out.old) }
    ensures { (result ≤ longest_told)
        × ((xs : List ℕ) → Held xs line.old p → Answers (line_told (xs ++ part.now)) out.old result out.new) }
{
    let n = answer_ended(part, line, p, out);
    end_line(out, n)
}

// What is told at the end of the input.
pub fn tell_last(line: &[u8], p: Pending, out: &mut [u8]) -> usize
    requires { Ready line.now p × (longest_told ≤ length out.old) }
    ensures { (result ≤ longest_told)
        × ((xs : List ℕ) → Held xs line.now p → Answers (told_last xs) out.old result out.new) }
{
    if is_nothing(p) {
        return 0;
    }
    let n = answer_held(line, p, out);
    end_line(out, n)
}

// The next line of what was read, or what there is of it.
fn tell_next(rest: &[u8], line: &mut [u8], p: Pending, out: &mut [u8]) -> Part
    requires { (0 < length rest.now) × Ready line.old p × (longest_told ≤ length out.old) }
    ensures { (0 < result.taken) × (result.taken ≤ length rest.now) × (result.count ≤ longest_told) × Ready line.new result.held
        × ((xs : List ℕ) → Held xs line.old p
        → Tells xs rest.now out.old result line.new out.new) }
{
    let n = line_end(rest);
    if n < rest.len() {
        let count = tell_line(&rest[..n], line, p, out);
        return Part {
            taken: n + 1,
            held: Pending { kept: Some(0) },
            count,
        };
    }
    Part {
        taken: n,
        held: hold(rest, line, p),
        count: 0,
    }
}

// What was read, to its end or until the next answer may find too little room: the answers stand in `out` from the first place on, in order.
pub fn tell_part(chunk: &[u8], line: &mut [u8], p: Pending, out: &mut [u8]) -> Part
    requires { (0 < length chunk.now) × Ready line.old p × (longest_told ≤ length out.old) }
    ensures { (0 < result.taken) × (result.taken ≤ length chunk.now) × (result.count ≤ length out.old)
        × (result.taken < length chunk.now → length out.old < result.count + longest_told) × Ready line.new result.held
        × ((xs : List ℕ) → Held xs line.old p
        → Tells xs chunk.now out.old result line.new out.new) }
{
    let mut told = Part {
        taken: 0,
        held: p,
        count: 0,
    };
    // A turn goes on by the length of a line, so no `for` counts the turns.
    while goes_on(told.taken, chunk.len(), told.count, out.len()) {
        let next = tell_next(
            &chunk[told.taken..],
            line,
            told.held,
            &mut out[told.count..],
        );
        told = Part {
            taken: told.taken + next.taken,
            held: next.held,
            count: told.count + next.count,
        };
    }
    told
}
