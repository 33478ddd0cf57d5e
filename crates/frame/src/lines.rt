// The answer to one line of characters.
ghost use Rattle.std.specs.Prelude.{true, ◌≡◌, ◌/◌, ◌≤◌, length};
ghost use Rattle.frame_encode.specs.Bytes.{longest_answer};
ghost use Rattle.frame_hex.specs.Hex.{hex_line, bytes_of};
ghost use Rattle.frame.specs.Answers.{Answers};
ghost use Rattle.frame.specs.Frames.{frame_answer};
ghost use Rattle.frame.specs.inner.Faults.{Tried};
ghost use Rattle.frame.specs.Lines.{answered_of, line_answer, longest_line_answer};

use crate::{Fault, frame_answer, or_fault};
use frame_encode::LONGEST_ANSWER;
use frame_hex::{hex_line, put_hex, take_bytes};

// The most characters that a line may have.
const MOST_CHARACTERS: usize = 20000;

// The characters of up to SHORT bytes: a line of these takes no large room, which would have to be cleared for each.
const SHORT: usize = 64;

// The answer to the frame that a line of hexadecimal stands for; its bytes go into the room.
fn answer_in(line: &[u8], room: &mut [u8], answer: &mut [u8]) -> usize
    requires { (hex_line line.now ≡ true) × (length line.now / 2 ≤ length room.old) × (longest_answer ≤ length answer.old) }
    ensures { Answers (frame_answer (bytes_of line.now)) answer.old result answer.new }
{
    let n = line.len() / 2;
    take_bytes(line, room);
    frame_answer(&room[..n], answer)
}

// The answer to a line as bytes.
fn answered(line: &[u8], answer: &mut [u8]) -> Result<usize, Fault>
    requires { longest_answer ≤ length answer.old }
    ensures { Tried (answered_of line.now) answer.old result answer.new }
{
    if MOST_CHARACTERS < line.len() {
        return Err(Fault::TooLong);
    }
    if !hex_line(line) {
        return Err(Fault::NoHex);
    }
    if line.len() <= SHORT {
        return Ok(answer_in(line, &mut [0; SHORT / 2], answer));
    }
    Ok(answer_in(line, &mut [0; MOST_CHARACTERS / 2], answer))
}

// The answer to a line as a line: two characters a byte.
pub fn line_answer(line: &[u8], out: &mut [u8]) -> usize
    requires { longest_line_answer ≤ length out.old }
    ensures { Answers (line_answer line.now) out.old result out.new }
{
    let mut answer = [0; LONGEST_ANSWER];
    let tried = answered(line, &mut answer);
    let n = or_fault(tried, &mut answer);
    put_hex(&answer[..n], out);
    2 * n
}
