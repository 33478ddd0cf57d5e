// The answer to one frame of bytes, for hosts that have frames.
ghost use Rattle.contactlib.specs.Framed.{Framed};

use frame::frame_answer;
use frame_encode::LONGEST_ANSWER;

// A frame, its kind first, is answered as the program answers it, faults too: how many bytes the answer has, which stand first in `answer`. Where
// `answer` has fewer than 108 places, 0, and nothing is written.
pub fn contact_answer(frame: &[u8], answer: &mut [u8]) -> usize
    ensures { Framed frame.now answer.old result answer.new }
{
    if answer.len() < LONGEST_ANSWER {
        return 0;
    }
    frame_answer(frame, answer)
}
