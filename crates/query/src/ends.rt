// The ends of a lookup: its answer in words of the caller's.
ghost use Rattle.std.specs.Prelude.{◌≡◌};
ghost use Rattle.answers.specs.Answers.{answer_words};

use answers::{ANSWER_WORDS, Answer};
use base::numbers::ACCEPTED;

// A result's number is stored once more, behind all else: the compiler joins ends that store in one order, and then holds each of ten cells in a register up to
// the end that they have in common.
pub(crate) fn end(answer: Answer, words: &mut [u32; ANSWER_WORDS])
    ensures { words.new ≡ answer_words answer }
{
    if answer.number == ACCEPTED {
        let found = Answer {
            number: ACCEPTED,
            ..answer
        };
        *words = found.into();
        words[0] = ACCEPTED;
        return;
    }
    *words = answer.into();
}
