//! What is to be written at the end of a run.
ghost use Rattle.std.specs.Prelude.{◌≡◌};
ghost use Rattle.bmp_program.specs.Runs.{answer_view};

use crate::Status;

/// The bytes of an answer.
#[derive(Drop)]
pub(crate) enum AnswerText {
    Fixed(&'static [u8]),
    Made(Vec<u8>),
}

/// A status, and the text that is written with it.
#[derive(Drop)]
pub(crate) struct Answer {
    pub(crate) status: Status,
    pub(crate) text: AnswerText,
}

/// The answer of one fixed line.
pub(crate) fn fixed(status: Status, line: &'static [u8]) -> Answer
    ensures { answer_view result ≡ record { status = status; text = line.entry.now } }
{
    Answer {
        status,
        text: AnswerText::Fixed(line),
    }
}

/// The answer of a text that was made.
pub(crate) fn made(status: Status, text: Vec<u8>) -> Answer
    ensures { answer_view result ≡ record { status = status; text = text.items } }
{
    Answer {
        status,
        text: AnswerText::Made(text),
    }
}

/// The bytes of the answer.
pub(crate) fn bytes_of(answer: &Answer) -> &[u8]
    ensures { result.now ≡ (answer_view answer.now).text }
{
    match &answer.text {
        AnswerText::Fixed(line) => line,
        AnswerText::Made(text) => text,
    }
}
