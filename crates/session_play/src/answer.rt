// The line of an answer.
ghost use Rattle.std.specs.Prelude.{◌≡◌};
ghost use Rattle.session_play.specs.AnswerText.{answer_line, open_line, tag_refused_line};

use pager::OpenError;
use session_hall::Answer;
use text_lines::Text;

/// The line of an answer, with what is printed of a page that was read.
pub fn answer_line(answer: Answer, byte: u8) -> Text
    ensures { result ≡ answer_line byte answer }
{
    let mut text = Text::new();
    match answer {
        Answer::Done => text.push(b"done\n"),
        Answer::Page => text.push_around(b"byte ", u64::from(byte), b"\n"),
        Answer::Busy => text.push(b"busy\n"),
        Answer::Refused(error) => return open_line(error),
        Answer::TagRefused { page } => return tag_refused_line(page),
        Answer::Misuse => text.push(b"misuse\n"),
        Answer::Down | Answer::DiskFault | Answer::EntropyFault | Answer::OutOfMemory => {}
    }
    text
}

/// The line of a file that does not open.
pub fn open_line(error: OpenError) -> Text
    ensures { result ≡ open_line error }
{
    let mut text = Text::new();
    match error {
        OpenError::Empty => text.push(b"file is empty\n"),
        OpenError::Short { length } => text.push_around(b"file is short: ", length, b" bytes\n"),
        OpenError::KeyRefused => text.push(b"key refused\n"),
        OpenError::HeaderFault { offset, found } => {
            text.push_around(b"header fault at ", u64::from(offset), b": ");
            text.push_number(u64::from(found));
            text.push(b"\n");
        }
        OpenError::WalMode => text.push(b"WAL mode\n"),
        OpenError::AutoVacuum => text.push(b"auto-vacuum\n"),
        OpenError::Ragged { length } => text.push_around(b"file is ragged: ", length, b" bytes\n"),
        OpenError::TooLarge { pages } => {
            text.push_around(b"file is too large: ", pages, b" pages\n");
        }
        OpenError::DiskFault | OpenError::OutOfMemory => {}
    }
    text
}

// The line of a page whose tag does not hold.
fn tag_refused_line(page: u32) -> Text
    ensures { result ≡ tag_refused_line page }
{
    let mut text = Text::new();
    text.push_around(b"page ", u64::from(page), b": tag refused\n");
    text
}
