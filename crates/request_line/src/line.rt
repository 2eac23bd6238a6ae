// What the reading program says of a message.
ghost use Rattle.std.specs.Prelude.{◌≡◌};
ghost use Rattle.paper.specs.Request.{read_request};
ghost use Rattle.paper.specs.ReadingProgram.{format_shown, line_for, line_of};
ghost use Rattle.request_file_transfer.specs.Layout.{layout_of};
ghost use Rattle.request_line.specs.Line.{shown_of, line_said, good_or_bad};

use file_operation::payload::DataFormatIdentifier;
use request_file_transfer::layout::{AfterName, after_name};
use request_file_transfer::read::read_request;
use request_file_transfer::write::needed;
use wire::place::part_at;
use wire::refusal::Refusal;

// What is said of a request that was read: its mode byte, how long its name is, its format byte, how long it is rewritten, and how many bytes are left
// behind it.
#[derive(Clone, Copy, Debug, PartialEq, Eq)]
pub struct Accepted {
    pub kind: u8,
    pub name: usize,
    // none where the kind has no format byte
    pub format: Option<u8>,
    pub normal: usize,
    pub left: usize,
}

// The input is too long; or one request was read; or it was refused.
#[derive(Clone, Copy, Debug, PartialEq, Eq)]
pub enum Line {
    TooLong,
    Accepted(Accepted),
    Refused(Refusal),
}

// The format byte, if the kind has one.
fn format_shown(layout: AfterName, format: DataFormatIdentifier) -> Option<u8>
    ensures { shown_of result ≡ format_shown (layout_of layout) format.0 }
{
    match layout {
        AfterName::Nothing => None,
        AfterName::FormatAndSizes | AfterName::FormatOnly => Some(format.into()),
    }
}

// What is said of one request, or why it is refused.
fn request_line(input: &[u8]) -> Result<Accepted, Refusal>
    ensures { good_or_bad result ≡ line_for (read_request input.now) }
{
    let (q, tail) = read_request(input)?;
    let place = q.file_path_and_name;
    let normal = needed(q.kind, part_at(input, place), q.size)?;
    Ok(Accepted {
        kind: q.kind.into(),
        name: place.len,
        format: format_shown(after_name(q.kind), q.data_format_identifier),
        normal,
        left: input.len() - tail,
    })
}

// Above 4,096 bytes the input is too long; else one request is read.
pub fn line_of(input: &[u8]) -> Line
    ensures { line_said result ≡ line_of input.now }
{
    if 4096 < input.len() {
        return Line::TooLong;
    }
    match request_line(input) {
        Ok(accepted) => Line::Accepted(accepted),
        Err(refusal) => Line::Refused(refusal),
    }
}
