// The table of kinds: what stands after the mode, and after the format byte.
ghost use Rattle.std.specs.Prelude.{◌≡◌};
ghost use Rattle.paper.specs.Response.{after_mode};
ghost use Rattle.file_operation.specs.Mode.{kind_of};
ghost use Rattle.request_file_transfer_response.specs.Layout.{layout_of};

use file_operation::mode::FileOperationMode;

#[derive(Clone, Copy, Debug, PartialEq, Eq)]
pub enum AfterFormat {
    Nothing,
    TwoSizes,
    OneSize,
    Position,
}

// What stands after the format byte, of a kind that has a block length and a format byte; the others end with the mode.
pub fn after_mode(kind: FileOperationMode) -> Option<AfterFormat>
    ensures { layout_of result ≡ after_mode (kind_of kind) }
{
    match kind {
        FileOperationMode::AddFile | FileOperationMode::ReplaceFile => Some(AfterFormat::Nothing),
        FileOperationMode::DeleteFile => None,
        FileOperationMode::ReadFile => Some(AfterFormat::TwoSizes),
        FileOperationMode::ReadDir => Some(AfterFormat::OneSize),
        FileOperationMode::ResumeFile => Some(AfterFormat::Position),
    }
}
