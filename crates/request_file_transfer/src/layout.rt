// The table of kinds: what stands after the name.
ghost use Rattle.std.specs.Prelude.{◌≡◌};
ghost use Rattle.paper.specs.Request.{after_name};
ghost use Rattle.file_operation.specs.Mode.{kind_of};
ghost use Rattle.request_file_transfer.specs.Layout.{layout_of};

use file_operation::mode::FileOperationMode;

#[derive(Clone, Copy, Debug, PartialEq, Eq)]
pub enum AfterName {
    FormatAndSizes,
    Nothing,
    FormatOnly,
}

pub fn after_name(kind: FileOperationMode) -> AfterName
    ensures { layout_of result ≡ after_name (kind_of kind) }
{
    match kind {
        FileOperationMode::AddFile
        | FileOperationMode::ReplaceFile
        | FileOperationMode::ResumeFile => AfterName::FormatAndSizes,
        FileOperationMode::DeleteFile | FileOperationMode::ReadDir => AfterName::Nothing,
        FileOperationMode::ReadFile => AfterName::FormatOnly,
    }
}
