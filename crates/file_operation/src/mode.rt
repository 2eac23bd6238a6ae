// The six kinds of file transfer and their mode bytes. A seventh cannot be held.
ghost use Rattle.std.specs.Prelude.{◌≡◌};
ghost use Rattle.paper.specs.Kind.{mode_of, known};
ghost use Rattle.file_operation.specs.Mode.{kind_of, mode_said};

use wire::refusal::Refusal;

#[derive(Clone, Copy, Debug, PartialEq, Eq)]
pub enum FileOperationMode {
    AddFile,
    DeleteFile,
    ReplaceFile,
    ReadFile,
    ReadDir,
    ResumeFile,
}

// The kind of a mode byte; 0x00 and 0x07 to 0xFF are refusal 3 with the byte.
impl TryFrom<u8> for FileOperationMode {
    type Error = Refusal;

    ghost try_from_gives = { λ b r. mode_said r ≡ known b };

    #[tactic(auto, unfolding(paper::specs::Kind::known, paper::specs::Kind::one_of))]
    fn try_from(b: u8) -> Result<FileOperationMode, Refusal> {
        match b {
            0x01 => Ok(FileOperationMode::AddFile),
            0x02 => Ok(FileOperationMode::DeleteFile),
            0x03 => Ok(FileOperationMode::ReplaceFile),
            0x04 => Ok(FileOperationMode::ReadFile),
            0x05 => Ok(FileOperationMode::ReadDir),
            0x06 => Ok(FileOperationMode::ResumeFile),
            _ => Err(Refusal::UnknownMode(b)),
        }
    }
}

// The mode byte of a kind.
impl From<FileOperationMode> for u8 {
    ghost from_gives = { λ kind b. b ≡ mode_of (kind_of kind) };

    fn from(kind: FileOperationMode) -> u8 {
        match kind {
            FileOperationMode::AddFile => 0x01,
            FileOperationMode::DeleteFile => 0x02,
            FileOperationMode::ReplaceFile => 0x03,
            FileOperationMode::ReadFile => 0x04,
            FileOperationMode::ReadDir => 0x05,
            FileOperationMode::ResumeFile => 0x06,
        }
    }
}

// The two conversions by name: docs/DIFFERENCES.md names them beside the original's.
impl FileOperationMode {
    pub fn from_byte(b: u8) -> Result<FileOperationMode, Refusal>
        ensures { mode_said result ≡ known b }
    {
        FileOperationMode::try_from(b)
    }

    pub fn value(self) -> u8
        ensures { result ≡ mode_of (kind_of self) }
    {
        u8::from(self)
    }
}
