// The payloads of file transfer messages that are plain values, under the original's names.
ghost use Rattle.std.specs.Prelude.{◌≡◌};

use wire::size::Size;

// How the file is packed and encrypted: a byte that is kept as it is.
#[derive(Clone, Copy, Debug, PartialEq, Eq)]
pub struct DataFormatIdentifier(u8);

impl From<u8> for DataFormatIdentifier {
    ghost from_gives = { λ b format. format.0 ≡ b };

    fn from(b: u8) -> DataFormatIdentifier {
        DataFormatIdentifier(b)
    }
}

impl From<DataFormatIdentifier> for u8 {
    ghost from_gives = { λ format b. b ≡ format.0 };

    fn from(format: DataFormatIdentifier) -> u8 {
        format.0
    }
}

// The two conversions by name: docs/DIFFERENCES.md names them beside the original's.
impl DataFormatIdentifier {
    pub fn from_byte(b: u8) -> DataFormatIdentifier
        ensures { result.0 ≡ b }
    {
        DataFormatIdentifier::from(b)
    }

    pub fn value(self) -> u8
        ensures { result ≡ self.0 }
    {
        u8::from(self)
    }
}

// The sizes of the file in an AddFile, ReplaceFile or ResumeFile request.
#[derive(Clone, Copy, Debug, PartialEq, Eq)]
pub struct SizePayload {
    pub file_size_uncompressed: Size,
    pub file_size_compressed: Size,
}

// The sizes of the file in a ReadFile response. They have a type of their own, since docs/DIFFERENCES.md names both types of the original.
#[derive(Clone, Copy, Debug, PartialEq, Eq)]
pub struct FileSizePayload {
    pub file_size_uncompressed: Size,
    pub file_size_compressed: Size,
}

// The size of the directory information in a ReadDir response.
#[derive(Clone, Copy, Debug, PartialEq, Eq)]
pub struct DirSizePayload {
    pub dir_info_length: Size,
}

// Where in the file a ResumeFile response goes on.
#[derive(Clone, Copy, Debug, PartialEq, Eq)]
pub struct PositionPayload {
    pub file_position: u64,
}
