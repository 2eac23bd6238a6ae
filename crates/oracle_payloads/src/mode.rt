// Modes, of a byte and of a request: the letters s and t.
ghost use Rattle.io.specs.Counts.{IsPrefixLen};

use file_operation::mode::FileOperationMode;
use oracle_text::answer::put_refused;
use oracle_text::text::put_numbers;
use request_file_transfer::read::read_request;
use wire::refusal::Refusal;

// The refusal, or the mode's byte.
fn put_answered(mode: Result<FileOperationMode, Refusal>, out: &mut [u8], at: usize) -> usize
    ensures { IsPrefixLen result out.new }
{
    match mode {
        Ok(mode) => put_numbers(&[0, 0, 0, u64::from(mode.value())], out, at),
        Err(e) => put_refused(e, 1, out, at),
    }
}

pub(crate) fn put_mode(input: &[u8], out: &mut [u8], at: usize) -> usize
    ensures { IsPrefixLen result out.new }
{
    let &[b] = input else {
        return 0;
    };
    put_answered(FileOperationMode::from_byte(b), out, at)
}

pub(crate) fn put_mode_of(message: &[u8], out: &mut [u8], at: usize) -> usize
    ensures { IsPrefixLen result out.new }
{
    let mode = read_request(message).map(|(request, _)| request.mode_of_operation());
    put_answered(mode, out, at)
}
