// The format byte: the letter u.
ghost use Rattle.io.specs.Counts.{IsPrefixLen};

use file_operation::payload::DataFormatIdentifier;
use oracle_text::text::put_numbers;

pub(crate) fn put_format(input: &[u8], out: &mut [u8], at: usize) -> usize
    ensures { IsPrefixLen result out.new }
{
    let &[b] = input else {
        return 0;
    };
    let format = DataFormatIdentifier::from_byte(b);
    put_numbers(&[u64::from(format.value())], out, at)
}
