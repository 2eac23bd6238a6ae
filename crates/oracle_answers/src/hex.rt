// Bytes in lower-case hexadecimal, two digits to a byte.
// Their number stands beside the room and in no struct with it, as in crate `oracle_text`.
ghost use Rattle.std.specs.Prelude.{◌<◌};
ghost use Rattle.io.specs.Counts.{IsPrefixLen};

// The value of a digit. Any other character counts as 0, and comes out as that digit when the bytes are written anew.
fn digit(c: u8) -> u8
    ensures { result < 16 }
{
    match c {
        b'0'..=b'9' => c - b'0',
        b'a'..=b'f' => c - b'a' + 10,
        _ => 0,
    }
}

// The bytes that a text stands for, put at the start of `out` as far as it goes; how many they are.
pub(crate) fn bytes_of(text: &[u8], out: &mut [u8]) -> usize
    ensures { IsPrefixLen result out.new }
{
    let (pairs, _) = text.as_chunks::<2>();
    for (pair, byte) in pairs.iter().zip(out.iter_mut()) {
        *byte = digit(pair[0]) * 16 + digit(pair[1]);
    }
    pairs.len().min(out.len())
}
