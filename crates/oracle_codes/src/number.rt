// Every trouble code, by its number: the letter l.
ghost use Rattle.std.specs.Prelude.{◌≡◌, ◌+◌, ◌%◌, ◌^◌, ◌≤◌};
ghost use Rattle.io.specs.Counts.{IsPrefixLen};

use dtc::status::DtcRecord;
use oracle_text::input::number_at;
use oracle_text::text::put_numbers;

// Of how many numbers there is a code, and how many of these codes give their number back, are written as its three bytes, and are
// read from those as a code that is equal.
#[derive(Clone, Copy, Default)]
struct Sums {
    made: u64,
    back: u64,
    written: u64,
    again: u64,
}

impl Sums {
    // Up to 0x00FFFFFF there is a code of each number.
    fn count(&mut self, n: u32)
        requires { n ≤ 0x00FFFFFF }
        ensures { self.new.made ≡ (self.old.made + 1) % 2 ^ 64 }
    {
        let Ok(code) = DtcRecord::from_u32(n) else {
            return;
        };
        let mut bytes = [0u8; 3];
        let written = code.encode(&mut bytes) == Ok(3) && number_at(&bytes, 0, 3) == u64::from(n);
        let again = matches!(DtcRecord::decode(&bytes, 0), Ok((again, 3)) if again.equals(code));
        self.made = self.made.wrapping_add(1);
        self.back = self.back.wrapping_add(u64::from(code.to_u32() == n));
        self.written = self.written.wrapping_add(u64::from(written));
        self.again = self.again.wrapping_add(u64::from(again));
    }
}

// The numbers whose third byte is `high`.
fn codes_of(high: u8) -> Sums
    ensures { result.made ≡ 65536 }
{
    let mut sums = Sums::default();
    for low in 0..65536 {
        sums.count(u32::from(high) * 65536 + low);
    }
    sums
}

pub(crate) fn put_codes_of(input: &[u8], out: &mut [u8], at: usize) -> usize
    ensures { IsPrefixLen result out.new }
{
    let &[high] = input else {
        return 0;
    };
    let sums = codes_of(high);
    put_numbers(&[sums.made, sums.back, sums.written, sums.again], out, at)
}
