// A number made of a text's bytes: equal texts have equal numbers, and texts whose numbers differ need not be compared.
ghost use Rattle.std.specs.Prelude.{◌≡◌, ◌<◌};
ghost use Rattle.fields.specs.Number.{text_number, short_number};

use super::bytes::keep;

// The number of a text in an odd base, below 2 to the 32nd. Its upper bits differ also where only the last bytes do.
pub fn text_number(s: &[u8], base: usize) -> usize
    requires { base < 2147483648 }
    ensures same { result ≡ text_number base s.now }
    ensures small { result < 4294967296 }
{
    let mut number = 0;
    for &byte in s {
        number = (number + usize::from(byte)) * base % 4294967296;
    }
    number
}

// A number of two bytes: the upper half of the number, in one base, of the first bytes of a text. The others are left to the
// comparison of those texts whose numbers are equal, so that a long text takes no longer than a name.
pub fn short_number(s: &[u8]) -> u16
    ensures { result ≡ short_number s.now }
{
    // By `as`: what is left has two bytes, and try_from would have an error that cannot be.
    (text_number(keep(s, 32), 1640531527) / 65536) as u16
}
