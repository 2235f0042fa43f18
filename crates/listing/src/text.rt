// Lines: texts and numbers in decimal digits, written one behind the other.
ghost use Rattle.std.specs.Prelude.{map};
ghost use Rattle.output.specs.Writes.{Writes};
ghost use Rattle.listing.specs.Decimal.{decimal};
ghost use Rattle.listing.specs.Listing.{line};
ghost use Rattle.listing.specs.Words.{bytes_of};

use itoa::Buffer;
use output::Output;

// A word of a line.
#[derive(Clone, Copy)]
pub enum Word<'a> {
    Text(&'a [u8]),
    Number(usize),
}

// Writes a number in decimal digits. Most numbers have one, which needs no buffer: with the library's digits for those too, the
// listing took more time. `write!` would not do, since by its contract it may fail, and then anything may be written.
pub fn write_number(number: usize, output: &mut Output)
    ensures { Writes (decimal number) output.old output.new }
{
    if number < 10 {
        // By `as`: one digit, of which try_from would have an error that cannot be.
        output.write_byte(b'0' + number as u8);
        return;
    }
    let mut digits = Buffer::new();
    output.write_text(digits.format(number).as_bytes());
}

// Writes a word. In the place of the call it is known which case it is.
#[inline(always)]
fn write_word(word: Word, output: &mut Output)
    ensures { Writes (bytes_of word.entry) output.old output.new }
{
    match word {
        Word::Text(text) => output.write_text(text),
        Word::Number(number) => write_number(number, output),
    }
}

// Writes a line: a text, and words with a space in front of each. In the place of the call the words are known.
#[inline(always)]
pub fn write_line(text: &[u8], words: &[Word], output: &mut Output)
    ensures { Writes (line text.now (map bytes_of words.now)) output.old output.new }
{
    output.write_text(text);
    for &word in words {
        output.write_byte(b' ');
        write_word(word, output);
    }
    output.write_byte(b'\n');
}
