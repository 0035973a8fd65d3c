// The writing of lines.
ghost use Rattle.std.specs.Prelude.{◌≡◌, ◌<◌};
ghost use mathlib.Core.List.{flat_map};
ghost use Rattle.report.specs.Buffer.{Wrote};
ghost use Rattle.citation.specs.Columns.{recounted_range};
ghost use Rattle.citation.specs.Citation.{digits, hex_digit, is_escaped, escaped, cite_position, cite_range, printed, title};
ghost use Rattle.citation.specs.code.Printable.{Printable};

use super::columns::recounted;
use report::writer::Writer;
use report_reader::fields::PositionRange;
use text::position::Position;

// Writes a number in decimal, in at most so many places.
#[tactic(auto, using(report::proofs::Buffers::more_append, report::proofs::Buffers::wrote_none), unfolding(crate::specs::Citation::digits))]
pub fn put_digits(places: usize, n: usize, w: &mut Writer)
    ensures { Wrote w.old w.new (digits places n) }
{
    if places == 0 {
        return;
    }
    if 10 <= n {
        put_digits(places - 1, n / 10, w);
    }
    w.put((0x30 + n % 10) as u8);
}

// A hexadecimal digit, in upper case.
fn hex_digit(n: u8) -> u8
    requires { n < 16 }
    ensures { result ≡ hex_digit n }
{
    if n < 10 { 0x30 + n } else { 0x37 + n }
}

// Is the byte a control character, or the backslash?
fn is_escaped(b: u8) -> bool
    ensures { result ≡ is_escaped b }
{
    b.is_ascii_control() || b == b'\\'
}

// Writes a byte of a text.
#[tactic(auto, using(report::proofs::Buffers::more_append, report::proofs::Buffers::more_cons), unfolding(crate::specs::Citation::escaped))]
fn put_escaped(b: u8, w: &mut Writer)
    ensures { Wrote w.old w.new (escaped b) }
{
    if is_escaped(b) {
        w.put(b'\\');
        w.put(b'x');
        w.put(hex_digit(b / 16));
        w.put(hex_digit(b % 16));
    } else {
        w.put(b);
    }
}

// Writes a text.
#[tactic(auto, using(report::proofs::Buffers::more_append, report::proofs::Buffers::more_nil, crate::proofs::Texts::text_on, crate::proofs::Texts::text_end))]
pub fn put_text(text: &[u8], w: &mut Writer)
    ensures { Wrote w.old w.new (flat_map escaped text.now) }
{
    for b in text {
        put_escaped(*b, w);
    }
}

// Writes line:column, from 1.
#[tactic(auto, using(report::proofs::Buffers::more_append, report::proofs::Buffers::more_cons), unfolding(crate::specs::Citation::cite_position))]
fn put_position(position: Position, w: &mut Writer)
    requires { Printable position }
    ensures { Wrote w.old w.new (cite_position position) }
{
    put_digits(20, position.line + 1, w);
    w.put(b':');
    put_digits(20, position.column + 1, w);
}

// Writes the positions at a range's start and at its end, recounted in UTF-16 code units.
#[tactic(auto, using(report::proofs::Buffers::more_append, report::proofs::Buffers::more_cons), unfolding(crate::specs::Citation::cite_range))]
fn put_range(source: &[u8], range: PositionRange, w: &mut Writer)
    ensures { Wrote w.old w.new
        (cite_range (recounted_range source.now (record { start = range.start; end = range.end }))) }
{
    put_position(recounted(source, range.start), w);
    w.put(b'-');
    put_position(recounted(source, range.end), w);
}

// Writes a line: letter, space, range, space, text.
#[tactic(auto, using(report::proofs::Buffers::more_append, report::proofs::Buffers::more_cons), unfolding(crate::specs::Citation::printed))]
pub fn put_line(source: &[u8], letter: u8, range: PositionRange, text: &[u8], w: &mut Writer)
    ensures { Wrote w.old w.new
        (printed source.now (record { letter = letter; range = record { start = range.start; end = range.end }; text = text.now })) }
{
    w.put(letter);
    w.put(b' ');
    put_range(source, range, w);
    w.put(b' ');
    put_text(text, w);
    w.put(b'\n');
}

// Writes a word and a number, on a line of their own.
#[tactic(auto, using(report::proofs::Buffers::more_append, report::proofs::Buffers::more_cons), unfolding(crate::specs::Citation::title))]
pub fn put_title(word: &[u8], n: usize, w: &mut Writer)
    ensures { Wrote w.old w.new (title word.now n) }
{
    w.put_bytes(word);
    put_digits(20, n, w);
    w.put(b'\n');
}
