// Writes the dearest body of as many bytes as standard input says.
#![tactic(auto)]

ghost use Rattle.std.specs.Prelude.{◌≡◌, List, ℕ, ◌≤◌, length};
ghost use Rattle.scan.specs.Dearest.{star_and_braces};
ghost use Rattle.dearest.specs.Input.{Digits, Asks, ReadOf};
ghost use Rattle.dearest.specs.Output.{Written};
ghost use Rattle.dearest.specs.code.Answers.{Settles};

use input::answer_input;
use scan::LONGEST;
use std::io;

// The number from 1 to 32,764 whose decimal digits these are.
fn read_numeral(digits: &[u8]) -> Option<usize>
    ensures { Settles (Digits digits.now) result }
{
    if digits.is_empty() {
        return None;
    }
    let mut n = 0;
    for digit in digits {
        if !digit.is_ascii_digit() {
            return None;
        }
        n = 10 * n + usize::from(*digit - b'0');
        // a leading zero
        if n == 0 {
            return None;
        }
        if LONGEST < n {
            return None;
        }
    }
    Some(n)
}

// The number that the input asks for, with or without a last LF.
fn read_request(input: &[u8]) -> Option<usize>
    ensures { Settles (Asks input.now) result }
{
    read_numeral(input.strip_suffix(b"\n").unwrap_or(input))
}

// Puts a star and then only `{`.
fn put_body(body: &mut [u8])
    requires { 1 ≤ length body.old }
    ensures { body.new ≡ star_and_braces (length body.old) }
{
    body.fill(b'{');
    body[0] = b'*';
}

// Puts the body that the input asks for, of which `front` was read; none where it asks for none.
fn dearest<'a>(front: &[u8], room: &'a mut [u8; LONGEST]) -> &'a [u8]
    ensures { (input : List ℕ) → ReadOf input front.now → Written input result.now }
{
    let Some(size) = read_request(front) else {
        return &[];
    };
    let body = &mut room[..size];
    put_body(body);
    body
}

// Reads one byte more than the longest input that asks for a body, so that a longer one is known to be longer.
// Nothing is written to an input that cannot be read.
fn main(rt: HostRuntime) -> io::Result<()> {
    let mut front = [0u8; 7];
    let mut body = [0u8; LONGEST];
    answer_input(rt, "dearest", &mut front, |front| dearest(front, &mut body))
}
