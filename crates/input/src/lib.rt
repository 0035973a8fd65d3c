// An input read to its end, where a read that fails is not taken for the end, and the frame of a program that answers it.
#![tactic(auto)]

ghost use Rattle.input.specs.code.InputWithin.{InputWithin};

use std::io;
use std::io::{Read, Write};

// Reads until the input ends, the buffer is full or a read fails: how many bytes stand at the start of the buffer, all of the input, or its front where
// it is longer than the buffer.
pub fn read_input<R: Read>(reader: &mut R, buffer: &mut [u8]) -> io::Result<usize>
    ensures { InputWithin buffer.new result }
{
    let mut done = 0;
    while done < buffer.len() {
        match reader.read(&mut buffer[done..])? {
            0 => break,
            more => done += more,
        }
    }
    Ok(done)
}

// Reads standard input as `read_input` does, and writes the answer to what was read. Standard error tells what cannot be read or written to; what
// cannot be read is not answered.
pub fn answer_input<'a, F: FnOnce(&[u8]) -> &'a [u8]>(
    rt: HostRuntime,
    program: &str,
    buffer: &mut [u8],
    answer: F,
) -> io::Result<()>
    requires callable { F.IsAlwaysCallable answer }
{
    let mut stdin = rt.stdin();
    let Ok(n) = read_input(&mut stdin, buffer) else {
        return eprintln!(rt; "{program}: standard input cannot be read");
    };
    match rt.stdout().write_all(answer(&buffer[..n])) {
        Ok(()) => Ok(()),
        Err(_) => eprintln!(rt; "{program}: standard output cannot be written to"),
    }
}
