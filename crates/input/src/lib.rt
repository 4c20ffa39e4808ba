// What a program reads from a stream, into lent bytes: once, or until they are full. A read that fails is the end of what comes.
#![tactic(auto)]

ghost use Rattle.std.specs.Prelude.{◌+◌, ◌≤◌, length};

use std::io::Read;

// Reads once, behind the first `kept` bytes: how many came. None at the end, and none where it fails.
pub fn read_behind<R: Read>(reader: &mut R, input: &mut [u8], kept: usize) -> usize
    requires { kept ≤ length input.old }
    ensures { kept + result ≤ length input.old }
{
    match reader.read(&mut input[kept..]) {
        Ok(got) => got,
        Err(_) => 0,
    }
}

// Reads until the input is full, or no more comes: how many bytes came.
pub fn read_full<R: Read>(reader: &mut R, input: &mut [u8]) -> usize
    ensures { result ≤ length input.old }
{
    let mut done = 0;
    // How far a read gets is the reader's to say: there is nothing to iterate over.
    while done < input.len() {
        let got = read_behind(reader, input, done);
        if got == 0 {
            break;
        }
        done += got;
    }
    done
}
