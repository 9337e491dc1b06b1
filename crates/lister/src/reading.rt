// One read of standard input into the rest of a lent buffer.
ghost use Rattle.std.specs.Prelude.{◌+◌, ◌<◌, ◌≤◌, length, IfSome};
ghost use Rattle.lister.specs.Told.{Tells};

use std::io;
use std::io::Read;

// One read behind the first `at` bytes: how many bytes came, none where the input ends, or nothing where the read failed.
pub(crate) fn read_at(rt: HostRuntime, buf: &mut [u8], at: usize) -> Option<usize>
    requires { at < length buf.old }
    ensures { IfSome result (λ count. at + count ≤ length buf.new) }
{
    let mut input = rt.stdin();
    let answer = input.read(&mut buf[at..]);
    told_by(rt, answer, &buf[at..])
}

// What a read's answer tells of the bytes that it could fill. A failure is told on standard error.
fn told_by(rt: HostRuntime, answer: io::Result<usize>, room: &[u8]) -> Option<usize>
    ensures { Tells answer (length room.now) result }
{
    match answer {
        Ok(count) => Some(count.min(room.len())),
        Err(error) => {
            let _ = eprintln!(rt; "lister: standard input: {error}");
            None
        }
    }
}
