// The input as it comes: what a read brings is listed at once, as far as it is whole blocks, and its text goes out in one piece.
ghost use Rattle.std.specs.Prelude.{◌≡◌, ◌+◌, ◌/◌, ◌%◌, ◌^◌, ◌<◌, ◌≤◌, length};
ghost use Rattle.std.specs.IoError.{error_kind};
ghost use Rattle.listing.specs.Puts.{PutsSome};
ghost use Rattle.lister.specs.Arrived.{until, arrived};
ghost use Rattle.lister.specs.Counts.{CountsBlocks};
ghost use Rattle.lister.specs.Endings.{IsEnding, GoesOn, CutBy};
ghost use Rattle.lister.specs.Runs.{blocks, ListsBlocks};

use crate::reading::read_at;
use crate::report::Counts;
use crate::runs::{Run, put_blocks};
use std::io;
use std::io::ErrorKind;
use std::ops::ControlFlow;

// The bytes of 16 blocks. They are filled round and round: byte number n of the input goes to place n % PIECE, so no byte is moved.
// The buffers are arrays, since the program asks for no memory.
const PIECE: usize = 16 * 512;

// Room for their text: each has at most 496 lines of up to 96 bytes.
const TEXT: usize = 16 * 496 * 96;

// How the listing ends: the input has ended, and all its blocks are listed; a read or a write failed, which is told on standard error; nobody reads the
// listing any more; or more bytes came than an input has. The bytes are for the contract alone.
#[derive(Clone, Copy)]
pub(crate) enum Ending {
    Complete { bytes: u64, blocks: u64 },
    Failed,
    Unread,
    TooLong { bytes: u64 },
}

// Where the listing goes on: how many bytes have come, and how many blocks are listed, all that are whole. The blocks are for the contract alone.
#[derive(Clone, Copy)]
struct SoFar {
    bytes: u64,
    blocks: u64,
}

// Lists all blocks of the input. A proved loop has to end, and nothing says that an input does: it ends after 2^60 bytes, which no run has.
pub(crate) fn list_all(rt: HostRuntime, counts: &mut Counts) -> Ending
    ensures { IsEnding result }
{
    let mut piece = [0u8; PIECE];
    let mut text = [0u8; TEXT];
    let mut total = 0;
    while total < 1 << 60 {
        match list_piece(rt, &mut piece, &mut text, total, counts) {
            ControlFlow::Continue(so_far) => total = so_far.bytes,
            ControlFlow::Break(ending) => return ending,
        }
    }
    Ending::TooLong { bytes: total }
}

// One read behind the `total` bytes that came before, and what it makes whole goes out. A piece of a block waits for its rest, until none comes. It goes
// on with what came and is listed now, or ends. The buffers are lent as slices: tried as arrays, what is cut from one leaves goals open, under the checker's
// own names. They are no struct: beside what is lent to write it can't hold that the lengths are these.
fn list_piece(
    rt: HostRuntime,
    piece: &mut [u8],
    text: &mut [u8],
    total: u64,
    counts: &mut Counts,
) -> ControlFlow<Ending, SoFar>
    requires { (length piece.old ≡ 8192) × (length text.old ≡ 761856) × (total < 2 ^ 60) }
    ensures { GoesOn total result }
{
    let came = read_at(rt, piece, (total % PIECE as u64) as usize);
    let run = put_arrived(text, piece, total, came.unwrap_or(0), counts);
    if let Err(error) = rt.write_all(&text[..run.length]) {
        return ControlFlow::Break(cut_by(rt, error));
    }
    match came {
        None => ControlFlow::Break(Ending::Failed),
        Some(0) => ControlFlow::Break(Ending::Complete {
            bytes: total,
            blocks: run.place,
        }),
        Some(count) => ControlFlow::Continue(SoFar {
            bytes: total + count as u64,
            blocks: run.place,
        }),
    }
}

// How the listing ends where its text can't be written. It is told on standard error, but not where the reader of a pipe went away.
fn cut_by(rt: HostRuntime, error: io::Error) -> Ending
    ensures { CutBy (error_kind error) result }
{
    if error.kind() == ErrorKind::BrokenPipe {
        return Ending::Unread;
    }
    let _ = eprintln!(rt; "lister: standard output: {error}");
    Ending::Failed
}

// The text of the blocks that are whole now that `got` bytes came behind the `total` before, or of all that is left where none came.
fn put_arrived(text: &mut [u8], piece: &[u8], total: u64, got: usize, counts: &mut Counts) -> Run
    requires { (length piece.now ≡ 8192) × (length text.old ≡ 761856) × (total < 2 ^ 60) × (total % 8192 + got ≤ 8192) }
    ensures { PutsSome (ListsBlocks (arrived total got piece.now) (total / 512)) text.old 0 text.new result.length × CountsBlocks (arrived total got piece.now) counts.old.by_number counts.new.by_number × (got ≡ 0 → result.place ≡ blocks total) × (0 < got → result.place ≡ (total + got) / 512) }
{
    let have = (total % PIECE as u64) as usize;
    let start = have - have % 512;
    let end = whole_until(have + got, got);
    put_blocks(text, &piece[start..end], total / 512, counts)
}

// Where the whole blocks end; where no byte came, the input has ended, and a piece of a block gets no rest.
fn whole_until(end: usize, got: usize) -> usize
    ensures { result ≡ until end got }
{
    if got == 0 {
        return end;
    }
    end - end % 512
}
