// Replays a session: reads records from standard input to its end, in whatever pieces they come, and prints the lines that they give.
#![tactic(auto)]

ghost use Rattle.std.specs.Prelude.{◌≤◌, length};
ghost use Rattle.session.specs.Session as S;

use numbers::Answer;
use session::Progress;
use std::io::{Read, Write};

// The number, a space, the count. A line that cannot be written is passed over.
fn show<W: Write>(out: &mut W, line: Option<Answer>) {
    if let Some(answer) = line {
        let _ = writeln!(out, "{} {}", answer.number, answer.count);
    }
}

// A piece of the input, line by line.
fn pass<W: Write>(
    out: &mut W,
    progress: Progress,
    store: &mut [u8],
    room: &mut [u8],
    piece: &[u8],
) -> Progress
    requires { S.Lent progress (length store.old) (length room.old) }
    ensures { S.Due result.phase result.at }
{
    let mut q = progress;
    let mut at = 0;
    // No range: a line ends the bytes that are taken at once.
    while at < piece.len() {
        let part = session::take_piece(q, store, room, &piece[at..]);
        show(out, part.line);
        q = part.progress;
        at += part.used;
    }
    q
}

// The whole input. A proved loop has to end, and nothing says that an input does: the turns are counted up to a number that no run comes to.
fn pass_all<R: Read, W: Write>(
    input: &mut R,
    out: &mut W,
    store: &mut [u8],
    room: &mut [u8],
    buf: &mut [u8],
) -> Progress
    requires { (S.max_store ≤ length store.old) × (S.max_message ≤ length room.old) }
{
    let mut q = session::start();
    for _ in 0..u64::MAX {
        let n = input.read(buf).unwrap_or(0);
        if n == 0 {
            return q;
        }
        q = pass(out, q, store, room, &buf[..n]);
    }
    q
}

fn main(rt: HostRuntime) {
    // Arrays and no Vec: a session begins without asking for memory.
    let mut s = session::new_store();
    let mut room = [0u8; session::MAX_MESSAGE];
    let mut buf = [0u8; 65536];
    let mut input = rt.stdin();
    let mut out = rt.stdout();
    let last = pass_all(&mut input, &mut out, &mut s, &mut room, &mut buf);
    show(&mut out, session::end(last));
    let _ = out.write_all(b"end\n");
}
