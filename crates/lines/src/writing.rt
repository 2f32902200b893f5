ghost use Rattle.std.specs.Prelude.{◌≡◌, ◌+◌, ◌≤◌, max, ◌++◌, length, codes};
ghost use Rattle.lines.specs.Drafts.{HasRoom, Puts};
ghost use Rattle.lines.specs.Lines.{name_of, result_of, or_refused, line_bytes};
ghost use Rattle.lines.specs.Written.{Written};

use super::answered::Answered;
use super::draft::{Draft, put_number};
use super::entry::{Entry, Line};
use super::line_fault::LineFault;

/// Writes a line at the front of the buffer, and answers its length. A buffer of fewer than 32 bytes is refused, however
/// short the line, so that a caller need not know a line's length beforehand.
pub fn write_line(line: Line, buffer: &mut [u8]) -> Result<u8, LineFault>
    ensures written { Written line buffer.old buffer.new result }
    ensures short { length (line_bytes line) ≤ 31 }
{
    // No `Display`: a `write!` promises its text only where it succeeds, and that it does cannot be shown here.
    // Drafted apart, so that no part of a line is ever seen in the buffer.
    let draft = drafted(line);
    if buffer.len() < 32 {
        return Err(LineFault::ShortBuffer);
    }
    let size = draft.len();
    buffer[..size].copy_from_slice(draft.as_bytes());
    Ok(size as u8)
}

fn drafted(line: Line) -> Draft
    ensures bytes { result.bytes ≡ line_bytes line }
    ensures short { length (line_bytes line) ≤ 31 }
{
    let mut draft = Draft::new();
    put_number(&mut draft, line.index);
    draft.push_str(" ");
    put_entry(&mut draft, line.entry);
    draft.push_str("\n");
    draft
}

fn put_entry(draft: &mut Draft, entry: Entry)
    requires { HasRoom draft.old 19 }
    ensures { Puts draft.old draft.new (name_of entry ++ (codes " " ++ result_of entry)) 19 }
{
    match entry {
        Entry::Open(reply) => put_reply(draft, "open", reply),
        Entry::Join(reply) => put_reply(draft, "join", reply),
        Entry::Leave(reply) => put_reply(draft, "leave", reply),
        Entry::Start(reply) => put_reply(draft, "start", reply),
        Entry::Finish(reply) => put_reply(draft, "finish", reply),
        Entry::Write(reply) => put_reply(draft, "write", reply),
        Entry::Strike(reply) => put_reply(draft, "strike", reply),
        Entry::Read(reply) => put_reply(draft, "read", reply),
        Entry::Earlier(reply) => put_reply(draft, "earlier", reply),
        Entry::Newer(reply) => put_reply(draft, "newer", reply),
        Entry::Label(reply) => put_reply(draft, "label", reply),
        Entry::Fault(fault) => {
            draft.push_str("fault ");
            put_number(draft, fault);
        }
    }
}

/// Puts a call's name, and what the call answered or its refusal's number.
fn put_reply<T: Answered>(draft: &mut Draft, name: &str, reply: Result<T, u8>)
    requires { HasRoom draft.old (length name.now + 1 + max 11 T.most) }
    ensures { Puts draft.old draft.new (name.now ++ (codes " " ++ or_refused T.text reply)) (length name.now + 1 + max 11 T.most) }
{
    draft.push_str(name);
    draft.push_str(" ");
    match reply {
        Ok(answer) => answer.put(draft),
        Err(refusal) => {
            draft.push_str("refused ");
            put_number(draft, refusal);
        }
    }
}
