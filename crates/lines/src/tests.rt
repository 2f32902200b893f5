use super::{Entry, Line, LineFault, entry_of, write_line};
use station::{Answer, Call, Reading, Reason, Refusal, Started};
use std::process::Abort;
use std::test::Fail;

/// The line is `text`, and the rest of the buffer is left alone.
fn reads(rt: &impl Abort, index: u32, entry: Entry, text: &[u8]) -> Result<(), Fail> {
    let mut buffer = [7u8; 40];
    let size = usize::from(write_line(Line { index, entry }, &mut buffer)?);
    assert_eq!(rt; &buffer[..size], text);
    for byte in &buffer[size..] {
        assert_eq!(rt; *byte, 7);
    }
    Ok(())
}

#[test]
fn done(rt: HostRuntime) -> Result<(), Fail> {
    reads(&rt, 0, Entry::Open(Ok(())), b"0 open ok\n")?;
    reads(&rt, 1, Entry::Join(Ok(())), b"1 join ok\n")?;
    reads(&rt, 9, Entry::Leave(Ok(())), b"9 leave ok\n")?;
    reads(&rt, 10, Entry::Finish(Ok(())), b"10 finish ok\n")?;
    reads(&rt, 99, Entry::Write(Ok(())), b"99 write ok\n")?;
    reads(&rt, 100, Entry::Strike(Ok(())), b"100 strike ok\n")
}

#[test]
fn answered(rt: HostRuntime) -> Result<(), Fail> {
    reads(&rt, 2, Entry::Earlier(Ok(true)), b"2 earlier yes\n")?;
    reads(&rt, 3, Entry::Newer(Ok(false)), b"3 newer no\n")?;
    reads(&rt, 4, Entry::Label(Ok(u32::MAX)), b"4 label 4294967295\n")?;
    let reading = Reading { seat: 3, map: 7 };
    reads(&rt, 5, Entry::Read(Ok(reading)), b"5 read 3 7\n")
}

#[test]
fn started(rt: HostRuntime) -> Result<(), Fail> {
    let seat = 2;
    let none = Started { seat, map: None };
    reads(&rt, 6, Entry::Start(Ok(none)), b"6 start 2 map none\n")?;
    let seat = 255;
    let map = Some(65_535);
    let longest = b"4294967295 start 255 map 65535\n";
    assert_eq!(rt; longest.len(), 31);
    reads(
        &rt,
        u32::MAX,
        Entry::Start(Ok(Started { seat, map })),
        longest,
    )
}

#[test]
fn refused(rt: HostRuntime) -> Result<(), Fail> {
    reads(&rt, 7, Entry::Earlier(Err(0)), b"7 earlier refused 0\n")?;
    reads(&rt, 8, Entry::Start(Err(255)), b"8 start refused 255\n")?;
    reads(&rt, 0, Entry::Fault(16), b"0 fault 16\n")
}

#[test]
fn replies(rt: HostRuntime) -> Result<(), Fail> {
    let call = Call::Read;
    let reason = Reason::NothingStands;
    let refusal = Refusal { reason, seat: 0 };
    reads(&rt, 1, entry_of(call, Err(refusal)), b"1 read refused 12\n")?;
    let answer = Answer::Reading(Reading { seat: 3, map: 7 });
    reads(&rt, 2, entry_of(call, Ok(answer)), b"2 read 3 7\n")?;
    reads(
        &rt,
        3,
        entry_of(call, Ok(Answer::Done)),
        b"3 read refused 0\n",
    )
}

#[test]
fn buffers(rt: HostRuntime) -> Result<(), Fail> {
    let line = Line {
        index: 0,
        entry: Entry::Fault(16),
    };
    let mut short = [7u8; 31];
    let Err(fault) = write_line(line, &mut short) else {
        return Err(Fail::new("31 bytes are too few"));
    };
    assert_eq!(rt; fault, LineFault::ShortBuffer);
    assert_eq!(rt; fault.number(), 19);
    for byte in &short {
        assert_eq!(rt; *byte, 7);
    }
    let mut enough = [7u8; 32];
    assert_eq!(rt; write_line(line, &mut enough)?, 11);
    Ok(())
}
