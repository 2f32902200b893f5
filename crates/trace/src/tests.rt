use super::*;
use station::Call;
use std::process::Abort;
use std::test::Fail;

fn reads(rt: &impl Abort, word: u32, call: Call) -> Result<(), Fail> {
    assert_eq!(rt; read_word(word)?, call);
    Ok(())
}

#[test]
fn words_of_calls(rt: HostRuntime) -> Result<(), Fail> {
    reads(&rt, 0x1030_0000, Call::Open(3))?;
    reads(&rt, 0x2020_0000, Call::Join(2))?;
    reads(&rt, 0x9010_2000, Call::Earlier(1, 2))?;
    reads(&rt, 0x6030_0007, Call::Write(3, 7))?;
    reads(&rt, 0x4000_0000, Call::Start)?;
    reads(&rt, 0xB030_0000, Call::Label(3))?;
    reads(&rt, 0x8000_0000, Call::Read)
}

#[test]
fn every_kind_goes_there_and_back(rt: HostRuntime) -> Result<(), Fail> {
    for call in [
        Call::Open(0),
        Call::Join(21),
        Call::Leave(255),
        Call::Start,
        Call::Finish(1),
        Call::Write(20, 65_535),
        Call::Strike(9),
        Call::Read,
        Call::Earlier(255, 0),
        Call::Newer(0, 255),
        Call::Label(16),
    ] {
        reads(&rt, write_word(call)?, call)?;
    }
    Ok(())
}

#[test]
fn words_of_no_call(rt: HostRuntime) {
    for word in [
        // kinds that are no call
        0x0000_0000u32,
        0xC010_0000,
        0xF000_0001,
    ] {
        assert_eq!(rt; read_word(word).err(), Some(WordFault::NotACall));
    }
    assert_eq!(rt; WordFault::NotACall.number(), 18);
}

/// A word of each kind, and its spare bits.
const SPARE: [(u32, u32); 11] = [
    (0x1000_0000, 0x000f_ffff),
    (0x2000_0000, 0x000f_ffff),
    (0x3000_0000, 0x000f_ffff),
    (0x4000_0000, 0x0fff_ffff),
    (0x5000_0000, 0x000f_ffff),
    (0x6000_0000, 0x000f_0000),
    (0x7000_0000, 0x000f_ffff),
    (0x8000_0000, 0x0fff_ffff),
    (0x9000_0000, 0x0000_0fff),
    (0xa000_0000, 0x0000_0fff),
    (0xb000_0000, 0x000f_ffff),
];

#[test]
fn every_spare_bit(rt: HostRuntime) {
    for (word, spare) in SPARE {
        for bit in 0..28_u32 {
            let set = 1_u32 << bit;
            assert_eq!(rt; read_word(word | set).is_err(), spare & set != 0);
        }
    }
}

#[test]
fn a_map_number_without_room(rt: HostRuntime) {
    assert_eq!(rt;
        write_word(Call::Write(3, 65_536)).err(),
        Some(WordFault::MapTooLarge)
    );
    assert_eq!(rt; WordFault::MapTooLarge.number(), 5);
}

#[test]
fn heads(rt: HostRuntime) -> Result<(), Fail> {
    for pile in 1u8..5 {
        let read = read_head(0xF000_0000 + u32::from(pile))?;
        assert_eq!(rt; read.number(), pile);
    }
    for word in [
        0xF000_0000u32,
        0xF000_0005,
        0xF000_0011,
        0xF800_0001,
        0xE000_0001,
        0x1030_0000,
    ] {
        assert_eq!(rt; read_head(word).err(), Some(WordFault::NotAHead));
    }
    assert_eq!(rt; WordFault::NotAHead.number(), 17);
    Ok(())
}

#[test]
fn words_from_bytes(rt: HostRuntime) -> Result<(), Fail> {
    let bytes: [u8; 6] = [0x90, 0x10, 0x20, 0x01, 0xF0, 0x00];
    let (word, rest) = next_word(&bytes).ok_or("no word")?;
    assert_eq!(rt; word, 0x9010_2001);
    assert_eq!(rt; rest.len(), 2);
    assert!(rt; next_word(rest).is_none());
    Ok(())
}
