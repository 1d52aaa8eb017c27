//! A tick that is refused memory and goes on; writes of replies that fail; replies that wait; texts of faults, for
//! which the program has its own; and a write of no bytes.
use super::*;
use graph_heap::NoMemory;
use std::alloc::AllocGlobal;
use std::test::Fail;
use trace::{
    BufferedSink, FailAt, LineFault, MemorySink, MemorySource, PlayFault, Player, ReadFailed, Sink,
    Style, TickFault, WriteFailed, WriteSink, play, play_first,
};

/// Quanta of 260 units.
const SLOW: Settings = Settings {
    rate: 26,
    ..FOUR_PAGES
};

/// Returns a new player.
fn player(rt: &(impl Abort + AllocGlobal)) -> Result<Player, NoMemory> {
    Player::new(rt.alloc(), &config_of(rt, &SLOW))
}

/// Returns the units of the last cycle.
fn units(player: &Player) -> u64 {
    player.recorded().heap().units()
}

#[test]
fn ticks_end_where_memory_is_refused(rt: HostRuntime) -> Result<(), Fail> {
    let trace =
        "0 new 0 plain 0 0\n0 new 1 plain 0 1\n0 new 2 plain 0 2\n0 new 3 plain 0 3\nbegin\n";
    let mut player = player(&rt)?;
    let mut source = MemorySource::new(trace.as_bytes());
    let mut sink = MemorySink::new(rt.alloc());
    play(&mut source, &mut sink, &mut player, Style::Nothing)?;
    let ended = player.tick(200, &mut ());
    let placed = player.schedule().intervals().len() as u64;
    let now = player.schedule().now();
    match ended {
        Ok(()) => assert!(rt; placed == 7 && now == 200 && units(&player) == 1574),
        // The quanta before are done and placed, and the clock hasn't moved.
        Err(fault) => {
            assert!(rt; fault == TickFault::NoMemory && placed < 7);
            assert!(rt; now == 0 && units(&player) == placed.saturating_mul(260));
        }
    }
    Ok(())
}

/// How many lines there are of commands, and of replies.
const LINES: usize = 18;

/// Returns how many lines end in these bytes.
fn line_ends(bytes: &[u8]) -> usize {
    bytes.iter().filter(|byte| **byte == b'\n').count()
}

/// The write of each reply fails in turn, and the last time none: the replies before it are written, and the commands up to its
/// own are done.
#[test]
fn a_failed_write_ends_a_play_with_its_command(rt: HostRuntime) -> Result<(), Fail> {
    for call in 1..LINES + 2 {
        let mut player = Player::new(rt.alloc(), &config_of(&rt, &TWO_IDENTITIES))?;
        let mut source = MemorySource::new(COMMANDS.as_bytes());
        let mut sink = FailAt::new(MemorySink::new(rt.alloc()), call as u64);
        let found = play(&mut source, &mut sink, &mut player, Style::Replies);
        let written = sink.get_ref().bytes();
        assert_eq!(rt; found.is_ok(), call > LINES);
        assert_eq!(rt; player.recorded().history().len(), call.min(LINES));
        assert_eq!(rt; line_ends(written), call.saturating_sub(1));
        assert!(rt; REPLIES.as_bytes().starts_with(written));
    }
    Ok(())
}

/// Each read fails in turn, and the last time none: the lines that were read before it are done, and their replies written.
#[test]
fn a_failed_read_ends_a_play_after_its_lines(rt: HostRuntime) -> Result<(), Fail> {
    // The first read gives all lines, and the second none.
    for (call, ended, lines) in [
        (1u64, Err(PlayFault::Read), 0),
        (2, Err(PlayFault::Read), LINES),
        (3, Ok(()), LINES),
    ] {
        let mut player = Player::new(rt.alloc(), &config_of(&rt, &TWO_IDENTITIES))?;
        let mut source = FailAt::new(MemorySource::new(COMMANDS.as_bytes()), call);
        let mut sink = MemorySink::new(rt.alloc());
        let found = play(&mut source, &mut sink, &mut player, Style::Replies);
        assert_eq!(rt; found, ended);
        assert_eq!(rt; player.recorded().history().len(), lines);
        assert_eq!(rt; line_ends(sink.bytes()), lines);
    }
    Ok(())
}

/// Replies wait in a buffered sink until it is flushed. If a write of them fails, they wait on.
#[test]
fn replies_wait_in_a_buffered_sink(rt: HostRuntime) -> Result<(), Fail> {
    for (call, first) in [(1u64, Err(WriteFailed)), (2, Ok(()))] {
        let mut player = player(&rt)?;
        let mut source = MemorySource::new(
            "0 new 0 plain 0 1\n0 put 0 0 7\n0 get 0 0\n".as_bytes(),
        );
        let mut sink = BufferedSink::new(FailAt::new(MemorySink::new(rt.alloc()), call));
        let found = play_first(2, &mut source, &mut sink, &mut player, Style::Replies);
        assert_eq!(rt; found, Ok(()));
        assert!(rt; sink.get_ref().get_ref().bytes().is_empty());
        assert_eq!(rt; sink.flush(), first);
        assert_eq!(rt; sink.flush(), Ok(()));
        assert_eq!(rt;
            sink.get_ref().get_ref().bytes(),
            "made 1\ndone\n".as_bytes()
        );
    }
    Ok(())
}

#[test]
fn faults_have_texts(rt: HostRuntime) -> Result<(), Fail> {
    let faults = [
        (
            PlayFault::Line(2, LineFault::NotEnded),
            "line 2: line not ended",
        ),
        (
            PlayFault::Line(18446744073709551615, LineFault::NotEnded),
            "line 18446744073709551615: line not ended",
        ),
        (PlayFault::Read, "cannot read"),
        (PlayFault::Write, "cannot write"),
        (PlayFault::NoMemory, "no memory"),
    ];
    for (fault, text) in faults {
        assert_eq!(rt; format!(in rt.alloc(); "{fault}")?.as_str(), text);
    }
    let ticks = TickFault::ClockSpent;
    let spent = format!(in rt.alloc(); "{ticks}")?;
    assert_eq!(rt; spent.as_str(), "clock spent");
    let read = format!(in rt.alloc(); "{ReadFailed}")?;
    assert_eq!(rt; read.as_str(), "cannot read");
    let write = format!(in rt.alloc(); "{WriteFailed}")?;
    assert_eq!(rt; write.as_str(), "cannot write");
    Ok(())
}

#[test]
fn a_write_of_no_bytes_is_no_failure(rt: HostRuntime) {
    let mut sink = WriteSink::new(Vec::new(rt.alloc()));
    assert_eq!(rt; sink.write(b""), Ok(0));
}

/// Each byte of two lines becomes each other byte: all lines are done, or one is refused.
#[test]
fn each_byte_becomes_each_other(rt: HostRuntime) -> Result<(), Fail> {
    let trace = "0 new 0 plain 0 0\n0 describe 0\n";
    for place in 0..trace.len() {
        for value in 0u8..=255 {
            let mut bytes = Vec::new(rt.alloc());
            bytes.extend_from_slice(trace.as_bytes())?;
            bytes.as_mut_slice()[place] = value;
            let mut player = player(&rt)?;
            let mut source = MemorySource::new(bytes.as_slice());
            let mut sink = MemorySink::new(rt.alloc());
            let found = play(&mut source, &mut sink, &mut player, Style::Replies);
            assert!(rt; matches!(found, Ok(()) | Err(PlayFault::Line(..))));
        }
    }
    Ok(())
}
