//! The slow heap, on commands and on entries of a history.
use super::*;
use graph_heap::Reference;
use std::test::Fail;
use trace::{EntryLine, Line, Version, read_entry, read_line, write_reply};

/// The slow heap replies to the same commands as the heap does.
#[test]
fn a_slow_heap_replies_alike(rt: HostRuntime) -> Result<(), Fail> {
    let limits = config_of(&rt, &TWO_IDENTITIES).limits();
    let mut reference = Reference::new(rt.alloc(), &limits)?;
    let mut text = [0u8; 256];
    let mut replies = REPLIES.lines();
    for line in COMMANDS.lines() {
        let Some(Line::Command { mutator, command }) = read_line(Version::First, line.as_bytes())
        else {
            panic!(rt; "{line}");
        };
        let reply = reference.reply(mutator, &command)?;
        let end = write_reply(&reply, &mut text, 0);
        assert_eq!(rt;
            Some(&text[..end]),
            replies.next().map(|reply| reply.as_bytes())
        );
    }
    Ok(())
}

/// Entries of a history, the third of which isn't a step at first.
const ENTRIES: [(&str, bool); 5] = [
    ("0 new 0 plain 0 0 => made 1", true),
    ("0 new 1 plain 0 0 => refused 7", true),
    ("0 new 1 plain 0 0 => made 3", false),
    ("0 new 1 plain 0 0 => made 2", true),
    ("0 same 0 1 => is no", true),
];

/// An entry that isn't a step leaves the slow heap as it was.
#[test]
fn a_slow_heap_stays_where_an_entry_is_no_step(rt: HostRuntime) -> Result<(), Fail> {
    let limits = config_of(&rt, &FOUR_PAGES).limits();
    let mut reference = Reference::new(rt.alloc(), &limits)?;
    for (line, is_step) in ENTRIES {
        let Some(EntryLine::Entry(entry)) = read_entry(Version::First, line.as_bytes()) else {
            panic!(rt; "{line}");
        };
        assert_eq!(rt; reference.accepts(&entry)?, is_step);
    }
    Ok(())
}
