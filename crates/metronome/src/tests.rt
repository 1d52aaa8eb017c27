//! Runs the program on texts in memory.
mod rows;

use graph_heap::NoMemory;
use program::Opener;
use program::run::run;
use rows::{Row, collecting, telling};
use std::alloc::AllocGlobal;
use std::io::{self, ErrorKind};
use std::process::Abort;
use std::sync::Wait;
use std::thread::Threads;
use trace::{MemorySink, MemorySource};

/// Texts as files, each with its name.
#[derive(Clone, Copy, Drop)]
struct Texts<'a> {
    files: &'a [(&'a str, &'a str)],
}

impl<'a> Opener for Texts<'a> {
    type File = MemorySource<'a>;

    ghost use Rattle.program.specs.Files.{unknown_file};

    ghost known = { λ _ _. unknown_file };

    fn open(&self, name: &str) -> io::Result<MemorySource<'a>> {
        for (known, text) in self.files {
            if *known == name {
                return Ok(MemorySource::new(text.as_bytes()));
            }
        }
        Err(io::Error::from(ErrorKind::NotFound))
    }
}

/// Runs a row on its texts, and compares its status and what it writes.
fn run_row<R>(rt: &R, row: &Row) -> Result<(), NoMemory>
where
    R: Threads + Wait + Sync + Abort + AllocGlobal,
{
    let opener = Texts {
        files: &[("config", row.config), ("text", row.text)],
    };
    let mut sink = MemorySink::new(rt.alloc());
    let mut errors = Vec::new(rt.alloc());
    let input = row.text.as_bytes();
    let status = run(
        rt,
        rt.alloc(),
        row.words,
        &opener,
        input,
        &mut sink,
        &mut errors,
    );
    assert_eq!(rt; status, row.status);
    assert!(rt; sink.bytes() == row.output.as_bytes());
    assert!(rt; errors.as_slice() == row.errors.as_bytes());
    Ok(())
}

#[test]
fn rows_are_as_worked_by_hand(rt: HostRuntime) -> Result<(), NoMemory> {
    for row in collecting::ROWS {
        run_row(&rt, row)?;
    }
    for row in telling::ROWS {
        run_row(&rt, row)?;
    }
    Ok(())
}
