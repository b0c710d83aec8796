// Stores and sinks in memory and over the system: what they give and keep, and how they fail.
use super::named_files::{files_of, listed};
use outside::{
    CallList, Cut, CutList, FetchFault, FileStore, MemSink, MemStore, OutSink, Sink, Store,
    SureSink, SureStore,
};
use std::io::Write;
use std::test::Fail;
use std::{fs, io};

const TEXTS: [(&str, &str); 2] = [("cart", "ABC"), ("script", "")];

/// What a store answers, as text.
fn told(answer: &Result<Vec<u8>, FetchFault>) -> &str {
    match answer {
        Ok(bytes) if bytes.as_slice() == b"ABC".as_slice() => "ABC",
        Ok(bytes) if bytes.is_empty() => "nothing",
        Ok(_) => "other bytes",
        Err(FetchFault::Failed) => "failed",
        Err(FetchFault::TooLong) => "too long",
        Err(FetchFault::Memory) => "memory",
    }
}

#[test]
fn refuses_two_files_of_one_name(rt: HostRuntime) -> Result<(), Fail> {
    let files = listed(rt.alloc(), &[("cart", ""), ("cart", "")])?;
    assert!(rt; files.is_none());
    Ok(())
}

#[test]
fn gives_files_from_memory(rt: HostRuntime) -> Result<(), Fail> {
    let mut failing = Vec::new(rt.alloc());
    failing.push(5)?;
    let mut store = MemStore::new(files_of(rt.alloc(), &TEXTS)?, CallList::from_vec(failing));
    let mut sure = SureStore::new(files_of(rt.alloc(), &TEXTS)?);
    let rows = [
        ("cart", 3, "ABC", "ABC"),
        ("cart", 2, "too long", "too long"),
        ("script", 0, "nothing", "nothing"),
        ("cert", 9, "failed", "nothing"),
        ("cart", 3, "failed", "ABC"),
    ];
    for (name, limit, kept, given) in rows {
        assert!(rt;
            told(&store.fetch(rt.alloc(), name, limit)) == kept,
            "{name} {limit}"
        );
        assert!(rt;
            told(&sure.fetch(rt.alloc(), name, limit)) == given,
            "{name} {limit}"
        );
    }
    Ok(())
}

/// Over a real file, which is longer than one read.
#[test]
fn reads_files_of_the_system(rt: HostRuntime) -> Result<(), Fail> {
    let bytes = [0x2B; 5000];
    fs::write(&rt, "cart", bytes.as_slice())?;
    let mut store = FileStore::new(&rt);
    let whole = store.fetch(rt.alloc(), "cart", 5000);
    let cut = store.fetch(rt.alloc(), "cart", 4999);
    let missing = store.fetch(rt.alloc(), "cert", 5000);
    fs::remove_file(&rt, "cart")?;
    assert!(rt; matches!(&whole, Ok(read) if read.as_slice() == bytes.as_slice()));
    assert!(rt; told(&cut) == "too long");
    assert!(rt; told(&missing) == "failed");
    Ok(())
}

// the pieces of calls, and whether they are taken
const PIECES: [(&str, bool); 7] = [
    ("AB", true),
    ("C", false),
    ("DEF", false),
    ("G", false),
    ("", true),
    ("HIJKL", false),
    ("M", false),
];

/// The second call takes nothing, the third two bytes and the fourth a whole piece, which is shorter than its cut. The room ends in the
/// sixth, and no byte of it is there for the seventh.
#[test]
fn keeps_lines_in_memory(rt: HostRuntime) -> Result<(), Fail> {
    let mut cuts = Vec::new(rt.alloc());
    for (call, sent) in [(2, 0), (3, 2), (4, 9), (7, 3)] {
        cuts.push(Cut { call, sent })?;
    }
    let mut sink = MemSink::new(rt.alloc(), 8, CutList::from_vec(cuts))?;
    let mut sure = SureSink::new(rt.alloc(), 4)?;
    for (piece, taken) in PIECES {
        assert!(rt; sink.put(piece.as_bytes()).is_ok() == taken);
        assert!(rt; sure.put(piece.as_bytes()).is_ok());
    }
    assert!(rt; sink.bytes() == b"ABDEGHIJ".as_slice());
    assert!(rt; sure.bytes() == b"ABC".as_slice());
    Ok(())
}

/// Keeps what it takes: three bytes a call, as far as it has room, and then nothing.
#[derive(Drop)]
struct Narrow {
    kept: Vec<u8>,
    room: usize,
}

impl Write for Narrow {
    fn write(&mut self, buf: &[u8]) -> io::Result<usize> {
        let left = self.room.saturating_sub(self.kept.len());
        self.kept.write(&buf[..buf.len().min(3).min(left)])
    }

    fn flush(&mut self) -> io::Result<()> {
        Ok(())
    }
}

#[test]
fn writes_a_piece_in_several_calls(rt: HostRuntime) -> Result<(), Fail> {
    let mut narrow = Narrow {
        kept: Vec::new(rt.alloc()),
        room: 12,
    };
    let mut sink = OutSink::new(&mut narrow);
    for (piece, taken) in [("stop done\n", true), ("", true), ("total", false)] {
        assert!(rt; sink.put(piece.as_bytes()).is_ok() == taken);
    }
    assert!(rt; narrow.kept.as_slice() == b"stop done\nto".as_slice());
    Ok(())
}
