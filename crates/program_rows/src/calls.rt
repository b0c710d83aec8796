// What the rows have in common: files, and calls over stores and sinks in memory.
use channel_f::console;
use f8_machine::Rack;
use outside::{CallList, Cut, CutList, FileList, MemSink, MemStore, NamedFile, Sink, Store};
use romc_table::Counters;
use std::alloc::Global;
use std::process::Abort;
use std::test::Fail;

/// LIS 1, NOP, and a branch back to the NOP.
pub(crate) const LOOP_CART: &str =
    "format = 1\n[[chip]]\nkind = '3851'\nbase = 0\nports = 4\nrom = '712B90FE'\n";

pub(crate) const LOOP_SCRIPT: &str = "steps 3\n";

pub(crate) const LOOP_PLAY: &str = "verdict whole\n\
     stop done\n\
     regs P=0001 P1=0000 D0=0000 D1=0000 A=01 IS=00 W=00\n\
     s00 00 00 00 00 00 00 00 00 00 00 00 00 00 00 00 00\n\
     s10 00 00 00 00 00 00 00 00 00 00 00 00 00 00 00 00\n\
     s20 00 00 00 00 00 00 00 00 00 00 00 00 00 00 00 00\n\
     s30 00 00 00 00 00 00 00 00 00 00 00 00 00 00 00 00\n\
     total 3 instructions 36 phi\n";

/// A file: its name and its text.
pub(crate) type File<'a> = (&'a str, &'a str);

/// What is written: all of it, or how it begins and ends.
#[derive(Clone, Copy)]
pub(crate) enum Text<'a> {
    All(&'a str),
    Between(&'a str, &'a str),
}

/// What a chip has: its PC0, PC1 and DC0, and the DC1 of a 3853; or the latch of a port.
#[derive(Clone, Copy)]
pub(crate) enum Has {
    Counters(u16, u16, u16, Option<u16>),
    Latch(u8, u8),
}

/// What the chip of a socket has after a call.
pub(crate) type Left = (usize, Has);

/// A call of the program, and what comes of it. The store has the row's files, those that the rows of its table have in common, and no others.
#[derive(Clone, Copy)]
pub(crate) struct Row<'a> {
    pub(crate) files: &'a [File<'a>],
    pub(crate) words: &'a [&'a str],

    /// The fetch that fails.
    pub(crate) fetch: Option<u64>,

    /// The put that fails, and after how many bytes.
    pub(crate) put: Option<(u64, u32)>,

    /// The room of the sink.
    pub(crate) room: u32,
    pub(crate) status: u8,
    pub(crate) text: Text<'a>,
    pub(crate) left: &'a [Left],
}

/// A call in which no call of the store and the sink fails.
pub(crate) const SERVED: Row = Row {
    files: &[],
    words: &[],
    fetch: None,
    put: None,
    room: 100_000,
    status: 0,
    text: Text::All(""),
    left: &[],
};

/// What is written before the scratchpad, the scratchpad without a byte, and what is written behind it.
macro_rules! ended {
    ($head:literal, $total:literal) => {
        concat!(
            $head,
            "s00 00 00 00 00 00 00 00 00 00 00 00 00 00 00 00 00\n",
            "s10 00 00 00 00 00 00 00 00 00 00 00 00 00 00 00 00\n",
            "s20 00 00 00 00 00 00 00 00 00 00 00 00 00 00 00 00\n",
            "s30 00 00 00 00 00 00 00 00 00 00 00 00 00 00 00 00\n",
            $total
        )
    };
}

pub(crate) use ended;

fn file_of(alloc: Global, file: &File) -> Result<NamedFile, Fail> {
    let (name, text) = *file;
    let name = name.to_string(alloc)?;
    let bytes = Vec::from_slice(alloc, text.as_bytes())?;
    Ok(NamedFile::new(name, bytes))
}

fn add_files(alloc: Global, list: &mut Vec<NamedFile>, files: &[File]) -> Result<(), Fail> {
    for file in files {
        list.push(file_of(alloc, file)?)?;
    }
    Ok(())
}

/// These files, and those that rows have in common.
pub(crate) fn files_of(alloc: Global, files: &[File], common: &[File]) -> Result<FileList, Fail> {
    let mut list = Vec::new(alloc);
    add_files(alloc, &mut list, files)?;
    add_files(alloc, &mut list, common)?;
    match FileList::from_vec(list) {
        Some(list) => Ok(list),
        None => Err("two files have one name".into()),
    }
}

fn store_of(alloc: Global, row: &Row, common: &[File]) -> Result<MemStore, Fail> {
    let mut calls = Vec::new(alloc);
    if let Some(call) = row.fetch {
        calls.push(call)?;
    }
    let files = files_of(alloc, row.files, common)?;
    Ok(MemStore::new(files, CallList::from_vec(calls)))
}

fn sink_of(alloc: Global, row: &Row) -> Result<MemSink, Fail> {
    let mut cuts = Vec::new(alloc);
    if let Some((call, sent)) = row.put {
        cuts.push(Cut { call, sent })?;
    }
    Ok(MemSink::new(alloc, row.room, CutList::from_vec(cuts))?)
}

fn words_of(alloc: Global, texts: &[&str]) -> Result<Vec<String>, Fail> {
    let mut words = Vec::new(alloc);
    for text in texts {
        words.push(text.to_string(alloc)?)?;
    }
    Ok(words)
}

/// The status of the program.
pub(crate) fn status_of<S: Store, K: Sink>(
    alloc: Global,
    words: &[&str],
    store: &mut S,
    sink: &mut K,
    rack: &mut Rack,
) -> Result<u8, Fail> {
    let words = words_of(alloc, words)?;
    Ok(console(alloc, words.as_slice(), store, sink, rack))
}

/// The status, with what is written.
pub(crate) fn answered(
    alloc: Global,
    row: &Row,
    common: &[File],
    rack: &mut Rack,
) -> Result<(u8, MemSink), Fail> {
    let mut store = store_of(alloc, row, common)?;
    let mut sink = sink_of(alloc, row)?;
    let status = status_of(alloc, row.words, &mut store, &mut sink, rack)?;
    Ok((status, sink))
}

fn check_text(rt: &impl Abort, row: &Row, bytes: &[u8]) {
    match row.text {
        Text::All(text) => assert!(rt; bytes == text.as_bytes(), "{text}"),
        Text::Between(head, tail) => {
            assert!(rt; bytes.starts_with(head.as_bytes()), "{head}");
            assert!(rt; bytes.ends_with(tail.as_bytes()), "{tail}");
        }
    }
}

fn check_left(rt: &impl Abort, left: &Left, rack: &mut Rack) {
    let (socket, has) = *left;
    let Some(chip) = rack.get_mut(socket) else {
        panic!(rt; "no socket {socket}");
    };
    match has {
        Has::Counters(pc0, pc1, dc0, dc1) => {
            let want = Counters { pc0, pc1, dc0, dc1 };
            assert!(rt; chip.counters() == want, "socket {socket}");
        }
        Has::Latch(port, byte) => assert!(rt; chip.latch(port) == Some(byte), "socket {socket}"),
    }
}

/// Makes the call of a row, on this rack, and compares what comes of it.
pub(crate) fn check_row(
    rt: &impl Abort,
    alloc: Global,
    row: &Row,
    common: &[File],
    rack: &mut Rack,
) -> Result<(), Fail> {
    let (status, sink) = answered(alloc, row, common, rack)?;
    check_text(rt, row, sink.bytes());
    assert!(rt; status == row.status, "{:?}", row.words);
    for left in row.left {
        check_left(rt, left, rack);
    }
    Ok(())
}
