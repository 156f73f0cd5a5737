//! The shelf and the sink in memory, the files of the system, and reads and writes of a system that gives and takes a
//! part at a time.

use outside::{FileShelf, MemShelf, MemSink, PutErr, QuietSink, Shelf, ShelfErr, Sink, StdoutSink};
use std::alloc::Global;
use std::cell::Cell;
use std::test::Fail;

mod parts;

use parts::{Answer, Parts};

/// What a put answers through the trait.
fn put<K: Sink>(sink: &mut K, alloc: Global, piece: &[u8]) -> Result<(), PutErr> {
    sink.put(alloc, piece)
}

#[test]
fn a_shelf_in_memory_holds_what_is_saved(rt: HostRuntime) -> Result<(), Fail> {
    let alloc = rt.alloc();
    let mut shelf = MemShelf::new(alloc, &[2])?;
    shelf.place(alloc, "a", b"alpha")?;
    assert!(rt; shelf.load(alloc, "a", 3)?.as_slice() == b"alph".as_slice());
    assert!(rt; shelf.save(alloc, "a", b"beta") == Err(ShelfErr::Failed));
    assert!(rt; shelf.save(alloc, "a", b"gamma") == Ok(()));
    assert!(rt; shelf.held("a") == Some(b"gamma".as_slice()));
    assert!(rt; shelf.load_faults() == 0 && shelf.save_faults() == 1);
    Ok(())
}

#[test]
fn sinks_take_pieces(rt: HostRuntime) -> Result<(), Fail> {
    let alloc = rt.alloc();
    let mut sink = MemSink::new(alloc, &[2])?;
    let mut quiet = QuietSink;
    for (piece, wanted) in [
        (b"one ".as_slice(), Ok(())),
        (b"two ", Err(PutErr::Failed)),
        (b"three", Ok(())),
    ] {
        assert!(rt; put(&mut sink, alloc, piece) == wanted);
        assert!(rt; put(&mut quiet, alloc, piece) == Ok(()));
    }
    assert!(rt; sink.bytes() == b"one three".as_slice());
    assert!(rt; sink.faults() == 1 && quiet.faults() == 0);
    Ok(())
}

/// The answers of a file, the limit that it is loaded under, and the bytes that are given, if they are.
struct Reading {
    answers: &'static [Answer],
    limit: u32,
    given: Option<&'static [u8]>,
}

/// Parts are joined; a read that is interrupted is made again; a read of nothing is the end; a fault in mid-stream is
/// told.
static READINGS: [Reading; 6] = [
    Reading {
        answers: &[
            Answer::Gives(b"ab"),
            Answer::Interrupted,
            Answer::Gives(b"cde"),
            Answer::Gives(b"f"),
        ],
        limit: 0,
        given: Some(b"a"),
    },
    Reading {
        answers: &[
            Answer::Gives(b"ab"),
            Answer::Interrupted,
            Answer::Gives(b"cde"),
            Answer::Gives(b"f"),
        ],
        limit: 3,
        given: Some(b"abcd"),
    },
    Reading {
        answers: &[
            Answer::Gives(b"ab"),
            Answer::Interrupted,
            Answer::Gives(b"cde"),
            Answer::Gives(b"f"),
        ],
        limit: 5,
        given: Some(b"abcdef"),
    },
    Reading {
        answers: &[
            Answer::Gives(b"ab"),
            Answer::Interrupted,
            Answer::Gives(b"cde"),
            Answer::Gives(b"f"),
        ],
        limit: 99,
        given: Some(b"abcdef"),
    },
    Reading {
        answers: &[Answer::Gives(b"ab"), Answer::Gives(b""), Answer::Fault],
        limit: 99,
        given: Some(b"ab"),
    },
    Reading {
        answers: &[Answer::Gives(b"ab"), Answer::Fault, Answer::Gives(b"cd")],
        limit: 99,
        given: None,
    },
];

fn readings() -> &'static [Reading] {
    &READINGS
}

/// Whether a load of such a file gives what it should.
fn is_given(alloc: Global, reading: &Reading) -> bool {
    let taken = Cell::new(0);
    let mut shelf = FileShelf::new(Parts {
        answers: reading.answers,
        room: 0,
        is_full_an_error: false,
        can_flush: true,
        taken: &taken,
    });
    if reading.limit > 99 {
        return false;
    }
    match (shelf.load(alloc, "a", reading.limit), reading.given) {
        (Ok(bytes), Some(given)) => bytes.as_slice() == given,
        (Err(error), None) => error == ShelfErr::Failed && shelf.load_faults() == 1,
        _ => false,
    }
}

#[test]
fn parts_are_joined(rt: HostRuntime) {
    for reading in readings() {
        assert!(rt; is_given(rt.alloc(), reading), "under {}", reading.limit);
    }
}

/// The room of a file, whether it is an error that there is none, whether a flush succeeds, whether `abcde` is saved,
/// and the bytes that the file took then.
static WRITINGS: [(usize, bool, bool, bool, u64); 5] = [
    (100, false, true, true, 0x61_62_63_64_65),
    (5, false, true, true, 0x61_62_63_64_65),
    (3, false, true, false, 0x61_62_63),
    (3, true, true, false, 0x61_62_63),
    (100, false, false, false, 0x61_62_63_64_65),
];

fn writings() -> &'static [(usize, bool, bool, bool, u64)] {
    &WRITINGS
}

#[test]
fn partial_writes_go_on(rt: HostRuntime) {
    for (room, is_full_an_error, can_flush, is_saved, wanted) in writings() {
        let taken = Cell::new(0);
        let mut shelf = FileShelf::new(Parts {
            answers: &[],
            room: *room,
            is_full_an_error: *is_full_an_error,
            can_flush: *can_flush,
            taken: &taken,
        });
        let answer = shelf.save(rt.alloc(), "a", b"abcde");
        assert!(rt;
            answer.is_ok() == *is_saved && taken.get() == *wanted,
            "with room {room}"
        );
    }
}

#[test]
fn path_that_leads_nowhere_fails_and_counts(rt: HostRuntime) -> Result<(), Fail> {
    let alloc = rt.alloc();
    let mut shelf = FileShelf::new(rt.clone()?);
    let loaded = shelf.load(alloc, "no-such-folder/a", 100).err();
    assert!(rt; loaded == Some(ShelfErr::Failed));
    assert!(rt; shelf.load_faults() == 1 && shelf.save_faults() == 0);
    let saved = shelf.save(alloc, "no-such-folder/a", b"alpha").err();
    assert!(rt; saved == Some(ShelfErr::Failed));
    assert!(rt; shelf.load_faults() == 1 && shelf.save_faults() == 1);
    Ok(())
}

#[test]
fn standard_output_takes_a_piece(rt: HostRuntime) -> Result<(), Fail> {
    let mut sink = StdoutSink::new(rt.clone()?);
    assert!(rt; put(&mut sink, rt.alloc(), b"a piece\n") == Ok(()));
    assert!(rt; sink.faults() == 0);
    Ok(())
}
