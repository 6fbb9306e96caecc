//! The adapters over real files and streams, and sinks that fail.

use smk_base::FilesFault;
use smk_outside::{ErrSink, Files, MemSink, OutSink, RealFiles, Sink, StreamSink};
use std::io::Write;
use std::test::Fail;
use std::{env, fs, io, process};

// A file is read in blocks, and is longer than one of them here.
#[test]
fn reads_files_of_the_system(rt: HostRuntime) -> Result<(), Fail> {
    let alloc = rt.alloc();
    let folder = env::temp_dir(&rt)?;
    let folder = folder.display();
    let id = process::id(rt.process());
    let name = format!(in alloc; "{folder}/smk_tests_{id}")?;
    let folder = format!(in alloc; "{folder}")?;
    let mut long = Vec::new(alloc);
    for i in 0..200_000u32 {
        long.push((i % 251) as u8)?;
    }
    fs::write(&rt, name.as_str(), long.as_slice())?;
    let mut files = RealFiles::new(rt);
    let whole = files.read(alloc, name.as_bytes(), 200_000);
    let device = files.read(alloc, b"/dev/null", 5);
    files.only_regular();
    let front = files.read(alloc, name.as_bytes(), 2);
    fs::remove_file(&rt, name.as_str())?;
    assert!(rt; matches!(&whole, Ok(bytes) if bytes.as_slice() == long.as_slice()));
    assert!(rt; matches!(&front, Ok(bytes) if bytes.as_slice() == b"\x00\x01\x02".as_slice()));
    assert!(rt; device.is_ok());
    for name in [
        name.as_bytes(),
        b"/dev/null".as_slice(),
        folder.as_bytes(),
        b"".as_slice(),
        b"\xff".as_slice(),
    ]
    .as_slice()
    {
        let gone = files.read(alloc, name, 5);
        assert!(rt; matches!(&gone, Err(FilesFault::Failed)));
    }
    Ok(())
}

#[test]
fn writes_to_streams_of_the_system(rt: HostRuntime) -> Result<(), Fail> {
    let mut out = OutSink::new(rt.stdout());
    assert!(rt; out.put(b"to the standard output\n").is_ok() && out.put(b"").is_ok());
    let mut err = ErrSink::new(rt.stderr());
    assert!(rt; err.put(b"to the standard error\n").is_ok());
    let (reader, writer) = io::pipe(&rt)?;
    let mut sink = StreamSink::new(writer);
    assert!(rt; sink.put(b"for the reader").is_ok());
    drop(reader);
    assert!(rt; sink.put(b"for nobody").is_err());
    Ok(())
}

// A stream that takes one byte a write while it has room, and is broken at its last byte.
#[derive(Drop)]
struct Narrow<'t> {
    taken: &'t mut u32,
    room: u32,
    broken: u32,
}

impl<'t> Write for Narrow<'t> {
    fn write(&mut self, bytes: &[u8]) -> io::Result<usize> {
        if *self.taken == self.broken {
            return Err(io::Error::from(io::ErrorKind::BrokenPipe));
        }
        // The next byte is a digit, counted from 1.
        match bytes.first() {
            Some(digit) if *self.taken < self.room && *self.taken < 9 => {
                *self.taken = if u32::from(*digit) == 49 + *self.taken {
                    *self.taken + 1
                } else {
                    99
                };
                Ok(1)
            }
            _ => Ok(0),
        }
    }

    fn flush(&mut self) -> io::Result<()> {
        Ok(())
    }
}

#[test]
fn writes_in_pieces_up_to_a_fault_or_the_room(rt: HostRuntime) -> Result<(), Fail> {
    // the room, the byte at which the stream breaks, how many bytes are taken, and whether the put is whole
    for (room, broken, taken, whole) in [
        (9, 9, 7, true),
        (7, 9, 7, true),
        (6, 9, 6, false),
        (9, 6, 6, false),
        (0, 9, 0, false),
    ]
    .as_slice()
    {
        let mut count = 0;
        let mut sink = StreamSink::new(Narrow {
            taken: &mut count,
            room: *room,
            broken: *broken,
        });
        let result = sink.put(b"1234567");
        drop(sink);
        assert_eq!(rt; (result.is_ok(), count), (*whole, *taken));
    }
    let fails = Vec::from_slice(rt.alloc(), [(1, 0), (2, 1), (3, 9)].as_slice())?;
    let mut sink = MemSink::new(rt.alloc(), fails, 8)?;
    // the piece, whether all of it is written by a call that doesn't fail, and all bytes after it
    for (piece, whole, bytes) in [
        (b"ab".as_slice(), true, b"ab".as_slice()),
        (b"cd", false, b"ab"),
        (b"ef", false, b"abe"),
        (b"gh", false, b"abegh"),
        (b"ij", true, b"abeghij"),
        (b"kl", false, b"abeghijk"),
        (b"", true, b"abeghijk"),
        (b"m", false, b"abeghijk"),
    ]
    .as_slice()
    {
        assert_eq!(rt; sink.put(piece).is_ok(), *whole);
        assert_eq!(rt; sink.bytes(), *bytes);
    }
    Ok(())
}
