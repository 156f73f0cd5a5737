//! Reads and writes that go on where the system takes a part at a time.
ghost use Rattle.std.specs.Prelude.{◌≡◌, ◌<◌, ◌≤◌, length, take, IfOk, IfSome, OnOk, OnErr};
ghost use Rattle.std.specs.Io.{ReadsAtMost};
ghost use Rattle.std.specs.Io.KnownBytes.{Appends, Consumes, IsAtEnd};

use crate::shelf::ShelfErr;
use std::alloc::Global;
use std::io;
use std::io::{Read, Write};

/// How many bytes are asked for at a time.
const CHUNK: usize = 4096;

/// The first bytes that a reader gives, at most `most`: fewer only where it ends. A read of nothing is its end.
pub fn first_bytes<F: Read>(alloc: Global, reader: &mut F, most: usize) -> Result<Vec<u8>, ShelfErr>
    ensures bytes { IfOk result (λ v. IfSome (F.remaining reader.old) (λ left. v.items ≡ take most left)) }
    ensures most { IfOk result (λ v. length v.items ≤ most) }
{
    let mut bytes = Vec::new(alloc);
    let mut buffer = [0u8; CHUNK];
    while bytes.len() < most {
        let room = (most - bytes.len()).min(CHUNK);
        let count = read_some(reader, &mut buffer[..room])?;
        if count == 0 {
            return Ok(bytes);
        }
        bytes.extend_from_slice(&buffer[..count])?;
    }
    Ok(bytes)
}

/// One read, made again where a signal interrupts it. It gives nothing only at the end, or with no room.
fn read_some<F: Read>(reader: &mut F, buffer: &mut [u8]) -> Result<usize, ShelfErr>
    ensures bound { ReadsAtMost result buffer.new }
    ensures bytes { IfOk result (λ n. Consumes (F.remaining reader.old) (F.remaining reader.new) (take n buffer.new)) }
    ensures end { IfOk result (λ n. n ≡ 0 → 0 < length buffer.old → IsAtEnd (F.remaining reader.new)) }
    ensures fault { OnErr result (result ≡ Err ShelfErr.Failed) }
{
    for _ in 0..u64::MAX {
        match reader.read(buffer) {
            Ok(count) => return Ok(count),
            Err(error) if error.kind() == io::ErrorKind::Interrupted => {}
            Err(_) => return Err(ShelfErr::Failed),
        }
    }
    Err(ShelfErr::Failed)
}

/// Writes the whole piece and sends it on. A write that takes nothing is an error.
pub fn write_through<W: Write>(writer: &mut W, piece: &[u8]) -> io::Result<()>
    ensures { OnOk result (Appends (W.contents writer.old) (W.contents writer.new) piece.now) }
{
    writer.write_all(piece)?;
    writer.flush()
}
