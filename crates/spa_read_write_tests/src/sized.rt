//! A whole value written front to back, into outputs and devices.
use crate::compare::assert_holds;
use crate::writing::{THREE, rows, three, three_and_nul, value_of};
use arrayvec::ArrayVec;
use spa_device::IoSink;
use spa_sink::GenError;
use spa_value::Value;
use spa_write::write_sized;
use std::alloc::{AllocError, Global};
use std::io::{self, Error, ErrorKind, Write};
use std::process::Abort;
use std::test::Fail;
use test_bytes::bytes_spelled;

/// A device that takes few bytes at a time, and answers an error at one of its writes. It takes no memory.
#[derive(Drop)]
struct Device {
    taken: ArrayVec<u8, 64>,
    most: usize,
    writes: u32,
    failing: u32,
}

impl Write for Device {
    fn write(&mut self, bytes: &[u8]) -> io::Result<usize> {
        self.writes = self.writes.saturating_add(1);
        if self.writes == self.failing {
            return Err(Error::from(ErrorKind::WriteZero));
        }
        let count = bytes.len().min(self.most);
        self.taken.write(&bytes[..count])
    }

    fn flush(&mut self) -> io::Result<()> {
        Ok(())
    }
}

/// What the write of a value answered, how many bytes were taken, how many writes failed, and the device.
type Found<W> = (Result<u64, GenError>, u64, u64, W);

/// Writes the value to the device.
fn found<W: Write + Drop>(device: W, value: &Value) -> Found<W> {
    let mut sink = IoSink::new(device);
    let answer = write_sized(&mut sink, value);
    let (written, failures) = (sink.written(), sink.failures());
    (answer, written, failures, sink.into_inner())
}

/// Writes the struct to the device.
fn found_three<W: Write + Drop>(alloc: Global, device: W) -> Result<Found<W>, Fail> {
    let value = three(alloc)?;
    Ok(found(device, &*value))
}

/// A device that takes this many bytes at a time, and fails at this write.
fn limited(most: usize, failing: u32) -> Device {
    Device {
        taken: ArrayVec::new(),
        most,
        writes: 0,
        failing,
    }
}

/// Whether the vector, which is the device, holds the first bytes of the encoding, as many as were counted.
fn begins(written: u64, taken: &[u8], encoding: &[u8]) -> bool {
    taken.len() as u64 == written && encoding.starts_with(taken)
}

#[test]
fn a_vector_takes_all_of_it(rt: HostRuntime) -> Result<(), Fail> {
    let wanted = bytes_spelled(rt.alloc(), THREE)?;
    let (answer, written, failures, taken) = found_three(rt.alloc(), Vec::new(rt.alloc()))?;
    let begins = begins(written, taken.as_slice(), wanted.as_slice());
    assert_holds(&rt, begins, "what the vector holds");
    if answer == Err(GenError::Io) && failures == 1 {
        // The vector, which is the device, has no memory.
        return Err(Fail::from(AllocError));
    }
    assert_holds(&rt, answer == Ok(24), "the answer");
    assert_holds(&rt, written == 24 && failures == 0, "the counts");
    Ok(())
}

/// How many bytes a device takes at a time, at which of its writes it fails, and how many it has taken then. Five bytes a
/// write: the header in two pieces, the Int in four. Then whole appends, one for each of the two.
const FAILING: &[(usize, u32, u64)] = &[
    (5, 1, 0),
    (5, 2, 5),
    (5, 3, 8),
    (5, 6, 23),
    (100, 1, 0),
    (100, 2, 8),
    (0, 7, 0),
];

/// Those rows. This function alone names them: one that does is proved with all of them.
fn failing() -> &'static [(usize, u32, u64)] {
    FAILING
}

fn assert_cut_at(
    rt: &impl Abort,
    alloc: Global,
    row: (usize, u32, u64),
    encoding: &[u8],
) -> Result<(), Fail> {
    let (most, failing, count) = row;
    let found = found_three(alloc, limited(most, failing))?;
    let is_cut = is_cut_at(&found, count, encoding);
    assert_holds(rt, is_cut, "a write fails");
    Ok(())
}

#[test]
fn a_failing_device_has_taken_a_beginning(rt: HostRuntime) -> Result<(), Fail> {
    let wanted = bytes_spelled(rt.alloc(), THREE)?;
    for row in failing() {
        assert_cut_at(&rt, rt.alloc(), *row, wanted.as_slice())?;
    }
    Ok(())
}

#[test]
fn a_device_takes_all_of_it(rt: HostRuntime) -> Result<(), Fail> {
    let wanted = bytes_spelled(rt.alloc(), THREE)?;
    let found = found_three(rt.alloc(), limited(5, 7))?;
    let is_whole = is_whole(&found, wanted.as_slice());
    assert_holds(&rt, is_whole, "no write fails");
    Ok(())
}

/// Whether the write failed when the device had this many bytes, which are the first of the encoding.
fn is_cut_at(found: &Found<Device>, count: u64, encoding: &[u8]) -> bool {
    is_cut(found, encoding) && found.1 == count
}

/// Whether the write failed, and the device holds the first bytes of the encoding, as many as were counted.
fn is_cut(found: &Found<Device>, encoding: &[u8]) -> bool {
    let (answer, written, failures, device) = found;
    let taken = device.taken.as_slice();
    *answer == Err(GenError::Io)
        && *failures == 1
        && *written == taken.len() as u64
        && taken.len() < encoding.len()
        && encoding.starts_with(taken)
}

/// Whether the device holds the encoding, and no write failed.
fn is_whole(found: &Found<Device>, encoding: &[u8]) -> bool {
    let (answer, written, failures, device) = found;
    *answer == Ok(*written)
        && *failures == 0
        && *written == encoding.len() as u64
        && device.taken.as_slice() == encoding
        && device.writes < device.failing
}

/// One more than the writes of the longest encoding, byte by byte.
const MOST_WRITES: u32 = 65;

/// Whether the value is cut at each of its writes in turn, and whole where no write is left to fail.
fn is_cut_at_each_write(value: &Value, most: usize, encoding: &[u8]) -> bool {
    for failing in 1..=MOST_WRITES {
        let found = found(limited(most, failing), value);
        if !is_cut(&found, encoding) {
            return is_whole(&found, encoding);
        }
    }
    false
}

/// How many bytes devices take at a time.
const PIECES: &[usize] = &[1, 5, 100];

/// Compares what devices hold, by how many bytes they take at a time, after a write of the row's value.
fn assert_cut(rt: &impl Abort, alloc: Global, row: &(&str, &str)) -> Result<(), Fail> {
    let encoding = bytes_spelled(alloc, row.1)?;
    let value = value_of(alloc, row)?;
    for most in PIECES {
        let is_cut = is_cut_at_each_write(&*value, *most, encoding.as_slice());
        assert_holds(rt, is_cut, row.1);
    }
    Ok(())
}

#[test]
fn each_write_fails_in_turn(rt: HostRuntime) -> Result<(), Fail> {
    for row in rows() {
        assert_cut(&rt, rt.alloc(), row)?;
    }
    Ok(())
}

/// Writes the value that holds NUL behind a byte, and answers whether only the byte is there afterwards.
fn left_by_nul(alloc: Global) -> Result<(Result<u64, GenError>, bool), AllocError> {
    let mut out = [7].to_vec(alloc)?;
    let value = three_and_nul(alloc)?;
    let answer = write_sized(&mut out, &*value);
    Ok((answer, out.as_slice() == [7].as_slice()))
}

#[test]
fn a_text_with_nul_leaves_the_output(rt: HostRuntime) -> Result<(), AllocError> {
    let (answer, is_left) = left_by_nul(rt.alloc())?;
    assert_holds(&rt, answer == Err(GenError::NulInText), "the answer");
    assert_holds(&rt, is_left, "the output");
    Ok(())
}

/// Writes the struct to an output that has no room for all of it, and answers whether the output begins it.
fn left_by_lack_of_room(alloc: Global) -> Result<(Result<u64, GenError>, bool), Fail> {
    let wanted = bytes_spelled(alloc, THREE)?;
    let value = three(alloc)?;
    let mut out: ArrayVec<u8, 15> = ArrayVec::new();
    let answer = write_sized(&mut out, &*value);
    Ok((answer, wanted.starts_with(out.as_slice())))
}

#[test]
fn a_full_output_holds_a_beginning(rt: HostRuntime) -> Result<(), Fail> {
    let (answer, begins) = left_by_lack_of_room(rt.alloc())?;
    assert_holds(&rt, answer == Err(GenError::Full), "the answer");
    assert_holds(&rt, begins, "the output");
    Ok(())
}
