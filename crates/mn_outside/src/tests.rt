// Each public call once, and what no clause says: that a call succeeds, and what the real ones do.
use crate::{
    Bytes, Failed, Files, MemFiles, MemSink, Name, RealFiles, RealSink, Refused, Sink, SureFiles,
    SureSink,
};
use std::alloc::{AllocError, Global};
use std::fmt::Display;
use std::test::Fail;
use std::{env, io};

fn entry(alloc: Global, name: &str, text: &str) -> Result<(Name, Bytes), AllocError> {
    Ok((
        Name::of(String::from_str(alloc, name)?),
        Bytes::of(text.as_bytes().to_vec(alloc)?),
    ))
}

// Whether the entries are these, in this order.
fn are(held: &[(Name, Bytes)], want: &[(&str, &str)]) -> bool {
    if held.len() != want.len() {
        return false;
    }
    for (entry, (name, text)) in held.iter().zip(want) {
        if entry.0.text() != *name || entry.1.list() != text.as_bytes() {
            return false;
        }
    }
    true
}

#[test]
fn files_that_never_fail(rt: HostRuntime) -> Result<(), Fail> {
    let alloc = rt.alloc();
    let mut files = SureFiles {
        held: vec![in alloc; entry(alloc, "a", "one")?, entry(alloc, "a", "two")?]?,
    };
    assert_eq!(rt; files.read(alloc, "a")?.as_slice(), b"one".as_slice());
    assert_eq!(rt; files.read(alloc, "b")?.len(), 0);
    files.write(alloc, "b", b"three")?;
    files.write(alloc, "a", b"four")?;
    let want = [("a", "four"), ("a", "two"), ("b", "three")];
    assert!(rt; are(files.held.as_slice(), want.as_slice()));
    Ok(())
}

#[test]
fn files_that_fail_by_number(rt: HostRuntime) -> Result<(), Fail> {
    let alloc = rt.alloc();
    let mut files = MemFiles {
        held: vec![in alloc; entry(alloc, "a", "one")?]?,
        fail: vec![in alloc; 0, 2]?,
        calls: 0,
        faults: 0,
    };
    assert_eq!(rt; files.read(alloc, "a"), Err(Refused::Fault(Failed)));
    assert_eq!(rt; files.read(alloc, "a")?.as_slice(), b"one".as_slice());
    assert_eq!(rt;
        files.write(alloc, "a", b"two"),
        Err(Refused::Fault(Failed))
    );
    assert_eq!(rt; files.read(alloc, "b"), Err(Refused::Fault(Failed)));
    files.write(alloc, "b", b"three")?;
    files.write(alloc, "a", b"four")?;
    let want = [("a", "four"), ("b", "three")];
    assert!(rt; are(files.held.as_slice(), want.as_slice()));
    assert_eq!(rt; (files.calls, files.faults), (6, 3));
    Ok(())
}

#[test]
fn counts_stop_at_their_last_values(rt: HostRuntime) -> Result<(), Fail> {
    let alloc = rt.alloc();
    let mut out = MemSink {
        written: Vec::new(alloc),
        fail: vec![in alloc; u32::MAX - 1, u32::MAX]?,
        calls: u32::MAX - 1,
        faults: u64::MAX,
    };
    assert_eq!(rt; out.put(b"lost"), Err(Refused::Fault(Failed)));
    out.put(b"kept")?;
    assert_eq!(rt; out.written.as_slice(), b"kept".as_slice());
    assert_eq!(rt; (out.calls, out.faults), (u32::MAX, u64::MAX));
    let mut sure = SureSink {
        written: Vec::new(alloc),
    };
    sure.put(b"kept")?;
    assert_eq!(rt; sure.written.as_slice(), b"kept".as_slice());
    Ok(())
}

#[test]
fn real_files_are_written_and_read(rt: HostRuntime) -> Result<(), Fail> {
    let alloc = rt.alloc();
    let folder = env::temp_dir(&rt)?;
    let path = format!(in alloc;
        "{}/mn_outside_{}.tmp",
        folder.display(),
        std::process::id(rt.process())
    )?;
    let mut files = RealFiles::new(&rt);
    assert_eq!(rt;
        files.read(alloc, path.as_str()),
        Err(Refused::Fault(Failed))
    );
    files.write(alloc, path.as_str(), b"one\ntwo\n")?;
    assert_eq!(rt;
        files.read(alloc, path.as_str())?.as_slice(),
        b"one\ntwo\n".as_slice()
    );
    assert_eq!(rt; files.faults, 1);
    std::fs::remove_file(&rt, path.as_str())?;
    Ok(())
}

// An output that takes two bytes of a piece, and of a single byte none.
struct Narrow;

impl Print for Narrow {
    fn print<D: Display + Drop>(&self, _value: D) -> io::Result<()> {
        Ok(())
    }

    fn println<D: Display + Drop>(&self, _value: D) -> io::Result<()> {
        Ok(())
    }

    fn write_all(&self, _bytes: &[u8]) -> io::Result<()> {
        Ok(())
    }

    fn write_some(&self, bytes: &[u8]) -> io::Result<usize> {
        if bytes.len() < 2 { Ok(0) } else { Ok(2) }
    }
}

#[test]
fn a_real_sink_puts_all_or_counts_a_fault(rt: HostRuntime) -> Result<(), Fail> {
    let mut out = RealSink::new(&rt);
    out.put(b"put\n")?;
    assert_eq!(rt; out.faults, 0);
    let mut narrow = RealSink::new(&Narrow);
    narrow.put(b"four")?;
    assert_eq!(rt; narrow.put(b"three"), Err(Refused::Fault(Failed)));
    assert_eq!(rt; narrow.faults, 1);
    Ok(())
}
