// Commands over one file in memory.
use mn_outside::{Bytes, MemFiles, MemSink, Name};
use run_top::aot_main;
use std::alloc::{AllocError, Global};
use std::process::Abort;
use std::test::Fail;

// What `check` writes on a text.
pub(crate) fn checked(alloc: Global, text: &str) -> Result<Vec<u8>, AllocError> {
    let mut words = Vec::new(alloc);
    words.push(Name::of(String::from_str(alloc, "check")?))?;
    words.push(Name::of(String::from_str(alloc, "p.il")?))?;
    let mut held = Vec::new(alloc);
    held.push((
        Name::of(String::from_str(alloc, "p.il")?),
        Bytes::of(text.as_bytes().to_vec(alloc)?),
    ))?;
    let mut files = MemFiles {
        held,
        fail: Vec::new(alloc),
        calls: 0,
        faults: 0,
    };
    let mut out = MemSink {
        written: Vec::new(alloc),
        fail: Vec::new(alloc),
        calls: 0,
        faults: 0,
    };
    let _ = aot_main(alloc, words.as_slice(), &mut files, &mut out);
    Ok(out.written)
}

// Each text with what `check` writes on it.
pub(crate) fn check_all(rt: &impl Abort, alloc: Global, rows: &[(&str, &str)]) -> Result<(), Fail> {
    for (text, line) in rows {
        let written = checked(alloc, text)?;
        assert!(rt; written.as_slice() == line.as_bytes(), "{line} {text}");
    }
    Ok(())
}
