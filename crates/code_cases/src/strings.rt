// Strings as they are printed: a literal's word is 2^32 and its number more, and null's is 0.
use crate::running::run;
use crate::texts::{FIRST, with_main};
use std::test::Fail;

pub(crate) const BODY: &[u8] = b"ldstr \"first\" call void System.Console::WriteLine(string)
  ldstr \"second\" call void System.Console::WriteLine(string)
  ldnull call void System.Console::WriteLine(string)";

#[test]
fn strings_are_printed(rt: HostRuntime) -> Result<(), Fail> {
    let alloc = rt.alloc();
    let text = with_main(alloc, BODY)?;
    let ran = run(alloc, text.as_slice(), FIRST, &[])?;
    assert_eq!(rt;
        ran.printed.as_slice(),
        [(4_294_967_296, 1), (4_294_967_297, 1), (0, 1)].as_slice()
    );
    Ok(())
}
