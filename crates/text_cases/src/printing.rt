// Canonical texts, which print as themselves.
use il_parse::parse;
use il_print::{canonical_length, print};
use std::alloc::Global;
use std::process::Abort;
use std::test::Fail;

const CLASSES: &[u8] = b".class P {
}
.class abstract C < T : Rt.IRun & object, U > extends List<!0,string> implements Rt.IRun {
  .field static int32[] a
  .field C<int64,!1> b
  .method newslot virtual void Run ( ) {
  }
  .method abstract bool g ( int32 & ) ;
  .method static int64 h < V > ( !!0 & ) {
    .locals init ( int64, object & )
    L0 :
    ldc.i8 -9223372036854775808
    ldc.i4 -1
    ldstr \"a\\n\\t\\\"\\\\\"
    ldarg 3
    L1 :
    br L1
    switch ( L2, L0 )
    callvirt instance int32 Q :: f < string > ( !!0, bool & )
    constrained. !0 callvirt instance int32 Q :: f < string > ( !!0, bool & )
    ldfld bool S :: x
    call string Rt.Types :: NameOf < C<int64,!1> > ( )
    call object System.Threading.Interlocked :: Exchange ( object &, object )
    L2 :
  }
}
.class struct S {
  .field bool x
}
.class List < T, U > {
}
.class Q {
  .method int32 f < V > ( !!0, bool & ) {
  }
  .method static void Main ( ) {
    .entrypoint
    L0 :
    nop
    L1 :
    pop
    leave L2
    L2 :
    ret
";

const CLAUSE: &[u8] = b"    .try L0 to L1 catch System.Exception handler L1 to L2\n";

const END: &[u8] = b"  }
}
";

// The text with so many clauses in its last method.
fn text_of(alloc: Global, clauses: u32) -> Result<Vec<u8>, Fail> {
    let mut text = Vec::from_slice(alloc, CLASSES)?;
    for _turn in 0..clauses {
        text.extend_from_slice(CLAUSE)?;
    }
    text.extend_from_slice(END)?;
    Ok(text)
}

fn check(rt: &impl Abort, alloc: Global, clauses: u32) -> Result<(), Fail> {
    let text = text_of(alloc, clauses)?;
    let parsed = parse(alloc, text.as_slice())?;
    let printed = print(alloc, &parsed.program)?;
    assert!(rt; printed.as_slice() == text.as_slice(), "{clauses} clauses");
    let count = canonical_length(alloc, &parsed.program)?;
    assert_eq!(rt; count, text.len() as u64);
    Ok(())
}

#[test]
fn a_canonical_text_prints_as_itself(rt: HostRuntime) -> Result<(), Fail> {
    check(&rt, rt.alloc(), 1)
}

#[test]
fn a_method_of_32_clauses_prints_as_itself(rt: HostRuntime) -> Result<(), Fail> {
    check(&rt, rt.alloc(), 32)
}
