// Each spelling of an instruction, beside the line that it is in canonical text.
use il_parse::parse;
use il_print::print;
use std::alloc::Global;
use std::process::Abort;
use std::test::Fail;

#[rattlefmt::skip]
const LONG: [(&[u8], &[u8]); 84] = [
    (b"nop", b"nop"),
    (b"dup", b"dup"),
    (b"pop", b"pop"),
    (b"ldnull", b"ldnull"),
    (b"add", b"add"),
    (b"sub", b"sub"),
    (b"mul", b"mul"),
    (b"and", b"and"),
    (b"or", b"or"),
    (b"xor", b"xor"),
    (b"add.ovf", b"add.ovf"),
    (b"sub.ovf", b"sub.ovf"),
    (b"mul.ovf", b"mul.ovf"),
    (b"add.ovf.un", b"add.ovf.un"),
    (b"sub.ovf.un", b"sub.ovf.un"),
    (b"mul.ovf.un", b"mul.ovf.un"),
    (b"div", b"div"),
    (b"rem", b"rem"),
    (b"div.un", b"div.un"),
    (b"rem.un", b"rem.un"),
    (b"shl", b"shl"),
    (b"shr", b"shr"),
    (b"shr.un", b"shr.un"),
    (b"neg", b"neg"),
    (b"not", b"not"),
    (b"conv.i4", b"conv.i4"),
    (b"conv.i8", b"conv.i8"),
    (b"conv.u8", b"conv.u8"),
    (b"conv.ovf.i4", b"conv.ovf.i4"),
    (b"ceq", b"ceq"),
    (b"cgt", b"cgt"),
    (b"cgt.un", b"cgt.un"),
    (b"clt", b"clt"),
    (b"clt.un", b"clt.un"),
    (b"ret", b"ret"),
    (b"ldlen", b"ldlen"),
    (b"throw", b"throw"),
    (b"ldc.i4 -5", b"ldc.i4 -5"),
    (b"ldc.i4 0xFFFFFFFF", b"ldc.i4 -1"),
    (b"ldc.i4 -0x10", b"ldc.i4 -16"),
    (b"ldc.i8 0x8000000000000000", b"ldc.i8 -9223372036854775808"),
    (b"ldc.i8 7", b"ldc.i8 7"),
    (b"ldstr \"a\\n\"", b"ldstr \"a\\n\""),
    (b"ldarg 7", b"ldarg 7"),
    (b"ldloc 7", b"ldloc 7"),
    (b"ldarga 7", b"ldarga 7"),
    (b"ldloca 7", b"ldloca 7"),
    (b"starg 7", b"starg 7"),
    (b"stloc 7", b"stloc 7"),
    (b"br E", b"br L0"),
    (b"brtrue E", b"brtrue L0"),
    (b"brfalse E", b"brfalse L0"),
    (b"beq E", b"beq L0"),
    (b"bne.un E", b"bne.un L0"),
    (b"bge E", b"bge L0"),
    (b"bgt E", b"bgt L0"),
    (b"ble E", b"ble L0"),
    (b"blt E", b"blt L0"),
    (b"bge.un E", b"bge.un L0"),
    (b"bgt.un E", b"bgt.un L0"),
    (b"ble.un E", b"ble.un L0"),
    (b"blt.un E", b"blt.un L0"),
    (b"leave E", b"leave L0"),
    (b"switch (E, E)", b"switch ( L0, L0 )"),
    (b"call void P::Main()", b"call void P :: Main ( )"),
    (b"callvirt void P::Main()", b"callvirt void P :: Main ( )"),
    (b"newobj void P::Main()", b"newobj void P :: Main ( )"),
    (b"constrained. P callvirt instance void P::Main()", b"constrained. P callvirt instance void P :: Main ( )"),
    (b"ldfld int32[] P::f", b"ldfld int32[] P :: f"),
    (b"stfld int32[] P::f", b"stfld int32[] P :: f"),
    (b"ldflda int32[] P::f", b"ldflda int32[] P :: f"),
    (b"ldsfld int32[] P::f", b"ldsfld int32[] P :: f"),
    (b"stsfld int32[] P::f", b"stsfld int32[] P :: f"),
    (b"ldsflda int32[] P::f", b"ldsflda int32[] P :: f"),
    (b"ldobj System.Exception[]", b"ldobj System.Exception[]"),
    (b"stobj System.Exception[]", b"stobj System.Exception[]"),
    (b"initobj System.Exception[]", b"initobj System.Exception[]"),
    (b"newarr System.Exception[]", b"newarr System.Exception[]"),
    (b"ldelem System.Exception[]", b"ldelem System.Exception[]"),
    (b"stelem System.Exception[]", b"stelem System.Exception[]"),
    (b"box System.Exception[]", b"box System.Exception[]"),
    (b"unbox.any System.Exception[]", b"unbox.any System.Exception[]"),
    (b"castclass System.Exception[]", b"castclass System.Exception[]"),
    (b"isinst System.Exception[]", b"isinst System.Exception[]"),
];

#[rattlefmt::skip]
const SHORT: [(&[u8], &[u8]); 53] = [
    (b"ldc.i4.m1", b"ldc.i4 -1"),
    (b"ldc.i4.0", b"ldc.i4 0"),
    (b"ldc.i4.1", b"ldc.i4 1"),
    (b"ldc.i4.2", b"ldc.i4 2"),
    (b"ldc.i4.3", b"ldc.i4 3"),
    (b"ldc.i4.4", b"ldc.i4 4"),
    (b"ldc.i4.5", b"ldc.i4 5"),
    (b"ldc.i4.6", b"ldc.i4 6"),
    (b"ldc.i4.7", b"ldc.i4 7"),
    (b"ldc.i4.8", b"ldc.i4 8"),
    (b"ldarg.0", b"ldarg 0"),
    (b"ldarg.1", b"ldarg 1"),
    (b"ldarg.2", b"ldarg 2"),
    (b"ldarg.3", b"ldarg 3"),
    (b"ldloc.0", b"ldloc 0"),
    (b"ldloc.1", b"ldloc 1"),
    (b"ldloc.2", b"ldloc 2"),
    (b"ldloc.3", b"ldloc 3"),
    (b"stloc.0", b"stloc 0"),
    (b"stloc.1", b"stloc 1"),
    (b"stloc.2", b"stloc 2"),
    (b"stloc.3", b"stloc 3"),
    (b"ldind.i4", b"ldobj int32"),
    (b"ldind.i8", b"ldobj int64"),
    (b"ldind.ref", b"ldobj object"),
    (b"stind.i4", b"stobj int32"),
    (b"stind.i8", b"stobj int64"),
    (b"stind.ref", b"stobj object"),
    (b"ldelem.i4", b"ldelem int32"),
    (b"ldelem.i8", b"ldelem int64"),
    (b"stelem.i4", b"stelem int32"),
    (b"stelem.i8", b"stelem int64"),
    (b"ldc.i4.s 1000", b"ldc.i4 1000"),
    (b"ldarg.s 300", b"ldarg 300"),
    (b"ldloc.s 300", b"ldloc 300"),
    (b"ldarga.s 300", b"ldarga 300"),
    (b"ldloca.s 300", b"ldloca 300"),
    (b"starg.s 300", b"starg 300"),
    (b"stloc.s 300", b"stloc 300"),
    (b"br.s E", b"br L0"),
    (b"brtrue.s E", b"brtrue L0"),
    (b"brfalse.s E", b"brfalse L0"),
    (b"beq.s E", b"beq L0"),
    (b"bne.un.s E", b"bne.un L0"),
    (b"bge.s E", b"bge L0"),
    (b"bgt.s E", b"bgt L0"),
    (b"ble.s E", b"ble L0"),
    (b"blt.s E", b"blt L0"),
    (b"bge.un.s E", b"bge.un L0"),
    (b"bgt.un.s E", b"bgt.un L0"),
    (b"ble.un.s E", b"ble.un L0"),
    (b"blt.un.s E", b"blt.un L0"),
    (b"leave.s E", b"leave L0"),
];

#[rattlefmt::skip]
const LIBRARY: [(&[u8], &[u8]); 15] = [
    (b"call void System.Console::WriteLine(int32)", b"call void System.Console :: WriteLine ( int32 )"),
    (b"call void System.Console::WriteLine(int64)", b"call void System.Console :: WriteLine ( int64 )"),
    (b"call void System.Console::WriteLine(string)", b"call void System.Console :: WriteLine ( string )"),
    (b"call void System.Console::WriteLine(System.String)", b"call void System.Console :: WriteLine ( string )"),
    (b"call int32 System.Threading.Interlocked::CompareExchange(int32&, int32, int32)", b"call int32 System.Threading.Interlocked :: CompareExchange ( int32 &, int32, int32 )"),
    (b"call int64 System.Threading.Interlocked::CompareExchange(int64&, int64, int64)", b"call int64 System.Threading.Interlocked :: CompareExchange ( int64 &, int64, int64 )"),
    (b"call object System.Threading.Interlocked::CompareExchange(object&, object, object)", b"call object System.Threading.Interlocked :: CompareExchange ( object &, object, object )"),
    (b"call int32 System.Threading.Interlocked::Exchange(int32&, int32)", b"call int32 System.Threading.Interlocked :: Exchange ( int32 &, int32 )"),
    (b"call int64 System.Threading.Interlocked::Exchange(int64&, int64)", b"call int64 System.Threading.Interlocked :: Exchange ( int64 &, int64 )"),
    (b"call object System.Threading.Interlocked::Exchange(object&, object)", b"call object System.Threading.Interlocked :: Exchange ( object &, object )"),
    (b"call int32 System.Threading.Interlocked::Add(int32&, int32)", b"call int32 System.Threading.Interlocked :: Add ( int32 &, int32 )"),
    (b"call int64 System.Threading.Interlocked::Add(int64&, int64)", b"call int64 System.Threading.Interlocked :: Add ( int64 &, int64 )"),
    (b"call string Rt.Types::NameOf<int32[]>()", b"call string Rt.Types :: NameOf < int32[] > ( )"),
    (b"call int32 Rt.Threads::Start(Rt.IRun)", b"call int32 Rt.Threads :: Start ( Rt.IRun )"),
    (b"call void Rt.Threads::Join(int32)", b"call void Rt.Threads :: Join ( int32 )"),
];

const FRONT: &[u8] =
    b".class P {\n  .field int32[] f\n  .method static void Main ( ) {\n    .entrypoint\n    ";

// A method with one instruction and an end.
fn text_with(alloc: Global, instr: &[u8]) -> Result<Vec<u8>, Fail> {
    let mut text = Vec::from_slice(alloc, FRONT)?;
    text.extend_from_slice(instr)?;
    text.extend_from_slice(b" E: ret } }")?;
    Ok(text)
}

fn check(rt: &impl Abort, alloc: Global, rows: &[(&[u8], &[u8])]) -> Result<(), Fail> {
    for (spelling, line) in rows {
        let text = text_with(alloc, *spelling)?;
        let parsed = parse(alloc, text.as_slice())?;
        let printed = print(alloc, &parsed.program)?;
        let mut want = Vec::from_slice(alloc, FRONT)?;
        want.extend_from_slice(*line)?;
        want.push(b'\n')?;
        assert!(rt;
            printed.as_slice().starts_with(want.as_slice()),
            "{spelling:?}"
        );
        match parsed.program.methods.as_slice().last() {
            Some(method) => match &method.body {
                Some(body) => assert_eq!(rt; body.code.len(), 2),
                None => assert!(rt; false),
            },
            None => assert!(rt; false),
        }
    }
    Ok(())
}

#[test]
fn long_forms_are_themselves(rt: HostRuntime) -> Result<(), Fail> {
    check(&rt, rt.alloc(), &LONG)
}

#[test]
fn short_spellings_are_their_long_forms(rt: HostRuntime) -> Result<(), Fail> {
    check(&rt, rt.alloc(), &SHORT)
}

#[test]
fn calls_of_the_library_are_instructions(rt: HostRuntime) -> Result<(), Fail> {
    check(&rt, rt.alloc(), &LIBRARY)
}
