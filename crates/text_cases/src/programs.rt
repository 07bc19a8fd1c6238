// A program with generics, an interface, a clause and threads, with its parts counted by hand.
use il_model::{ClassKind, Op, Shape};
use il_parse::parse;
use il_print::print;
use std::process::Abort;
use std::test::Fail;

const TEXT: &[u8] = b"// sorts a list, and adds in a second thread
.class interface IOrder<T> {
  .method abstract bool Less(!0, !0);
}
.class List<T> {
  .field !0[] items
  .field int32 count
  .method void .ctor() {
    ldarg.0  call instance void object::.ctor()
    ldarg.0  ldc.i4.s 0x10  newarr !0  stfld !0[] List<!0>::items
    ret
  }
  .method void Add(!0) {
    ldarg.0  ldfld !0[] List<!0>::items
    ldarg.0  ldfld int32 List<!0>::count
    ldarg.1  stelem !0
    ldarg.0  ldarg.0  ldfld int32 List<!0>::count  ldc.i4.1 add.ovf  stfld int32 List<!0>::count
    ret
  }
  .method static int32 First<U : IOrder<!0>>(List<!0>, !!0) {
    ldc.i4.0 ret
  }
}
.class Up implements IOrder<int32> {
  .method virtual bool Less(int32, int32) { ldarg.1 ldarg.2 clt ret }
  .method void .ctor() { ldarg.0 call instance void object::.ctor() ret }
}
.class Work implements Rt.IRun {
  .field static int32 total
  .method virtual void Run() {
    ldsflda int32 Work::total  ldc.i4.1
    call int32 System.Threading.Interlocked::Add(int32&, int32)
    pop ret
  }
  .method void .ctor() { ldarg.0 call instance void object::.ctor() ret }
}
.class P {
  .method static void Main() {
    .entrypoint
    .locals init (List<int32>, int32)
    newobj instance void List<int32>::.ctor()  stloc.0
    a: ldloc.0 ldc.i4 7 callvirt instance void List<int32>::Add(!0)
    newobj instance void Work::.ctor()
    call int32 Rt.Threads::Start(Rt.IRun) stloc.1
    ldloc.1 call void Rt.Threads::Join(int32)
    leave.s c
    b: pop leave c
    c: ldsfld int32 Work::total
    call void System.Console::WriteLine(int32)
    ret
    .try a to b catch System.OverflowException handler b to c
  }
}
";

#[test]
fn a_program_has_the_parts_that_it_spells(rt: HostRuntime) -> Result<(), Fail> {
    let parsed = parse(rt.alloc(), TEXT)?;
    let classes = parsed.program.classes.as_slice();
    let methods = parsed.program.methods.as_slice();
    assert_eq!(rt; classes.len(), 18);
    assert_eq!(rt; methods.len(), 21);
    assert_eq!(rt; parsed.program.main, 20);
    assert_eq!(rt; parsed.program.literals.len(), 0);
    assert_eq!(rt; classes[13].kind, ClassKind::Interface);
    assert_eq!(rt; classes[14].name.text(), "List");
    assert_eq!(rt; classes[14].vars.len(), 1);
    assert_eq!(rt; classes[14].fields.len(), 2);
    assert_eq!(rt; classes[14].methods.as_slice(), [13u16, 14, 15].as_slice());
    assert_eq!(rt; classes[15].interfaces.len(), 1);
    assert_eq!(rt; methods[15].vars.len(), 1);
    assert_eq!(rt; methods[15].params.len(), 2);
    assert_eq!(rt; methods[16].shape, Shape::Virtual);
    assert_eq!(rt; methods[18].owner, 16);
    Ok(())
}

#[test]
fn labels_are_numbers_of_instructions(rt: HostRuntime) -> Result<(), Fail> {
    let parsed = parse(rt.alloc(), TEXT)?;
    let methods = parsed.program.methods.as_slice();
    assert_eq!(rt; methods.len(), 21);
    let Some(body) = &methods[20].body else {
        assert!(rt; false, "Main has a body");
        return Ok(());
    };
    assert_eq!(rt; body.locals.len(), 2);
    assert_eq!(rt; body.code.len(), 16);
    assert!(rt; matches!(&body.code.as_slice()[10], Op::Leave(13)));
    assert_eq!(rt; body.clauses.len(), 1);
    let clause = &body.clauses.as_slice()[0];
    assert_eq!(rt; (clause.from, clause.to), (2, 11));
    assert_eq!(rt; (clause.handler, clause.end), (11, 13));
    Ok(())
}

#[test]
fn canonical_text_is_the_same_program(rt: HostRuntime) -> Result<(), Fail> {
    let alloc = rt.alloc();
    let printed = print(alloc, &parse(alloc, TEXT)?.program)?;
    let again = print(alloc, &parse(alloc, printed.as_slice())?.program)?;
    assert!(rt; 1_000 < printed.len());
    assert_eq!(rt; again.as_slice(), printed.as_slice());
    Ok(())
}
