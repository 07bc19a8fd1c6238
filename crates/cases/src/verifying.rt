// What `check` answers on small texts: each cause of a refusal with its place, and each form that is accepted.
use crate::checked::check_all;
use std::test::Fail;

const REFUSES_CLASSES: [(&str, &str); 15] = [
    (
        ".class Q extends Q { } .class P { .method static void Main() { .entrypoint ret } }",
        "Text 1:1 BadHierarchy\n",
    ),
    (
        ".class struct S { } .class Q extends S { } .class P { .method static void Main() { .entrypoint ret } }",
        "Text 1:21 BadHierarchy\n",
    ),
    (
        ".class Q extends string { } .class P { .method static void Main() { .entrypoint ret } }",
        "Text 1:1 BadHierarchy\n",
    ),
    (
        ".class Q implements object { } .class P { .method static void Main() { .entrypoint ret } }",
        "Text 1:1 BadHierarchy\n",
    ),
    (
        ".class interface I implements I { } .class P { .method static void Main() { .entrypoint ret } }",
        "Text 1:1 BadHierarchy\n",
    ),
    (
        ".class A extends B { } .class B extends A { } .class P { .method static void Main() { .entrypoint ret } }",
        "Text 1:1 BadHierarchy\n",
    ),
    (
        ".class interface I { .field int32 f } .class P { .method static void Main() { .entrypoint ret } }",
        "Text 1:1 BadLayout\n",
    ),
    (
        ".class struct S { .field S s } .class P { .method static void Main() { .entrypoint ret } }",
        "Text 1:1 BadLayout\n",
    ),
    (
        ".class struct S { .field T t } .class struct T { .field S s } .class P { .method static void Main() { .entrypoint ret } }",
        "Text 1:1 BadLayout\n",
    ),
    (
        ".class interface I { .method abstract void f(); } .class C implements I { } .class P { .method static void Main() { .entrypoint ret } }",
        "Text 1:51 MissingImplementation\n",
    ),
    (
        ".class C { .method abstract void f(); } .class P { .method static void Main() { .entrypoint ret } }",
        "Text 1:1 MissingImplementation\n",
    ),
    (
        ".class interface I { .method abstract void f(); } .class C implements I { .method void f() { ret } } .class P { .method static void Main() { .entrypoint ret } }",
        "Text 1:51 MissingImplementation\n",
    ),
    (
        ".class abstract A { .method abstract void f(); } .class C extends A { } .class P { .method static void Main() { .entrypoint ret } }",
        "Text 1:50 MissingImplementation\n",
    ),
    (
        ".class interface I { .field int32 f } .class Q extends Q { } .class P { .method static void Main() { .entrypoint ret } }",
        "Text 1:1 BadLayout\n",
    ),
    (
        ".class C { .method abstract void f(); } .class Q extends Q { } .class P { .method static void Main() { .entrypoint ret } }",
        "Text 1:41 BadHierarchy\n",
    ),
];

#[test]
fn refuses_classes(rt: HostRuntime) -> Result<(), Fail> {
    check_all(&rt, rt.alloc(), &REFUSES_CLASSES)
}

const REFUSES_MEMBERS: [(&str, &str); 14] = [
    (
        ".class interface I { .method void f() { ret } } .class P { .method static void Main() { .entrypoint ret } }",
        "Text 1:22 BadMember\n",
    ),
    (
        ".class C { .method void f(); } .class P { .method static void Main() { .entrypoint ret } }",
        "Text 1:12 BadMember\n",
    ),
    (
        ".class abstract C { .method abstract void f() { ret } } .class P { .method static void Main() { .entrypoint ret } }",
        "Text 1:21 BadMember\n",
    ),
    (
        ".class C { .method void f() { } } .class P { .method static void Main() { .entrypoint ret } }",
        "Text 1:12 BadMember\n",
    ),
    (
        ".class P { .method static void Main() { .entrypoint call void P::Nope() ret } }",
        "Text 1:53 BadMember\n",
    ),
    (
        ".class P { .method static void Main() { .entrypoint call void object::.ctor() ret } }",
        "Text 1:53 BadMember\n",
    ),
    (
        ".class P { .method static void Main() { .entrypoint ldnull callvirt instance void P::Main() ret } }",
        "Text 1:60 BadMember\n",
    ),
    (
        ".class P { .method static void Main() { .entrypoint newobj instance void P::.ctor() pop ret } }",
        "Text 1:53 BadMember\n",
    ),
    (
        ".class P { .method static void Main() { .entrypoint newobj instance void Rt.IRun::Run() pop ret } }",
        "Text 1:53 BadMember\n",
    ),
    (
        ".class P { .method static void Main() { .entrypoint ldnull ldfld int32 P::f pop ret } }",
        "Text 1:60 BadMember\n",
    ),
    (
        ".class P { .method static void Main() { .entrypoint ldsfld int32 P::f pop ret } }",
        "Text 1:53 BadMember\n",
    ),
    (
        ".class abstract A { .method void .ctor() { ldarg.0 call instance void object::.ctor() ret } } .class P { .method static void Main() { .entrypoint newobj instance void A::.ctor() pop ret } }",
        "Text 1:147 BadMember\n",
    ),
    (
        " .class P { .field static int32 s .field int32 f .method static void Main() { .entrypoint ldnull ldfld int32 P::s pop ret } }",
        "Text 1:98 BadMember\n",
    ),
    (
        " .class P { .field static int32 s .field int32 f .method static void Main() { .entrypoint ldsfld int32 P::f pop ret } }",
        "Text 1:91 BadMember\n",
    ),
];

#[test]
fn refuses_members(rt: HostRuntime) -> Result<(), Fail> {
    check_all(&rt, rt.alloc(), &REFUSES_MEMBERS)
}

const REFUSES_FLOWS: [(&str, &str); 10] = [
    (
        ".class P { .method static void Main() { .entrypoint nop } }",
        "Text 1:53 BadFlow\n",
    ),
    (
        ".class P { .method static void Main() { .entrypoint br L L: } }",
        "Text 1:53 BadFlow\n",
    ),
    (
        ".class P { .method static void Main() { .entrypoint ldc.i4 1 brtrue L ret L: } }",
        "Text 1:62 BadFlow\n",
    ),
    (
        ".class P { .method static void Main() { .entrypoint ldc.i4 1 pop } }",
        "Text 1:62 BadFlow\n",
    ),
    (
        ".class P { .method static void Main() { .entrypoint add ret } }",
        "Text 1:53 Underflow\n",
    ),
    (
        ".class P { .method static void Main() { .entrypoint pop ret } }",
        "Text 1:53 Underflow\n",
    ),
    (
        ".class P { .method static void Main() { .entrypoint ldc.i4 1 ret } }",
        "Text 1:62 Underflow\n",
    ),
    (
        ".class P { .method static void Main() { .entrypoint ldc.i4 1 add ret } }",
        "Text 1:62 Underflow\n",
    ),
    (
        ".class P { .method static void Main() { .entrypoint ldc.i4 1 brtrue A ldc.i4 1 br B A: ldc.i8 1 B: pop ret } }",
        "Text 1:88 BadMerge\n",
    ),
    (
        ".class P { .method static void Main() { .entrypoint ldc.i4 1 brtrue A ldnull br B A: ldc.i4 1 B: pop ret } }",
        "Text 1:86 BadMerge\n",
    ),
];

#[test]
fn refuses_flows(rt: HostRuntime) -> Result<(), Fail> {
    check_all(&rt, rt.alloc(), &REFUSES_FLOWS)
}

const REFUSES_TYPES: [(&str, &str); 17] = [
    (
        ".class P { .method static void Main() { .entrypoint ldc.i4 1 ldc.i8 1 add pop ret } }",
        "Text 1:71 BadType\n",
    ),
    (
        ".class P { .method static void Main() { .entrypoint .locals init (int32) ldc.i8 1 stloc 0 ret } }",
        "Text 1:83 BadType\n",
    ),
    (
        ".class P { .method static void Main() { .entrypoint ldarg 0 pop ret } }",
        "Text 1:53 BadType\n",
    ),
    (
        ".class P { .method static void Main() { .entrypoint ldloc 0 pop ret } }",
        "Text 1:53 BadType\n",
    ),
    (
        ".class P { .method static void Main() { .entrypoint ldc.i8 1 call void System.Console::WriteLine(int32) ret } }",
        "Text 1:62 BadType\n",
    ),
    (
        ".class P { .method static void Main() { .entrypoint ldc.i4 1 throw } }",
        "Text 1:62 BadType\n",
    ),
    (
        ".class P { .method static void Main() { .entrypoint ldstr \"a\" throw } }",
        "Text 1:63 BadType\n",
    ),
    (
        ".class P { .method static void Main() { .entrypoint ldc.i4 1 ldlen pop ret } }",
        "Text 1:62 BadType\n",
    ),
    (
        ".class P { .method static void Main() { .entrypoint ldc.i8 1 switch (L) L: ret } }",
        "Text 1:62 BadType\n",
    ),
    (
        ".class P { .method static void Main() { .entrypoint ldc.i4 1 newarr int32 ldc.i8 0 ldelem int32 pop ret } }",
        "Text 1:84 BadType\n",
    ),
    (
        ".class P { .method static void Main() { .entrypoint ldc.i4 1 newarr int32 ldc.i4 0 ldc.i8 1 stelem int32 ret } }",
        "Text 1:93 BadType\n",
    ),
    (
        ".class P { .method static void Main() { .entrypoint ldnull ldnull add pop ret } }",
        "Text 1:67 BadType\n",
    ),
    (
        ".class P { .method static void Main() { .entrypoint ldc.i4 1 neg ldc.i8 1 shl pop ret } }",
        "Text 1:75 BadType\n",
    ),
    (
        ".class P { .method static void Main() { .entrypoint ldc.i4 1 box int64 pop ret } }",
        "Text 1:62 BadType\n",
    ),
    (
        ".class P { .method static void Main() { .entrypoint .locals init (int64&) ldloca 0 pop ret } }",
        "Text 1:75 BadType\n",
    ),
    (
        ".class Q { .method void .ctor() { ldarg.0 call instance void object::.ctor() ret } } .class P { .method static void f(P) { ret } .method static void Main() { .entrypoint newobj instance void Q::.ctor() call void P::f(P) ret } }",
        "Text 1:203 BadType\n",
    ),
    (
        ".class P { .method static int32 f() { ldc.i8 1 ret } .method static void Main() { .entrypoint ret } }",
        "Text 1:48 BadType\n",
    ),
];

#[test]
fn refuses_types(rt: HostRuntime) -> Result<(), Fail> {
    check_all(&rt, rt.alloc(), &REFUSES_TYPES)
}

const REFUSES_WHAT_IS_NOT_BUILT: [(&str, &str); 9] = [
    (
        ".class Q<T> { } .class P { .method static void Main() { .entrypoint ret } }",
        "Text 1:1 NotBuilt\n",
    ),
    (
        ".class Q { .field Q<Q> f } .class P { .method static void Main() { .entrypoint ret } }",
        "Text 1:1 NotBuilt\n",
    ),
    (
        ".class Q { .method static void f<T>() { ret } } .class P { .method static void Main() { .entrypoint ret } }",
        "Text 1:12 NotBuilt\n",
    ),
    (
        ".class P { .method static void Main() { .entrypoint call string Rt.Types::NameOf<P>() pop ret } }",
        "Text 1:53 NotBuilt\n",
    ),
    (
        ".class P { .method static void Main() { .entrypoint ldnull call int32 Rt.Threads::Start(Rt.IRun) pop ret } }",
        "Text 1:60 NotBuilt\n",
    ),
    (
        ".class P { .method static void Main() { .entrypoint ldc.i4 1 call void Rt.Threads::Join(int32) ret } }",
        "Text 1:62 NotBuilt\n",
    ),
    (
        ".class P { .method static void Main() { .entrypoint leave L L: ret } }",
        "Text 1:53 NotBuilt\n",
    ),
    (
        ".class P { .method static void Main() { .entrypoint A: nop br C B: pop br C C: ret .try A to B catch System.Exception handler B to C } }",
        "Text 1:12 NotBuilt\n",
    ),
    (
        ".class Q extends Q { } .class R<T> { } .class P { .method static void Main() { .entrypoint ret } }",
        "Text 1:24 NotBuilt\n",
    ),
];

#[test]
fn refuses_what_is_not_built(rt: HostRuntime) -> Result<(), Fail> {
    check_all(&rt, rt.alloc(), &REFUSES_WHAT_IS_NOT_BUILT)
}

const ACCEPTS_EACH_FORM: [(&str, &str); 19] = [
    (
        ".class P { .method static void Main() { .entrypoint nop ldc.i4 1 dup pop pop ret } }",
        "Accepted 1 classes 1 methods\n",
    ),
    (
        ".class P { .method static void Main() { .entrypoint ldc.i8 1 ldc.i8 2 add ldc.i8 3 sub ldc.i8 4 mul call void System.Console::WriteLine(int64) ret } }",
        "Accepted 1 classes 1 methods\n",
    ),
    (
        ".class P { .method static void Main() { .entrypoint ldc.i4 1 ldc.i4 2 and ldc.i4 3 or ldc.i4 4 xor call void System.Console::WriteLine(int32) ret } }",
        "Accepted 1 classes 1 methods\n",
    ),
    (
        ".class P { .method static void Main() { .entrypoint ldstr \"a\" call void System.Console::WriteLine(string) ret } }",
        "Accepted 1 classes 1 methods\n",
    ),
    (
        ".class P { .method static void Main() { .entrypoint ldc.i4 1 ldc.i4 2 add.ovf ldc.i4 3 sub.ovf.un ldc.i4 4 mul.ovf pop ret } }",
        "Accepted 1 classes 1 methods\n",
    ),
    (
        ".class P { .method static void Main() { .entrypoint ldc.i4 7 ldc.i4 2 div ldc.i4 2 rem ldc.i4 2 div.un ldc.i4 2 rem.un pop ret } }",
        "Accepted 1 classes 1 methods\n",
    ),
    (
        ".class P { .method static void Main() { .entrypoint ldc.i8 1 ldc.i4 2 shl ldc.i4 2 shr ldc.i4 2 shr.un pop ret } }",
        "Accepted 1 classes 1 methods\n",
    ),
    (
        ".class P { .method static void Main() { .entrypoint ldc.i4 1 neg not conv.i8 conv.i4 conv.u8 conv.ovf.i4 pop ret } }",
        "Accepted 1 classes 1 methods\n",
    ),
    (
        ".class P { .method static void Main() { .entrypoint ldc.i4 1 ldc.i4 2 ceq ldc.i4 1 cgt ldc.i4 1 cgt.un ldc.i4 1 clt ldc.i4 1 clt.un pop ret } }",
        "Accepted 1 classes 1 methods\n",
    ),
    (
        ".class P { .method static void Main() { .entrypoint ldnull ldnull ceq pop ldstr \"a\" ldnull cgt.un pop ret } }",
        "Accepted 1 classes 1 methods\n",
    ),
    (
        ".class P { .method static void Main() { .entrypoint br L L: ldc.i4 1 brtrue M ldnull brfalse M M: ret } }",
        "Accepted 1 classes 1 methods\n",
    ),
    (
        ".class P { .method static void Main() { .entrypoint ldc.i4 1 ldc.i4 2 beq L ldc.i4 1 ldc.i4 2 bne.un L ldc.i4 1 ldc.i4 2 bge L ldc.i4 1 ldc.i4 2 bgt.un L ldc.i8 1 ldc.i8 2 ble L ldc.i8 1 ldc.i8 2 blt.un L L: ret } }",
        "Accepted 1 classes 1 methods\n",
    ),
    (
        ".class P { .method static void Main() { .entrypoint ldc.i4 1 switch (A, B, A) A: nop B: ret } }",
        "Accepted 1 classes 1 methods\n",
    ),
    (
        ".class P { .method static void Main() { .entrypoint .locals init (int32, int64, object, int32[]) ldc.i4 1 stloc 0 ldloc 0 pop ldloca 1 pop ldnull stloc 2 ldc.i4 3 newarr int32 stloc 3 ldloc 3 ldlen conv.i4 pop ldloc 3 ldc.i4 0 ldc.i4 5 stelem int32 ldloc 3 ldc.i4 0 ldelem int32 pop ret } }",
        "Accepted 1 classes 1 methods\n",
    ),
    (
        ".class P { .method static void Main() { .entrypoint ldc.i4 1 box int32 unbox.any int32 pop ldnull castclass string pop ldnull isinst object pop ret } }",
        "Accepted 1 classes 1 methods\n",
    ),
    (
        ".class P { .method static void Main() { .entrypoint newobj instance void System.Exception::.ctor() throw } }",
        "Accepted 1 classes 1 methods\n",
    ),
    (
        ".class P { .method static void Main() { .entrypoint ldc.i4 1 brtrue A ldnull br B A: ldstr \"a\" B: call void System.Console::WriteLine(string) ret } }",
        "Accepted 1 classes 1 methods\n",
    ),
    (
        ".class struct S { .field int32 a .field int64 b } .class P { .field static int32 s .field int64 f .method void .ctor() { ldarg.0 call instance void object::.ctor() ret } .method virtual int32 v(int32) { ldarg.1 starg 1 ldarg.1 ret } .method static void Main() { .entrypoint .locals init (S, P, S) ldloca 0 ldc.i4 1 stfld int32 S::a ldloca 0 ldfld int32 S::a pop ldloca 0 ldflda int64 S::b ldobj int64 pop ldloca 2 ldloc 0 stobj S ldloca 2 initobj S newobj instance void P::.ctor() stloc 1 ldloc 1 ldc.i4 1 callvirt instance int32 P::v(int32) stsfld int32 P::s ldsfld int32 P::s pop ldsflda int32 P::s ldc.i4 1 call int32 System.Threading.Interlocked::Add(int32&, int32) pop ldsflda int32 P::s ldc.i4 1 call int32 System.Threading.Interlocked::Exchange(int32&, int32) pop ldsflda int32 P::s ldc.i4 1 ldc.i4 2 call int32 System.Threading.Interlocked::CompareExchange(int32&, int32, int32) pop ret } }",
        "Accepted 2 classes 3 methods\n",
    ),
    (
        ".class interface I { .method abstract int32 f(); } .class C implements I { .method virtual int32 f() { ldc.i4 1 ret } .method void .ctor() { ldarg.0 call instance void object::.ctor() ret } } .class P { .method static void Main() { .entrypoint newobj instance void C::.ctor() callvirt instance int32 I::f() call void System.Console::WriteLine(int32) ret } }",
        "Accepted 3 classes 4 methods\n",
    ),
];

#[test]
fn accepts_each_form(rt: HostRuntime) -> Result<(), Fail> {
    check_all(&rt, rt.alloc(), &ACCEPTS_EACH_FORM)
}
