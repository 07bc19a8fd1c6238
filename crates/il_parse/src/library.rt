// The predefined library, built as definitions.
ghost use Rattle.std.specs.Prelude.{◌≡◌, IfOk, OnOk, true, Some, None, [], ◌∷◌, ◌++◌, codes};
ghost use Rattle.il_model.specs.Library.{plain, library_class, exception_class, constructor_of, thread_entry, run_method, library_classes, library_methods};

use il_model::{Body, ClassDef, ClassKind, MRef, MethodDef, Op, PType, Shape};
use mn_outside::Name;
use sqlite_items::Items;
use std::alloc::{AllocError, Global};
use type_tree::{Head, TExpr};

fn name(alloc: Global, text: &str) -> Result<Name, AllocError>
    ensures { IfOk result (λ name. name ≡ text.now) }
{
    Ok(Name::of(String::from_str(alloc, text)?))
}

fn only<T: Drop>(alloc: Global, item: T) -> Result<Items<T>, AllocError>
    ensures { IfOk result (λ all. all ≡ item ∷ []) }
{
    let mut all = Items::new(alloc);
    all.push(item)?;
    Ok(all)
}

// The type of a class without variables.
fn plain(alloc: Global, number: u16) -> TExpr
    ensures { result ≡ plain number }
{
    TExpr::plain(alloc, Head::Class(number))
}

fn class(
    alloc: Global,
    text: &str,
    kind: ClassKind,
    base: Option<TExpr>,
    methods: Items<u16>,
) -> Result<ClassDef, AllocError>
    ensures { IfOk result (λ c. c ≡ library_class text.now kind base methods) }
{
    let name = name(alloc, text)?;
    Ok(ClassDef {
        name,
        kind,
        vars: Items::new(alloc),
        base,
        interfaces: Items::new(alloc),
        fields: Items::new(alloc),
        methods,
    })
}

// Adds a class of exceptions with its constructor.
fn add_exception(
    alloc: Global,
    classes: &mut Items<ClassDef>,
    text: &str,
    base: u16,
    constructor: u16,
) -> Result<(), AllocError>
    ensures { OnOk result (classes.new ≡ classes.old ++ exception_class text.now base constructor ∷ []) }
{
    let methods = only(alloc, constructor)?;
    let made = class(
        alloc,
        text,
        ClassKind::Plain,
        Some(plain(alloc, base)),
        methods,
    )?;
    classes.push(made)
}

fn object_class(alloc: Global) -> Result<ClassDef, AllocError>
    ensures { IfOk result (λ c. c ≡ library_class (codes "object") ClassKind.Plain None (1 ∷ [])) }
{
    let methods = only(alloc, 1u16)?;
    class(alloc, "object", ClassKind::Plain, None, methods)
}

fn string_class(alloc: Global) -> Result<ClassDef, AllocError>
    ensures { IfOk result (λ c. c ≡ library_class (codes "string") ClassKind.Plain (Some (plain 0)) []) }
{
    class(
        alloc,
        "string",
        ClassKind::Plain,
        Some(plain(alloc, 0)),
        Items::new(alloc),
    )
}

fn run_class(alloc: Global) -> Result<ClassDef, AllocError>
    ensures { IfOk result (λ c. c ≡ library_class (codes "Rt.IRun") ClassKind.Interface None (11 ∷ [])) }
{
    let methods = only(alloc, 11u16)?;
    class(alloc, "Rt.IRun", ClassKind::Interface, None, methods)
}

fn threads_class(alloc: Global) -> Result<ClassDef, AllocError>
    ensures { IfOk result (λ c. c ≡ library_class (codes "Rt.Threads") ClassKind.Plain (Some (plain 0)) (0 ∷ [])) }
{
    let methods = only(alloc, 0u16)?;
    class(
        alloc,
        "Rt.Threads",
        ClassKind::Plain,
        Some(plain(alloc, 0)),
        methods,
    )
}

/// The classes of the library, in order of their numbers.
pub(crate) fn library_classes(alloc: Global) -> Result<Items<ClassDef>, AllocError>
    ensures { IfOk result (λ classes. classes ≡ library_classes) }
{
    let mut classes = Items::new(alloc);
    classes.push(object_class(alloc)?)?;
    classes.push(string_class(alloc)?)?;
    let all = &mut classes;
    add_exception(alloc, all, "System.Exception", 0, 2)?;
    add_exception(alloc, all, "System.SystemException", 2, 3)?;
    add_exception(alloc, all, "System.ArithmeticException", 3, 4)?;
    add_exception(alloc, all, "System.DivideByZeroException", 4, 5)?;
    add_exception(alloc, all, "System.OverflowException", 4, 6)?;
    add_exception(alloc, all, "System.NullReferenceException", 3, 7)?;
    add_exception(alloc, all, "System.IndexOutOfRangeException", 3, 8)?;
    add_exception(alloc, all, "System.InvalidCastException", 3, 9)?;
    add_exception(alloc, all, "System.ArrayTypeMismatchException", 3, 10)?;
    classes.push(run_class(alloc)?)?;
    classes.push(threads_class(alloc)?)?;
    Ok(classes)
}

// The body of a constructor: one `ret`.
fn returning(alloc: Global) -> Result<Body, AllocError>
    ensures { IfOk result (λ b. b ≡ record { locals = []; code = Op.Ret ∷ []; clauses = [] }) }
{
    Ok(Body {
        locals: Items::new(alloc),
        code: only(alloc, Op::Ret)?,
        clauses: Items::new(alloc),
    })
}

// The constructor of the class with this number.
fn constructor(alloc: Global, owner: u16) -> Result<MethodDef, AllocError>
    ensures { IfOk result (λ m. m ≡ constructor_of owner) }
{
    let name = name(alloc, ".ctor")?;
    let body = returning(alloc)?;
    Ok(MethodDef {
        owner,
        name,
        shape: Shape::Instance,
        vars: Items::new(alloc),
        params: Items::new(alloc),
        result: None,
        body: Some(body),
    })
}

// `Run` of an object that is to be run, as an instruction names it.
fn run_ref(alloc: Global) -> Result<MRef, AllocError>
    ensures { IfOk result (λ m. m ≡ record { instance = true; result = None; class = plain 11; name = codes "Run"; args = []; params = [] }) }
{
    let name = name(alloc, "Run")?;
    Ok(MRef {
        instance: true,
        result: None,
        class: plain(alloc, 11),
        name,
        args: Items::new(alloc),
        params: Items::new(alloc),
    })
}

// What a thread that is started runs.
fn entry_code(alloc: Global) -> Result<Items<Op>, AllocError>
    ensures { IfOk result (λ code. code ≡ Op.Ldarg 0 ∷
        Op.Callvirt (record { instance = true; result = None; class = plain 11; name = codes "Run"; args = []; params = [] }) ∷ Op.Ret ∷ []) }
{
    let mut code = Items::new(alloc);
    code.push(Op::Ldarg(0))?;
    code.push(Op::Callvirt(run_ref(alloc)?))?;
    code.push(Op::Ret)?;
    Ok(code)
}

// Where a thread that is started begins.
fn thread_entry(alloc: Global) -> Result<MethodDef, AllocError>
    ensures { IfOk result (λ m. m ≡ thread_entry) }
{
    let name = name(alloc, "Entry")?;
    let params = only(alloc, PType::Value(plain(alloc, 11)))?;
    let code = entry_code(alloc)?;
    let body = Body {
        locals: Items::new(alloc),
        code,
        clauses: Items::new(alloc),
    };
    Ok(MethodDef {
        owner: 12,
        name,
        shape: Shape::Fixed,
        vars: Items::new(alloc),
        params,
        result: None,
        body: Some(body),
    })
}

// What an object that is to be run has.
fn run_method(alloc: Global) -> Result<MethodDef, AllocError>
    ensures { IfOk result (λ m. m ≡ run_method) }
{
    let name = name(alloc, "Run")?;
    Ok(MethodDef {
        owner: 11,
        name,
        shape: Shape::Abstract,
        vars: Items::new(alloc),
        params: Items::new(alloc),
        result: None,
        body: None,
    })
}

/// The methods of the library, in order of their numbers.
pub(crate) fn library_methods(alloc: Global) -> Result<Items<MethodDef>, AllocError>
    ensures { IfOk result (λ methods. methods ≡ library_methods) }
{
    let mut methods = Items::new(alloc);
    methods.push(thread_entry(alloc)?)?;
    methods.push(constructor(alloc, 0)?)?;
    methods.push(constructor(alloc, 2)?)?;
    methods.push(constructor(alloc, 3)?)?;
    methods.push(constructor(alloc, 4)?)?;
    methods.push(constructor(alloc, 5)?)?;
    methods.push(constructor(alloc, 6)?)?;
    methods.push(constructor(alloc, 7)?)?;
    methods.push(constructor(alloc, 8)?)?;
    methods.push(constructor(alloc, 9)?)?;
    methods.push(constructor(alloc, 10)?)?;
    methods.push(run_method(alloc)?)?;
    Ok(methods)
}
