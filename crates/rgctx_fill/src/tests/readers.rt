// Leaves, nodes with arguments, the image, and a node that is not there, on words that are alone and on others.
ghost use Rattle.std.specs.Prelude.{◌≡◌, ◌<◌, ℕ, [], IfOk, OnOk, vec_len, slice_index};
ghost use Rattle.rgctx_words.specs.Regions.{word_count, node_count};

use crate::laws::{node_template, node_tree};
use crate::tests::forgetful::Forgetful;
use crate::{Fits, NodeTemplate, NodeTree};
use il_model::{Body, ClassDef, Entry, MethodDef, MethodTree, Op, Program, Shape};
use mn_outside::Name;
use rgctx_template::Catalogue;
use rgctx_words::{DirectoryWord, PlainWords, Words};
use sqlite_items::Items;
use std::alloc::Global;
use std::test::Fail;
use type_tree::{Head, TExpr, name_of};

// Node 18 is of class 14, node 21 `object[]`, node 22 class 13 over `string`, node 23 method 13 of node 18 at int32
// and `object[]`, and node 24 class 15 over nodes 21 and 22.
#[rattlefmt::skip]
const NODES: [(u16, u64); 24] = [
    (1, 0x000F_0000_0000_0000), (2, 0x0001_0000_0000_0000), (3, 0x0002_0000_0000_0000), (4, 0x0003_0000_0000_0000),
    (5, 0x0010_0000_0000_0000), (6, 0x0011_0000_0000_0000), (7, 0x0012_0000_0000_0000), (8, 0x0013_0000_0000_0000),
    (9, 0x0014_0000_0000_0000), (10, 0x0015_0000_0000_0000), (11, 0x0016_0000_0000_0000), (12, 0x0017_0000_0000_0000),
    (13, 0x0018_0000_0000_0000), (14, 0x0019_0000_0000_0000), (15, 0x001A_0000_0000_0000), (16, 0x001B_0000_0000_0000),
    (17, 0x001C_0000_0000_0000), (18, 0x001E_0000_0000_0000), (19, 0x8000_0011_0000_0000), (20, 0x800C_0012_0000_0000),
    (21, 0x0004_0005_0000_0000), (22, 0x001D_0006_0000_0000), (23, 0x800D_0012_0002_0015), (24, 0x001F_0015_0016_0000),
];

#[rattlefmt::skip]
const NAMES: [&str; 16] = [
    "object", "string", "Exception", "SystemException", "Arithmetic", "DivideByZero", "Overflow", "NullReference",
    "IndexOutOfRange", "InvalidCast", "ArrayTypeMismatch", "Rt.IRun", "Rt.Threads", "List", "P", "Pair",
];

// What is read of each node, and the number of the method or of the node that is not there.
#[rattlefmt::skip]
const READ: [(u16, &[u8], u16); 14] = [
    (1, b"other", 0),
    (2, b"int32", 0),
    (3, b"int64", 0),
    (4, b"bool", 0),
    (5, b"object", 0),
    (6, b"string", 0),
    (16, b"Rt.IRun", 0),
    (19, b"Rt.Threads", 0),
    (20, b"P", 12),
    (21, b"object[]", 0),
    (22, b"List<string>", 0),
    (23, b"P int32 object[]", 13),
    (24, b"Pair<object[],List<string>>", 0),
    (25, b"zero", 25),
];

// The kinds of the entries in each node's template: node 20 has the method with a body, and the image one closed entry.
#[rattlefmt::skip]
const TEMPLATES: [(u16, &[u8]); 6] = [
    (1, b"K"),
    (2, b""),
    (20, b"KS"),
    (21, b""),
    (23, b""),
    (25, b"zero"),
];

fn words_of(alloc: Global) -> Result<Vec<u64>, Fail>
    ensures { IfOk result (λ words. vec_len words ≡ word_count) }
{
    let mut words = PlainWords::new(alloc)?.into_words();
    for (node, word) in NODES {
        words[node as usize] = word;
    }
    Ok(words)
}

fn names(alloc: Global) -> Result<Vec<Name>, Fail> {
    let mut names = Vec::new(alloc);
    for text in NAMES {
        names.push(Name::of(String::from_str(alloc, text)?))?;
    }
    Ok(names)
}

fn method(alloc: Global, body: Option<Body>) -> Result<MethodDef, Fail> {
    Ok(MethodDef {
        owner: 14,
        name: Name::of(String::from_str(alloc, "f")?),
        shape: Shape::Fixed,
        vars: Items::new(alloc),
        params: Items::new(alloc),
        result: None,
        body,
    })
}

// Methods 0 to 13, of which method 12 has a body that boxes an int32.
fn methods(alloc: Global) -> Result<Items<MethodDef>, Fail> {
    let mut methods = Items::new(alloc);
    for _ in 0..12 {
        methods.push(method(alloc, None)?)?;
    }
    let mut code = Items::new(alloc);
    code.push(Op::Box(TExpr::plain(alloc, Head::Int32)))?;
    let body = Body {
        locals: Items::new(alloc),
        code,
        clauses: Items::new(alloc),
    };
    methods.push(method(alloc, Some(body))?)?;
    methods.push(method(alloc, None)?)?;
    Ok(methods)
}

fn program(alloc: Global, classes: Items<ClassDef>, methods: Items<MethodDef>) -> Program
    ensures { result.classes ≡ classes }
{
    Program {
        classes,
        methods,
        literals: Items::new(alloc),
        main: 12,
    }
}

// The class of a method, then its arguments.
fn method_text(alloc: Global, method: &MethodTree, names: &[Name]) -> Result<Vec<u8>, Fail> {
    let mut text = name_of(alloc, &method.class, names)?;
    for arg in method.args.as_slice() {
        text.push(b' ')?;
        let name = name_of(alloc, arg, names)?;
        text.extend_from_slice(name.as_slice())?;
    }
    Ok(text)
}

fn text_of(alloc: Global, tree: &NodeTree, names: &[Name]) -> Result<Vec<u8>, Fail> {
    match tree {
        NodeTree::Kind(kind) => Ok(name_of(alloc, kind, names)?),
        NodeTree::Method(method) => method_text(alloc, method, names),
        NodeTree::Other => Ok(Vec::from_slice(alloc, b"other".as_slice())?),
        NodeTree::Zero(_) => Ok(Vec::from_slice(alloc, b"zero".as_slice())?),
    }
}

fn number_of(tree: &NodeTree) -> u16 {
    match tree {
        NodeTree::Method(method) => method.method,
        NodeTree::Zero(node) => *node,
        NodeTree::Kind(_) | NodeTree::Other => 0,
    }
}

fn letter(entry: &Entry) -> u8 {
    match entry {
        Entry::Kind(_) => b'K',
        Entry::Method(_, _, _) => b'M',
        Entry::Size(_) => b'S',
        Entry::Extent(_) => b'E',
        Entry::Offset(_, _) => b'O',
        Entry::Slot(_) => b'L',
    }
}

fn letters(alloc: Global, template: &NodeTemplate) -> Result<Vec<u8>, Fail> {
    let mut text = Vec::new(alloc);
    match template {
        NodeTemplate::Listed(entries) => {
            for entry in entries.as_slice() {
                text.push(letter(entry))?;
            }
        }
        NodeTemplate::Zero(_) => text.extend_from_slice(b"zero".as_slice())?,
    }
    Ok(text)
}

// The text and the number of what is read of a node.
fn read<W: Words<Fits>>(
    alloc: Global,
    cat: &Catalogue,
    words: &mut W,
    node: u16,
) -> Result<(Vec<u8>, u16), Fail>
    requires { (0 < node) × (node < node_count) }
{
    let names = names(alloc)?;
    let tree = node_tree(alloc, cat, words, node)?;
    let number = number_of(&tree);
    Ok((text_of(alloc, &tree, names.as_slice())?, number))
}

#[test]
fn nodes_are_read(rt: HostRuntime) -> Result<(), Fail> {
    let alloc = rt.alloc();
    let program = program(alloc, Items::new(alloc), methods(alloc)?);
    let bodies = Items::new(alloc);
    let got = Items::new(alloc);
    let cat = Catalogue {
        program: &program,
        bodies: &bodies,
        got: &got,
    };
    let mut plain = PlainWords::of(words_of(alloc)?);
    let zeros = PlainWords::new(alloc)?.into_words();
    let mut forgetful = Forgetful::of(words_of(alloc)?, zeros);
    for (node, text, number) in READ {
        assert!(rt; 0 < node);
        assert!(rt; node < 4_096);
        let known = read(alloc, &cat, &mut plain, node)?;
        assert_eq!(rt; known.0.as_slice(), text);
        assert_eq!(rt; known.1, number);
        let seen = read(alloc, &cat, &mut forgetful, node)?;
        assert_eq!(rt; seen.0.as_slice(), text);
        assert_eq!(rt; seen.1, number);
    }
    Ok(())
}

#[test]
fn templates_are_read(rt: HostRuntime) -> Result<(), Fail> {
    let alloc = rt.alloc();
    let program = program(alloc, Items::new(alloc), methods(alloc)?);
    let bodies = Items::new(alloc);
    let mut got = Items::new(alloc);
    got.push(Entry::Kind(TExpr::plain(alloc, Head::Int32)))?;
    let cat = Catalogue {
        program: &program,
        bodies: &bodies,
        got: &got,
    };
    let mut words = PlainWords::of(words_of(alloc)?);
    for (node, wanted) in TEMPLATES {
        assert!(rt; 0 < node);
        assert!(rt; node < 4_096);
        let template = node_template(alloc, &cat, &mut words, node)?;
        assert_eq!(rt; letters(alloc, &template)?.as_slice(), wanted);
    }
    Ok(())
}

#[test]
fn rows_of_a_node_have_the_stated_words(rt: HostRuntime) -> Result<(), Fail> {
    let second = DirectoryWord { node: 21, depth: 1 };
    assert_eq!(rt; second.word(), 5_377);
    Ok(())
}
