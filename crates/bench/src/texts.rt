// A program of many classes, for the parser.
use il_parse::parse;
use mn_outside::Refused;
use std::alloc::{AllocError, Global};

// The bytes of a class with the comment behind it.
const UNIT: usize = 1024;

// A class with the number `i` of so many, whose methods call one of another class.
fn class_of(alloc: Global, i: u32, count: u32) -> Result<String, AllocError> {
    let other = i.wrapping_mul(31) % count.max(1);
    let mut text = format!(in alloc;
        ".class C{i}<T> {{ .field !0[] items{i} .field static int32 total{i}\n"
    )?;
    for method in 0..2u32 {
        let head = format!(in alloc;
            "  .method static int32 Sum{method}(int32, C{other}<object>[]) {{ .locals init (int32, C{i}<string>)\n    L0: ldarg.0 ldc.i4 -{i} add ldloc 0"
        )?;
        text.push_str(head.as_str())?;
        let call = format!(in alloc;
            " ldarg.1 call int32 C{other}<string>::Sum{method}(int32, C{i}<object>[])\n"
        )?;
        text.push_str(call.as_str())?;
        text.push_str("    stloc.0 ldloc.0 brtrue L1 br L0 L1: ldstr \"a text\" pop ret }\n")?;
    }
    text.push_str("}\n//")?;
    for _ in text.len()..UNIT - 1 {
        text.push_str(".")?;
    }
    text.push_str("\n")?;
    Ok(text)
}

// A text of so many classes and one with the entry point.
fn text_of(alloc: Global, count: u32) -> Result<String, AllocError> {
    let mut text = String::new(alloc);
    for i in 0..count {
        let class = class_of(alloc, i, count)?;
        text.push_str(class.as_str())?;
    }
    text.push_str(".class P { .method static void Main() { .entrypoint ret } }\n")?;
    Ok(text)
}

/// A line on a program of so many classes, 1 KiB each, that is parsed so many times.
pub fn parse_line(alloc: Global, count: u32, rounds: u32) -> Result<String, AllocError> {
    let text = text_of(alloc, count)?;
    let mut line = format!(in alloc; "{} bytes", text.len())?;
    for _ in 0..rounds {
        line = match parse(alloc, text.as_bytes()) {
            Ok(parsed) => format!(in alloc;
                "{} bytes, {} classes, {} methods",
                text.len(),
                parsed.program.classes.len(),
                parsed.program.methods.len()
            )?,
            Err(Refused::Fault(fault)) => format!(in alloc;
                "refused at {}:{}",
                fault.spot.line, fault.spot.column
            )?,
            Err(Refused::NoMemory) => String::from_str(alloc, "no memory")?,
        };
    }
    Ok(line)
}
