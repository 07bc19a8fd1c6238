// Whole commands, over files and a sink in memory.
use crate::record::Outcome;
use crate::top::aot_main;
use mn_outside::{Bytes, MemFiles, MemSink, Name};
use std::alloc::{AllocError, Global};
use std::test::Fail;

// The text of a program with these instructions.
fn program(alloc: Global, instrs: &str) -> Result<String, AllocError> {
    format!(in alloc; ".class P {{ .method static void Main() {{ .entrypoint {instrs} ret }} }}")
}

const W: &str = "call void System.Console::WriteLine(int32)";

// What a command leaves.
#[derive(Drop)]
struct Left {
    outcome: Outcome,
    files: MemFiles,
    out: MemSink,
}

// A command over the one file `p.il`, where the calls with these numbers fail.
fn run(
    alloc: Global,
    command: &str,
    text: &str,
    files_fail: &[u32],
    out_fail: &[u32],
) -> Result<Left, AllocError> {
    let mut words = Vec::new(alloc);
    for word in command.split_whitespace() {
        words.push(Name::of(String::from_str(alloc, word)?))?;
    }
    let mut held = Vec::new(alloc);
    held.push((
        Name::of(String::from_str(alloc, "p.il")?),
        Bytes::of(text.as_bytes().to_vec(alloc)?),
    ))?;
    let mut files = MemFiles {
        held,
        fail: files_fail.to_vec(alloc)?,
        calls: 0,
        faults: 0,
    };
    let mut out = MemSink {
        written: Vec::new(alloc),
        fail: out_fail.to_vec(alloc)?,
        calls: 0,
        faults: 0,
    };
    let outcome = aot_main(alloc, words.as_slice(), &mut files, &mut out);
    Ok(Left {
        outcome,
        files,
        out,
    })
}

fn has_written(left: &Left, text: &str) -> bool {
    left.out.written.as_slice() == text.as_bytes()
}

const WHOLE: &str = "exec p.il @all 0 4000000";

// The sum takes 19 turns, of which the last ends the thread.
#[test]
fn prints_the_sum_of_two_and_three(rt: HostRuntime) -> Result<(), Fail> {
    let alloc = rt.alloc();
    let instrs = format!(in alloc; "ldc.i4 2 ldc.i4 3 add {W}")?;
    let text = program(alloc, instrs.as_str())?;
    let cases = [
        (WHOLE, 0, "5\n", 1),
        ("exec p.il @all 0 19", 0, "5\n", 1),
        ("exec p.il @all 0 18", 5, "5\nStopped: Turns\n", 2),
        ("exec p.il @all 0 1", 5, "Stopped: Turns\n", 1),
    ];
    for (command, status, written, puts) in cases {
        let left = run(alloc, command, text.as_str(), &[], &[])?;
        assert_eq!(rt; left.outcome.status, status, "{command}");
        assert!(rt; has_written(&left, written), "{command}");
        assert_eq!(rt; left.out.calls, puts, "{command}");
        assert!(rt; left.outcome.kept.is_some(), "{command}");
    }
    Ok(())
}

#[test]
fn a_sum_wraps(rt: HostRuntime) -> Result<(), Fail> {
    let alloc = rt.alloc();
    let instrs = format!(in alloc; "ldc.i4 2147483647 ldc.i4 1 add {W} ldc.i4 -7 {W}")?;
    let text = program(alloc, instrs.as_str())?;
    let left = run(alloc, WHOLE, text.as_str(), &[], &[])?;
    assert_eq!(rt; left.outcome.status, 0);
    assert!(rt; has_written(&left, "-2147483648\n-7\n"));
    Ok(())
}

// A program that pushes so many ones and prints their sum.
fn ones(alloc: Global, count: u32) -> Result<String, AllocError> {
    let mut instrs = String::new(alloc);
    for _ in 0..count {
        instrs.push_str("ldc.i4 1 ")?;
    }
    for _ in 1..count {
        instrs.push_str("add ")?;
    }
    instrs.push_str(W)?;
    program(alloc, instrs.as_str())
}

#[test]
fn a_stack_is_at_most_120_deep(rt: HostRuntime) -> Result<(), Fail> {
    let alloc = rt.alloc();
    let deepest = ones(alloc, 120)?;
    let left = run(alloc, WHOLE, deepest.as_str(), &[], &[])?;
    assert_eq!(rt; left.outcome.status, 0);
    assert!(rt; has_written(&left, "120\n"));
    let deeper = ones(alloc, 121)?;
    let left = run(alloc, WHOLE, deeper.as_str(), &[], &[])?;
    assert_eq!(rt; left.outcome.status, 2);
    assert!(rt; has_written(&left, "Text 1:12 TooManyPlaces\n"));
    Ok(())
}

#[test]
fn a_failed_put_is_the_last(rt: HostRuntime) -> Result<(), Fail> {
    let alloc = rt.alloc();
    let instrs = format!(in alloc; "ldc.i4 1 {W} ldc.i4 2 {W} ldc.i4 3 {W}")?;
    let text = program(alloc, instrs.as_str())?;
    let left = run(alloc, WHOLE, text.as_str(), &[], &[1])?;
    assert_eq!(rt; left.outcome.status, 9);
    assert!(rt; has_written(&left, "1\n"));
    assert_eq!(rt; (left.out.calls, left.out.faults), (2, 1));
    assert!(rt; left.outcome.kept.is_some());
    Ok(())
}

#[test]
fn a_file_that_fails_is_named(rt: HostRuntime) -> Result<(), Fail> {
    let alloc = rt.alloc();
    let text = program(alloc, "")?;
    let left = run(alloc, WHOLE, text.as_str(), &[0], &[])?;
    assert_eq!(rt; left.outcome.status, 8);
    assert!(rt; has_written(&left, "File p.il\n"));
    assert!(rt; left.outcome.kept.is_none());
    let left = run(alloc, "exec q.il @all 0 1", text.as_str(), &[], &[])?;
    assert_eq!(rt; left.outcome.status, 8);
    assert!(rt; has_written(&left, "File q.il\n"));
    let left = run(alloc, WHOLE, text.as_str(), &[0], &[0])?;
    assert_eq!(rt; left.outcome.status, 9);
    assert!(rt; has_written(&left, ""));
    Ok(())
}

#[test]
fn other_words_are_no_command(rt: HostRuntime) -> Result<(), Fail> {
    let alloc = rt.alloc();
    let text = program(alloc, "")?;
    let commands = [
        "",
        "check",
        "check p.il 1",
        "check -p.il",
        "Check p.il",
        "exec p.il",
        "exec p.il @all 0",
        "exec p.il @all 0 1 1",
        "mean",
        "mean p.il",
        "mean p.il 0",
        "mean p.il 0 1 1",
        "mean p.il @all 0 1",
        "Mean p.il 0 1",
        "mean -p.il 0 1",
        "mean p.il 1 1",
        "mean p.il 00 1",
        "mean p.il 0 0",
        "mean p.il 0 01",
        "mean p.il 0 -1",
        "mean p.il 0 1x",
        "mean p.il 0 4000001",
        "exec -p.il @all 0 1",
        "exec p.il @none 0 1",
        "exec p.il @all 1 1",
        "exec p.il @all 0 0",
        "exec p.il @all 0 01",
        "exec p.il @all 0 +1",
        "exec p.il @all 0 -1",
        "exec p.il @all 0 1x",
        "exec p.il @all 0 4000001",
        "exec p.il @all 0 4294967297",
    ];
    for command in commands {
        let left = run(alloc, command, text.as_str(), &[], &[])?;
        assert_eq!(rt; left.outcome.status, 1, "{command}");
        assert!(rt; has_written(&left, "Usage\n"), "{command}");
        assert_eq!(rt; (left.files.calls, left.out.calls), (0, 1), "{command}");
    }
    Ok(())
}

#[test]
fn refused_texts_are_answered_with_their_places(rt: HostRuntime) -> Result<(), Fail> {
    let alloc = rt.alloc();
    let texts = [
        ("", "Text 1:1 NoEntry\n"),
        (".class P {", "Text 1:11 Syntax\n"),
        (
            ".class P { .method static void Main() { .entrypoint ret } } }",
            "Text 1:61 Syntax\n",
        ),
        (
            ".class P { .method static void Main() { .entrypoint } }",
            "Text 1:12 BadMember\n",
        ),
        (
            ".class P { .method static void Main() { .entrypoint ret ret } }",
            "Text 1:1 FirstForm\n",
        ),
        (
            ".class P { .method static void Main() { ret } }",
            "Text 1:48 NoEntry\n",
        ),
        (
            ".class P { .method void Main() { .entrypoint ret } }",
            "Text 1:34 Syntax\n",
        ),
        (
            ".class P { .method static int32 Main() { .entrypoint ret } }",
            "Text 1:42 Syntax\n",
        ),
        (
            ".class P { .method static void Main(int32) { .entrypoint ret } }",
            "Text 1:46 Syntax\n",
        ),
        (
            ".class P<T> { .method static void Main() { .entrypoint ret } }",
            "Text 1:44 Syntax\n",
        ),
        (
            ".class P { .method static void Main() { .entrypoint ret } .method static void f() { .entrypoint ret } }",
            "Text 1:85 Repeated\n",
        ),
        (
            ".class P { .method static void Main() { .entrypoint br L ret } }",
            "Text 1:56 UnknownName\n",
        ),
        (
            ".class P { .method static void Main() { .entrypoint rethrow } }",
            "Text 1:53 Unsupported\n",
        ),
        (
            ".class P { .method static void Main() { .entrypoint # } }",
            "Text 1:53 BadByte\n",
        ),
        (
            ".class P { .field int32 f .method static void Main() { .entrypoint ret } }",
            "Text 1:1 FirstForm\n",
        ),
        (
            ".class P extends System.Exception { .method static void Main() { .entrypoint ret } }",
            "Text 1:1 FirstForm\n",
        ),
        (
            ".class Q { } .class P { .method static void Main() { .entrypoint ret } }",
            "Text 1:1 FirstForm\n",
        ),
        (
            ".class P { .method static void Main() { .entrypoint ldc.i4 1 ret } }",
            "Text 1:62 Underflow\n",
        ),
        (
            ".class P { .method static void Main() { .entrypoint add ret } }",
            "Text 1:53 Underflow\n",
        ),
        (
            ".class P { .method static void Main() { .entrypoint .locals init (int32) ret } }",
            "Text 1:1 FirstForm\n",
        ),
        (
            ".class P { .method static void Main() { .entrypoint ldc.i4 2147483648 call void System.Console::WriteLine(int32) ret } }",
            "Text 1:60 Syntax\n",
        ),
        (
            ".class P { .method static void Main() { .entrypoint ldc.i4 1 call void System.Console::WriteLine(int64) ret } }",
            "Text 1:62 BadType\n",
        ),
    ];
    for (text, line) in texts {
        let left = run(alloc, WHOLE, text, &[], &[])?;
        assert_eq!(rt; left.outcome.status, 2, "{text}");
        assert!(rt; has_written(&left, line), "{text}");
        assert!(rt; left.outcome.kept.is_none(), "{text}");
    }
    Ok(())
}

// `check` counts what the text defines, and names the verifier's first refusal.
#[test]
fn texts_are_checked(rt: HostRuntime) -> Result<(), Fail> {
    let alloc = rt.alloc();
    let sum = format!(in alloc; "ldc.i4 2 ldc.i4 3 add {W}")?;
    let sum = program(alloc, sum.as_str())?;
    let wide = program(alloc, "ldc.i4 1 ldc.i8 1 add pop")?;
    let cases = [
        (sum.as_str(), 0, "Accepted 1 classes 1 methods\n"),
        (wide.as_str(), 2, "Text 1:71 BadType\n"),
        ("", 2, "Text 1:1 NoEntry\n"),
        (".class P {", 2, "Text 1:11 Syntax\n"),
        (
            ".class Q { .method int32 f() { ldc.i4 1 ret } } .class P { .method static void Main() { .entrypoint ret } }",
            0,
            "Accepted 2 classes 2 methods\n",
        ),
        (
            ".class Q extends Q { } .class P { .method static void Main() { .entrypoint ret } }",
            2,
            "Text 1:1 BadHierarchy\n",
        ),
        (
            ".class Q<T> { } .class P { .method static void Main() { .entrypoint ret } }",
            2,
            "Text 1:1 NotBuilt\n",
        ),
    ];
    for (text, status, written) in cases {
        let left = run(alloc, "check p.il", text, &[], &[])?;
        assert_eq!(rt; left.outcome.status, status, "{text}");
        assert!(rt; has_written(&left, written), "{text}");
        assert!(rt; left.outcome.kept.is_none(), "{text}");
    }
    Ok(())
}

// Comments, hexadecimal digits, labels and short spellings are of the grammar, and change no program.
#[test]
fn other_spellings_of_the_form_run(rt: HostRuntime) -> Result<(), Fail> {
    let alloc = rt.alloc();
    let texts = [
        (
            ".class P { .method static void Main() { .entrypoint L: ret } }",
            "",
        ),
        (
            ".class P extends object { .method static void Main() { .entrypoint ret } } // and a comment",
            "",
        ),
        (
            ".class P { .method static void Main() { .entrypoint ldc.i4 0x10 ldc.i4.m1 add call void System.Console::WriteLine(int32) ret } }",
            "15\n",
        ),
    ];
    for (text, written) in texts {
        let left = run(alloc, WHOLE, text, &[], &[])?;
        assert_eq!(rt; left.outcome.status, 0, "{text}");
        assert!(rt; has_written(&left, written), "{text}");
    }
    Ok(())
}

// What the written meaning of a program shows, by the instructions of Main: one put for each printed line, and one for
// the line of the ending. The sum takes five turns, of which the last ends the thread.
const MEANINGS: [(&str, &str, u8, &str, u32); 13] = [
    (
        "ldc.i4 2 ldc.i4 3 add call void System.Console::WriteLine(int32)",
        "mean p.il 0 4000000",
        0,
        "5\n",
        1,
    ),
    (
        "ldc.i4 2 ldc.i4 3 add call void System.Console::WriteLine(int32)",
        "mean p.il 0 5",
        0,
        "5\n",
        1,
    ),
    (
        "ldc.i4 2 ldc.i4 3 add call void System.Console::WriteLine(int32)",
        "mean p.il 0 4",
        5,
        "5\nStopped: Turns\n",
        2,
    ),
    (
        "ldc.i4 2 ldc.i4 3 add call void System.Console::WriteLine(int32)",
        "mean p.il 0 1",
        5,
        "Stopped: Turns\n",
        1,
    ),
    ("", "mean p.il 0 1", 0, "", 0),
    ("L: br L", "mean p.il 0 100", 5, "Stopped: Turns\n", 1),
    (
        "ldc.i4 -7 call void System.Console::WriteLine(int32) ldc.i8 4294967296 call void System.Console::WriteLine(int64)",
        "mean p.il 0 4000000",
        0,
        "-7\n4294967296\n",
        2,
    ),
    (
        "ldstr \"a b\" call void System.Console::WriteLine(string) ldnull call void System.Console::WriteLine(string)",
        "mean p.il 0 4000000",
        0,
        "a b\n\n",
        2,
    ),
    (
        "ldc.i4 1 ldc.i4 0 div pop",
        "mean p.il 0 4000000",
        3,
        "Unhandled exception: System.DivideByZeroException\n",
        1,
    ),
    (
        "ldc.i4 7 call void System.Console::WriteLine(int32) ldc.i4 2147483647 ldc.i4 1 add.ovf pop",
        "mean p.il 0 4000000",
        3,
        "7\nUnhandled exception: System.OverflowException\n",
        2,
    ),
    (
        "newobj instance void object::.ctor() castclass P pop",
        "mean p.il 0 4000000",
        3,
        "Unhandled exception: System.InvalidCastException\n",
        1,
    ),
    (
        "ldc.i4 4194303 newarr int64 pop",
        "mean p.il 0 4000000",
        6,
        "Stopped: Heap\n",
        1,
    ),
    (
        "call void P::Main()",
        "mean p.il 0 4000000",
        6,
        "Stopped: Depth\n",
        1,
    ),
];

#[test]
fn written_meanings_are_run(rt: HostRuntime) -> Result<(), Fail> {
    let alloc = rt.alloc();
    for (instrs, command, status, written, puts) in MEANINGS {
        let text = program(alloc, instrs)?;
        let left = run(alloc, command, text.as_str(), &[], &[])?;
        assert_eq!(rt; left.outcome.status, status, "{command} {instrs}");
        assert!(rt; has_written(&left, written), "{command} {instrs}");
        assert_eq!(rt;
            (left.files.calls, left.out.calls),
            (1, puts),
            "{command} {instrs}"
        );
        assert!(rt; left.outcome.kept.is_none(), "{command} {instrs}");
    }
    Ok(())
}

// `mean` takes programs that aren't of the first form, and refuses a text as `check` does.
#[test]
fn refused_texts_have_no_meaning(rt: HostRuntime) -> Result<(), Fail> {
    let alloc = rt.alloc();
    let cases = [
        ("", 2, "Text 1:1 NoEntry\n"),
        (".class P {", 2, "Text 1:11 Syntax\n"),
        (
            ".class P { .method static void Main() { .entrypoint ldc.i4 1 ldc.i8 1 add pop ret } }",
            2,
            "Text 1:71 BadType\n",
        ),
        (
            ".class Q<T> { } .class P { .method static void Main() { .entrypoint ret } }",
            2,
            "Text 1:1 NotBuilt\n",
        ),
        (
            ".class Q { .method static int32 Six() { ldc.i4 6 ret } } .class P { .method static void Main() { .entrypoint call int32 Q::Six() call void System.Console::WriteLine(int32) ret } }",
            0,
            "6\n",
        ),
    ];
    for (text, status, written) in cases {
        let left = run(alloc, "mean p.il 0 4000000", text, &[], &[])?;
        assert_eq!(rt; left.outcome.status, status, "{text}");
        assert!(rt; has_written(&left, written), "{text}");
        assert!(rt; left.outcome.kept.is_none(), "{text}");
    }
    Ok(())
}

#[test]
fn a_failed_put_of_a_meaning_is_the_last(rt: HostRuntime) -> Result<(), Fail> {
    let alloc = rt.alloc();
    let instrs = format!(in alloc; "ldc.i4 1 {W} ldc.i4 2 {W} ldc.i4 3 {W}")?;
    let text = program(alloc, instrs.as_str())?;
    let cases = [
        ("mean p.il 0 4000000", 0, "", 1),
        ("mean p.il 0 4000000", 1, "1\n", 2),
        ("mean p.il 0 4", 2, "1\n2\n", 3),
    ];
    for (command, fails, written, puts) in cases {
        let left = run(alloc, command, text.as_str(), &[], &[fails])?;
        assert_eq!(rt; left.outcome.status, 9, "{command} {fails}");
        assert!(rt; has_written(&left, written), "{command} {fails}");
        assert_eq!(rt;
            (left.out.calls, left.out.faults),
            (puts, 1),
            "{command} {fails}"
        );
        assert!(rt; left.outcome.kept.is_none(), "{command} {fails}");
    }
    Ok(())
}

#[test]
fn a_file_of_a_meaning_that_fails_is_named(rt: HostRuntime) -> Result<(), Fail> {
    let alloc = rt.alloc();
    let text = program(alloc, "")?;
    let left = run(alloc, "mean p.il 0 1", text.as_str(), &[0], &[])?;
    assert_eq!(rt; left.outcome.status, 8);
    assert!(rt; has_written(&left, "File p.il\n"));
    let left = run(alloc, "mean q.il 0 1", text.as_str(), &[], &[])?;
    assert_eq!(rt; left.outcome.status, 8);
    assert!(rt; has_written(&left, "File q.il\n"));
    let left = run(alloc, "mean p.il 0 1", text.as_str(), &[0], &[0])?;
    assert_eq!(rt; left.outcome.status, 9);
    assert!(rt; has_written(&left, ""));
    Ok(())
}
