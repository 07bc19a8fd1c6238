// Where the definitions of a text stand.
use il_parse::parse;
use il_text::Spot;
use std::process::Abort;
use std::test::Fail;

const TEXT: &[u8] =
    b"// two classes\n.class A { .method void f() {\n  a: nop\n\tret } }\n .class B {\n.field int32 x .method static void Main() { .entrypoint ldc.i4.1 pop ret } }";

fn spot(line: u32, column: u32) -> Spot {
    Spot { line, column }
}

#[test]
fn gives_the_places_of_definitions(rt: HostRuntime) -> Result<(), Fail> {
    let parsed = parse(rt.alloc(), TEXT)?;
    let spots = parsed.spots.as_slice();
    assert_eq!(rt; parsed.program.classes.len(), 15);
    assert_eq!(rt; parsed.program.methods.len(), 14);
    assert_eq!(rt; parsed.program.main, 13);
    assert_eq!(rt; spots.len(), 29);
    for library in &spots[0..13] {
        assert_eq!(rt; library.declared, spot(1, 1));
        assert_eq!(rt; library.code.len(), 0);
    }
    assert_eq!(rt; spots[13].declared, spot(2, 1));
    assert_eq!(rt; spots[14].declared, spot(5, 2));
    assert_eq!(rt;
        spots[15].code.as_slice(),
        [spot(1, 1), spot(1, 1), spot(1, 1)].as_slice()
    );
    assert_eq!(rt; spots[26].code.len(), 0);
    assert_eq!(rt; spots[27].declared, spot(2, 12));
    assert_eq!(rt;
        spots[27].code.as_slice(),
        [spot(3, 6), spot(4, 2)].as_slice()
    );
    assert_eq!(rt; spots[28].declared, spot(6, 16));
    let code = [spot(6, 57), spot(6, 66), spot(6, 70)];
    assert_eq!(rt; spots[28].code.as_slice(), code.as_slice());
    Ok(())
}
