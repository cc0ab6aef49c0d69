//! Units at the greatest height, and beyond it.
use crate::tests::answers::answer_of;
use c_lexer::lex;
use c_parser::{SyntaxFault, parse};
use std::alloc::{AllocError, Global};
use std::test::Fail;

fn repeat(
    alloc: Global,
    before: &str,
    part: &str,
    count: usize,
    behind: &str,
) -> Result<String, AllocError> {
    let mut unit = String::from_str(alloc, before)?;
    for _ in 0..count {
        unit.push_str(part)?;
    }
    unit.push_str(behind)?;
    Ok(unit)
}

// Each is a tree at one less. The places are counted by hand: the part that makes the tree higher than 256.
#[test]
fn too_deep(rt: HostRuntime) -> Result<(), Fail> {
    let alloc = rt.alloc();
    let units = [
        ("int main(void){return ", "(", 252, "Deep 1:274"),
        ("int main(void){return ", "(", 100_000, "Deep 1:274"),
        ("int ", "*", 254, "Deep 1:258"),
        ("int ", "*", 100_000, "Deep 1:258"),
        ("int main(void)", "{", 255, "Deep 1:269"),
        ("int main(void)", "{", 100_000, "Deep 1:269"),
        ("int x=", "{", 127, "Deep 1:133"),
        ("int x=", "{", 100_000, "Deep 1:133"),
        ("int x=1", "+1", 254, "Deep 1:514"),
        ("int x=1", "+1", 255, "Deep 1:514"),
        ("int x=a", "=a", 254, "Deep 1:514"),
        ("int x=", "!", 254, "Deep 1:260"),
        ("int x=", "f(", 254, "Deep 1:514"),
        ("int x", "[1]", 254, "Deep 1:765"),
        ("", "struct{", 128, "Deep 1:890"),
        ("int main(void){", "if(1);else ", 253, "Deep 1:2788"),
    ];
    for (before, part, count, answer) in units {
        let unit = repeat(alloc, before, part, count, "")?;
        assert_eq!(rt;
            answer_of(alloc, unit.as_str(), true)?.as_str(),
            answer,
            "{before}{part}"
        );
    }
    Ok(())
}

#[test]
fn of_the_greatest_height(rt: HostRuntime) -> Result<(), Fail> {
    let alloc = rt.alloc();
    let units = [
        ("int main(void){return ", "(", 251, "0", ")", ";}"),
        ("int ", "*", 253, "x;", "", ""),
        ("int main(void)", "{", 254, "", "}", ""),
        ("int x=", "{", 126, "1", "}", ";"),
        ("int x=1", "+1", 253, "", "", ";"),
        ("int x=a", "=a", 253, "", "", ";"),
        ("int x=", "!", 253, "1", "", ";"),
        ("int x=", "f(", 253, "1", ")", ";"),
        ("int x", "[1]", 253, "", "", ";"),
        ("", "struct{", 127, "int;", "};", ""),
        ("int main(void){", "if(1);else ", 252, ";", "", "}"),
    ];
    for (before, part, count, middle, closing, behind) in units {
        let opened = repeat(alloc, before, part, count, middle)?;
        let unit = repeat(alloc, opened.as_str(), closing, count, behind)?;
        let Ok(tokens) = lex(alloc, unit.as_bytes()) else {
            assert!(rt; false, "{before}{part}");
            continue;
        };
        assert!(rt; parse(alloc, &tokens).is_ok(), "{before}{part}");
    }
    Ok(())
}

// Whatever is cut off, the unit is refused where it ends, or at its last token.
#[test]
fn prefixes(rt: HostRuntime) -> Result<(), Fail> {
    let alloc = rt.alloc();
    let unit = "int sum(int n)\n{int v=0;while(n>0){v+=n;n--;}\nif(v<0)return 0;else{return\nv;}}";
    let bytes = unit.as_bytes();
    for size in 0..bytes.len() {
        let Ok(tokens) = lex(alloc, &bytes[..size]) else {
            assert!(rt; false, "{size}");
            continue;
        };
        let last = match tokens.as_slice() {
            [.., last] => last.pos,
            [] => tokens.end(),
        };
        match parse(alloc, &tokens) {
            Err(SyntaxFault::Syntax(pos)) => {
                assert!(rt; pos == tokens.end() || pos == last, "{size}");
            }
            _ => assert!(rt; false, "{size}"),
        }
    }
    let Ok(tokens) = lex(alloc, bytes) else {
        assert!(rt; false);
        return Ok(());
    };
    assert!(rt; parse(alloc, &tokens).is_ok());
    Ok(())
}
