use smk_base::{Line, LineFault};
use smk_parse::parse_line;
use smk_report::no_memory_text;
use std::test::Fail;

// A run reads lines of further kinds, too, which are none of these. And memory never runs out on purpose.
#[test]
fn a_line_is_read_by_itself_and_want_of_memory_has_its_text(rt: HostRuntime) -> Result<(), Fail> {
    let alloc = rt.alloc();
    let show = parse_line(alloc, b"show nope");
    assert!(rt;
        matches!(&show, Ok(Some(Line::Show { view })) if view.as_slice() == b"nope".as_slice())
    );
    let nothing = parse_line(alloc, b" # nothing");
    assert!(rt; matches!(&nothing, Ok(None)));
    let no_marks = parse_line(alloc, b"back by_region to sales");
    assert!(rt; matches!(&no_marks, Err(LineFault::NotALine { at: 15 })));
    let ask = parse_line(alloc, b"ask back by_region 0 to sales");
    assert!(rt; matches!(&ask, Err(LineFault::NotALine { at: 0 })));
    assert_eq!(rt; no_memory_text(), b"smoke: no memory\n".as_slice());
    Ok(())
}
