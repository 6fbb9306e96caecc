//! What runs beside each other: the pieces of a run, the views of a book over many rows, and the views that follow a brush.

ghost use Rattle.std.specs.Prelude.{◌≡◌, ◌<◌};

use crate::opened::{Opened, open_book};
use crate::runs::ran_over;
use crate::shop::{BOOK, REGIONS, SALES};
use smk_base::Line;
use smk_outside::{Idle, Steps};
use smk_parse::parse_line;
use smk_report::reply_text;
use smk_session::{Mode, Session};
use smk_test_bodies::Meeting;
use smk_top::Status;
use std::alloc::{AllocError, Global};
use std::marker::Brand;
use std::sync::ledger::{Blank, Ledger};
use std::test::Fail;
use std::thread::Threads;

const SCRIPT: &[u8] = b"brush by_region 0 on sales\nbrush big 0 on sales\nclear\n";

// Two views over a table with rows enough that they are opened at once.
const LONG_BOOK: &str = "\
table t from \"t.csv\" (kind text, n int)
view by_kind = scan t | group kind {rows = count, total = sum n}
view high = scan t | where n > 2 | group kind {rows = count}
lineage fwd t to high
";

const LONG_REPORT: &str = "\
view by_kind 3
row,kind,rows,total
0,a,32768,65536
1,b,16384,32768
2,c,16384,65536
view high 2
row,kind,rows
0,a,16384
1,c,16384
fwd t to high 2
marks 0 1
";

// The report of a run over files with so many workers, and who came to its gate.
fn ran_with<R: Threads + Sync>(
    system: HostRuntime,
    rt: &R,
    workers: &str,
    files: &[(&str, &[u8])],
) -> Result<(Vec<u8>, [u64; 3]), Fail> {
    let gate = Meeting::new();
    let words = ["--workers", workers, "book.smk", "script"];
    let (status, report) = ran_over(system, rt, &words, files, &gate)?;
    if status != Status::Done {
        return Err(Fail::new("a run that is not done"));
    }
    Ok((report, gate.came()))
}

// Of the shop's views three groupings, two selections and a join are cut. Two views follow the first brush, each with one number, and one follows the second,
// with a grouping and a selection. The two views over many rows come once each, so no step of theirs is cut, and with one worker nobody comes.
#[test]
fn pieces_of_the_steps_of_a_run_meet_and_so_do_two_views(rt: HostRuntime) -> Result<(), Fail> {
    let mut rows = Vec::from_slice(rt.alloc(), b"kind,n\n")?;
    for _ in 0..16_384u32 {
        rows.extend_from_slice(b"a,1\nb,2\na,3\nc,4\n")?;
    }
    let shop = [
        ("book.smk", BOOK.as_bytes()),
        ("sales.csv", SALES),
        ("regions.csv", REGIONS),
        ("script", SCRIPT),
    ];
    let (_, cut) = ran_with(rt, &rt, "2", shop.as_slice())?;
    assert_eq!(rt; cut, [9, 9, 0]);
    let long = [
        ("book.smk", LONG_BOOK.as_bytes()),
        ("t.csv", rows.as_slice()),
        ("script", b"fwd t 2, 65535 to high\n".as_slice()),
    ];
    let (in_turn, none) = ran_with(rt, &rt, "1", long.as_slice())?;
    let (at_once, came) = ran_with(rt, &rt, "2", long.as_slice())?;
    assert_eq!(rt; str::from_utf8(in_turn.as_slice())?, LONG_REPORT);
    assert_eq!(rt; str::from_utf8(at_once.as_slice())?, LONG_REPORT);
    assert_eq!(rt; none, [0, 0, 0]);
    assert_eq!(rt; came, [1, 1, 0]);
    Ok(())
}

// The text of the answer to a line by a session whose views pass a gate, and who came there.
fn told<R: Threads + Sync, L: Ledger>(
    rt: &R,
    alloc: Global,
    session: &mut Session,
    line: &Line,
    steps: &mut Steps<L>,
) -> Result<(Vec<u8>, [u64; 3]), AllocError> {
    let gate = Meeting::new();
    let reply = session.answer(rt, alloc, line, &gate, steps)?;
    let text = reply_text(alloc, session.catalog(), line, &reply)?;
    Ok((text, gate.came()))
}

// The text of the answer to a line by a session of a book over the shop's tables, and who came to its gate. If memory runs out it is asked again, at a gate of
// its own. The book is given by its bytes, since a call with a text can't choose the ledger.
fn told_in_two<R: Threads + Sync, L: Ledger>(
    system: HostRuntime,
    rt: &R,
    alloc: Global,
    book: &[u8],
    line: &Line,
    blank: Blank,
) -> Result<(Vec<u8>, [u64; 3]), Fail>
    requires name { L.name ≡ blank.name }
    requires parts { L.parts ≡ blank.parts }
    requires some { 0 < blank.parts }
{
    let mut steps: Steps<L> = Steps::new(system, blank);
    let files = [SALES, REGIONS];
    let Opened { book, tables, .. } = open_book(alloc, str::from_utf8(book)?, files.as_slice())?;
    let Ok(session) = Session::start(rt, alloc, book, tables, Mode::Inject, 2, &Idle, &mut steps)
    else {
        return Err(Fail::new("no session"));
    };
    let mut session = session;
    let answer = match told(rt, alloc, &mut session, line, &mut steps) {
        Ok(answer) => Ok(answer),
        Err(_) => told(rt, alloc, &mut session, line, &mut steps),
    };
    drop(session);
    Ok(answer?)
}

const BRUSHED: &str = "\
brush by_region on sales 2
rids 0 2
linked by_zone 1
marks 0
view by_zone 1
row,zone,total
0,A,40
linked few 0
marks
view few 0
row,region,n
";

// Two groupings over chains, which follow a brush by the forward lineage that is kept of them.
const GROUPINGS: &str = "\
table sales from \"sales.csv\" (id int, region text, amount int)
table regions from \"regions.csv\" (name text, zone text)
view by_region = scan sales | group region {n = count}
view by_tens = scan sales | project bin(amount, 10) as tens | group tens {n = count}
view dear = scan sales | where amount >= 20 | group region {n = count}
link by_region on sales to by_tens, dear
";

const GROUPED: &str = "\
brush by_region on sales 2
rids 0 2
linked by_tens 2
marks 0 2
view by_tens 2
row,tens,n
0,1,1
1,3,1
linked dear 1
marks 1
view dear 1
row,region,n
0,north,1
";

// Each view comes once, so no step of theirs is cut.
#[test]
fn two_views_that_follow_a_brush_meet_and_asked_again_its_reply_is_whole(
    rt: HostRuntime,
) -> Result<(), Fail> {
    let Ok(Some(line)) = parse_line(rt.alloc(), b"brush by_region 0 on sales") else {
        return Err(Fail::new("no line"));
    };
    for (book, said) in [(BOOK, BRUSHED), (GROUPINGS, GROUPED)].as_slice() {
        let (text, came) = told_in_two::<_, Brand>(
            rt,
            &rt,
            rt.alloc(),
            book.as_bytes(),
            &line,
            Blank::new(1),
        )?;
        assert_eq!(rt; str::from_utf8(text.as_slice())?, *said);
        assert_eq!(rt; came, [1, 1, 0]);
    }
    Ok(())
}
