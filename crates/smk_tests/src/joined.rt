//! Runs that append files, and runs over the joined files.

use crate::runs::ran_over;
use crate::shop::{BOOK, REGIONS};
use smk_outside::Idle;
use std::test::Fail;

// The sales in three files, and in one.
const FIRST: &[u8] = b"id,region,amount\n1,north,10\n2,south,20\n";

const SECOND: &[u8] = b"id,region,amount\n3,north,30\n4,west,5\n5,east,-8\n";

const THIRD: &[u8] = b"id,region,amount\n6,west,7\n7,south,10\n8,north,2\n";

const JOINED: &[u8] =
    b"id,region,amount\n1,north,10\n2,south,20\n3,north,30\n4,west,5\n5,east,-8\n6,west,7\n7,south,10\n8,north,2\n";

// Lines that are answered over all rows, and what is said of the first.
const LINES: &str = "\
show answers
show by_region
show by_zone
show big
show pair
show names
show few
back by_region 0, 2 to sales
back by_region 1 to sales where amount = 10
back by_zone 0 to regions
back by_zone all to sales group
back by_zone 0 to sales group
back pair 4, 9 to sales
back names 3 to sales
fwd sales 0, 6 to big
brush by_region 2, 0 on sales
show few
brush big 2 on sales
show by_zone
clear by_region on sales
back by_region 4 to sales
";

const MARK: &str = "refused unknown view answers\n";

// What is answered after two appends is what is answered over the joined files.
#[test]
fn two_appends_are_one_start_over_the_joined_files(rt: HostRuntime) -> Result<(), Fail> {
    let appends = "append sales \"second.csv\"\nappend sales \"third.csv\"\n";
    let script = format!(in rt.alloc(); "{appends}{LINES}")?;
    let pieces = [
        ("book.smk", BOOK.as_bytes()),
        ("sales.csv", FIRST),
        ("second.csv", SECOND),
        ("third.csv", THIRD),
        ("regions.csv", REGIONS),
        ("script", script.as_bytes()),
    ];
    let one = [
        ("book.smk", BOOK.as_bytes()),
        ("sales.csv", JOINED),
        ("regions.csv", REGIONS),
        ("script", LINES.as_bytes()),
    ];
    for (mode, workers) in [
        ("inject", "1"),
        ("inject", "4"),
        ("defer", "1"),
        ("defer", "4"),
    ]
    .as_slice()
    {
        let words = ["--mode", *mode, "--workers", *workers, "book.smk", "script"];
        let (_, pieces) = ran_over(rt, &rt, &words, pieces.as_slice(), &Idle)?;
        let (_, one) = ran_over(rt, &rt, &words, one.as_slice(), &Idle)?;
        let pieces = str::from_utf8(pieces.as_slice())?.split_once(MARK);
        let one = str::from_utf8(one.as_slice())?.split_once(MARK);
        let (Some((_, pieces)), Some((_, one))) = (pieces, one) else {
            return Err(Fail::new("no mark"));
        };
        assert_eq!(rt; pieces, one);
        assert_eq!(rt; one.len(), 1376);
    }
    Ok(())
}
