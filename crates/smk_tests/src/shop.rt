//! A book of sales and their regions, with views of further steps.

use crate::contents::Content;
use crate::opened::{Opened, open_book};
use std::alloc::Global;
use std::test::Fail;

/// The book.
pub(crate) const BOOK: &str = "\
table sales from \"sales.csv\" (id int, region text, amount int)
table regions from \"regions.csv\" (name text, zone text)
view by_region = scan sales | group region {n = count, total = sum amount}
view by_zone = scan sales | join scan regions on region = name | group zone {total = sum amount}
view big = scan sales | where amount >= 10
view pair = scan sales | project region | union all (scan sales | project region)
view names = scan sales | project region | union (scan sales | project region)
view few = scan sales | group region {n = count} | where n < 2
lineage back by_region to sales by amount
lineage back by_zone to regions
lineage back by_zone to sales group region {n = count}
lineage back big to sales
lineage fwd sales to big
lineage back pair to sales
lineage back names to sales
link by_region on sales to by_zone, few
link big on sales to few
";

// Further directions, queries of a table that a view doesn't scan, and one step a view, each side with its lineage both ways.
const MORE: &str = "\
lineage fwd sales to by_region
lineage fwd regions to by_zone
lineage back few to regions
lineage fwd regions to few
table listed from \"listed.csv\" (name text)
table again from \"listed.csv\" (name text)
table west from \"west.csv\" (side text)
view joined = scan sales | join scan regions on region = name
view elsewhere = scan sales | theta scan regions on amount > 10 and region != name
view grid = scan regions | product scan west
view united = scan listed | union (scan again)
view both = scan listed | union all (scan again)
lineage back joined to sales
lineage fwd sales to joined
lineage back joined to regions
lineage fwd regions to joined
lineage back elsewhere to sales
lineage fwd sales to elsewhere
lineage back elsewhere to regions
lineage fwd regions to elsewhere
lineage back grid to regions
lineage fwd regions to grid
lineage back grid to west
lineage fwd west to grid
lineage back united to listed
lineage fwd listed to united
lineage back united to again
lineage fwd again to united
lineage back both to listed
lineage fwd listed to both
lineage back both to again
lineage fwd again to both
";

/// Number, region and amount of each sale.
pub(crate) const SALES: &[u8] = b"id,region,amount\n1,north,10\n2,south,20\n3,north,30\n4,east,5\n";

/// Each region once.
pub(crate) const REGIONS: &[u8] = b"name,zone\nnorth,A\nsouth,B\neast,A\n";

// The region of each sale.
const LISTED: &[u8] = b"name\nnorth\nsouth\nnorth\neast\n";

/// The book with all that is further in it, over its tables.
pub(crate) fn shop(alloc: Global) -> Result<Opened, Fail> {
    let text = format!(in alloc; "{BOOK}{MORE}")?;
    let files = [SALES, REGIONS, LISTED, LISTED, b"side\nwest\n".as_slice()];
    open_book(alloc, text.as_str(), files.as_slice())
}

/// The contents of its views. A grouping, a selection and a join, which are views 0, 2 and 6, can be cut.
pub(crate) const CONTENTS: [Content; 11] = [
    Content {
        view: 0,
        rows: "north 2 40 \nsouth 1 20 \neast 1 5 \n",
        maps: "table 0\nback [0, 2] [1] [3] below 4\nfwd [0] [1] [0] [2] below 3\n",
    },
    Content {
        view: 1,
        rows: "A 45 \nB 20 \n",
        maps: "table 0\nback [0, 2, 3] [1] below 4\nfwd [0] [1] [0] [0] below 2\n\
table 1\nback [0, 2] [1] below 3\nfwd [0] [1] [0] below 2\n",
    },
    Content {
        view: 2,
        rows: "1 north 10 \n2 south 20 \n3 north 30 \n",
        maps: "table 0\nback [0] [1] [2] below 4\nfwd [0] [1] [2] [] below 3\n",
    },
    Content {
        view: 3,
        rows: "north \nsouth \nnorth \neast \nnorth \nsouth \nnorth \neast \n",
        maps: "table 0\nback [0] [1] [2] [3] [0] [1] [2] [3] below 4\n",
    },
    Content {
        view: 4,
        rows: "north \nsouth \neast \n",
        maps: "table 0\nback [0, 2] [1] [3] below 4\n",
    },
    Content {
        view: 5,
        rows: "south 1 \neast 1 \n",
        maps: "table 0\nfwd [] [0] [] [1] below 2\ntable 1\nback [] [] below 3\nfwd [] [] [] below 2\n",
    },
    Content {
        view: 6,
        rows: "1 north 10 north A \n2 south 20 south B \n3 north 30 north A \n4 east 5 east A \n",
        maps: "table 0\nback [0] [1] [2] [3] below 4\nfwd [0] [1] [2] [3] below 4\n\
table 1\nback [0] [1] [0] [2] below 3\nfwd [0, 2] [1] [3] below 4\n",
    },
    Content {
        view: 7,
        rows: "2 south 20 north A \n2 south 20 east A \n3 north 30 south B \n3 north 30 east A \n",
        maps: "table 0\nback [1] [1] [2] [2] below 4\nfwd [] [0, 1] [2, 3] [] below 4\n\
table 1\nback [0] [2] [1] [2] below 3\nfwd [0] [2] [1, 3] below 4\n",
    },
    Content {
        view: 8,
        rows: "north A west \nsouth B west \neast A west \n",
        maps: "table 1\nback [0] [1] [2] below 3\nfwd [0] [1] [2] below 3\n\
table 4\nback [0] [0] [0] below 1\nfwd [0, 1, 2] below 3\n",
    },
    Content {
        view: 9,
        rows: "north \nsouth \neast \n",
        maps: "table 2\nback [0, 2] [1] [3] below 4\nfwd [0] [1] [0] [2] below 3\n\
table 3\nback [0, 2] [1] [3] below 4\nfwd [0] [1] [0] [2] below 3\n",
    },
    Content {
        view: 10,
        rows: "north \nsouth \nnorth \neast \nnorth \nsouth \nnorth \neast \n",
        maps: "table 2\nback [0] [1] [2] [3] [] [] [] [] below 4\nfwd [0] [1] [2] [3] below 8\n\
table 3\nback [] [] [] [] [0] [1] [2] [3] below 4\nfwd [4] [5] [6] [7] below 8\n",
    },
];
