use crate::list::{ListOf, Text};

/// The names that stand for files of the demo's book and script. Its tables have the names that its book has for them.
pub const DEMO_BOOK_NAME: &[u8] = b"demo.smk";

pub const DEMO_SCRIPT_NAME: &[u8] = b"demo.script";

/// The book of the demo.
pub const DEMO_BOOK: &[u8] = b"\
table flights from \"flights.csv\" (id int, carrier text, hour int, delay int, airport text)\n\
table airports from \"airports.csv\" (code text, state text)\n\
view by_carrier = scan flights | group carrier {n = count, late = sum delay}\n\
view by_hour = scan flights | group hour {n = count}\n\
view by_delay = scan flights | project bin(delay, 10) as bucket | group bucket {n = count}\n\
view by_state = scan flights | join scan airports on airport = code | group state {n = count, worst = max delay}\n\
view late = scan flights | where delay >= 60 | group carrier, hour {n = count}\n\
lineage back by_carrier to flights by hour\n\
lineage back by_hour to flights group carrier {n = count}\n\
lineage fwd airports to by_state\n\
link by_carrier on flights to by_hour, by_delay, by_state, late\n\
link by_delay on flights to by_carrier, by_hour\n";

/// The script of the demo.
pub const DEMO_SCRIPT: &[u8] = b"\
back by_carrier 0 to flights where hour = 5\n\
back by_hour 0 to flights group\n\
fwd airports 0,1 to by_state\n\
brush by_carrier 0 on flights\n\
show by_hour\n\
brush by_delay all on flights\n\
clear\n\
back late 0 to airports\n";

/// A file that the demo makes: the name that its book has for it, and its bytes.
#[derive(Drop)]
pub struct DemoFile {
    pub name: Text,
    pub bytes: Text,
}

/// The files that the demo makes, in the order of its book's tables.
pub type DemoFiles = ListOf<DemoFile>;

/// The texts that the demo makes, in the place of files.
#[derive(Drop)]
pub struct Demo {
    pub book: Text,
    pub files: DemoFiles,
    pub script: Text,
}
