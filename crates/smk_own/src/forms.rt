ghost use Rattle.std.specs.Prelude.{◌≡◌};
ghost use Rattle.smk_model.specs.Help.{help_text};

// Each form of line, and an example of it in a comment.
const HELP: &[u8] = b"show VIEW  # show by_region
back VIEW MARKS to TABLE [where COLUMN = VALUE | group]  # back by_region 0,2 to sales where amount = 30
fwd TABLE RIDS to VIEW  # fwd sales 0,2 to big
ask back VIEW MARKS to TABLE | STEP ..  # ask back by_region all to sales | group id {n = count}
brush VIEW MARKS on TABLE  # brush by_region 0 on sales
clear [VIEW on TABLE]  # clear by_region on sales
fd NAME  # fd towns
append TABLE FILE  # append sales \"more.csv\"
.now back|ask ..  # .now back by_region 0 to sales
.part FROM BELOW show|back|ask|.now|.selected ..  # .part 0 100 .now back by_region 0 to sales
.selected TABLE [| STEP ..]  # .selected sales | group region {n = count}
.brief brush|clear|fd ..  # .brief brush by_region all on sales
.schema
.help
";

/// What you can say: each form of line, and an example of it.
pub fn help() -> &'static [u8]
    ensures { result.now ≡ help_text }
{
    HELP
}
