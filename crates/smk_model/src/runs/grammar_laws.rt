ghost use Rattle.std.specs.Prelude.{◌≡◌, List};
ghost use Rattle.smk_base.specs.{Trees.{AnyLineImage, StmtImage}, declared.book.tree.Line.Line};
ghost use Rattle.smk_model.specs.{Tokens.Token, Spelled.{AreStmts, IsWholeAnyLine, IsWholeLine}, GrammarLaws.{FaultlessAsksKeepLimits, FaultlessHaveTrees, FaultlessKeepLimits, FaultsStay, TextsAreRead, UnexpectedLeaves}};

/// No tokens are two books.
pub fn one_book()
    ensures { (a : List Token) → (ss : List StmtImage) → (us : List StmtImage) → AreStmts a ss → AreStmts a us → ss ≡ us }
{}

/// No tokens are two lines.
pub fn one_line()
    ensures { (a : List Token) → (l : Line) → (u : Line) → IsWholeLine a l → IsWholeLine a u → l ≡ u }
{}

/// No tokens are two lines of any kind.
pub fn one_any_line()
    ensures { (a : List Token) → (l : AnyLineImage) → (u : AnyLineImage) → IsWholeAnyLine a l → IsWholeAnyLine a u → l ≡ u }
{}

/// A text's first fault is `Unexpected` at a token exactly if what comes before the token has no fault and begins a text of the grammar, and what ends there with a token of its kind begins none: for books, for lines without steps and for lines of any kind.
#[tactic(auto, using(crate::proofs::OutOfGrammar::unexpected_leaves))]
pub fn unexpected_leaves()
    ensures { UnexpectedLeaves }
{}

/// No text of the grammar has a wrong token: a book and a line of any kind have a fault only if they pass a limit, and a line without steps has none.
#[tactic(auto, using(crate::proofs::TextsRead::texts_are_read))]
pub fn texts_are_read()
    ensures { TextsAreRead }
{}

/// Before a faulty token there is no fault, and its fault stays the fault whatever follows.
#[tactic(auto, using(crate::proofs::FinalFaults::faults_stay))]
pub fn faults_stay()
    ensures { FaultsStay }
{}

/// Tokens up to the end without a fault have a tree.
#[tactic(auto, using(crate::proofs::Shapes::faultless_have_trees))]
pub fn faultless_have_trees()
    ensures { FaultlessHaveTrees }
{}

/// A text that spells a book and has no fault keeps the limits that typing rests on.
pub fn faultless_keep_limits()
    ensures { FaultlessKeepLimits }
{}

/// A text that spells an ask line and has no fault keeps the limits that typing its steps rests on.
pub fn faultless_asks_keep_limits()
    ensures { FaultlessAsksKeepLimits }
{}
