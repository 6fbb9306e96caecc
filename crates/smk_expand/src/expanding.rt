// A book with the views that show its dependencies.
ghost use Rattle.std.specs.Prelude.{◌≡◌, ◌++◌, ◌∷◌, [], map, IfOk, OnOk};
ghost use Rattle.smk_base.specs.{TreeImage.{book_image, stmt_image, tree_image, step_image}, Trees.{StepNode, BackNode, DependsNode}};
ghost use Rattle.smk_base.specs.declared.book.tree.Extra.TheVariants as extras;
ghost use Rattle.smk_model.specs.Expanded as books;

use smk_base::{
    AggTree, AggTrees, AggWhat, Book, CmpOp, Extra, Names, PredTree, StepTree, Stmt, Stmts, Term,
    Text, Tree, Word, Words,
};
use std::alloc::{AllocError, Global};

/// A book in which each dependency is replaced, and the names of the dependencies in book order, which are those of their views.
#[derive(Drop)]
pub struct Expanded {
    pub book: Book,
    pub fds: Names,
}

// A copy of a word.
fn copied(alloc: Global, word: &Word) -> Result<Word, AllocError>
    ensures { IfOk result (λ copy. copy ≡ word.now) }
{
    let name = word.name.copy(alloc)?;
    Ok(Word { name, at: word.at })
}

// The word of the least value.
fn least(alloc: Global, at: u64) -> Result<Word, AllocError>
    ensures { IfOk result (λ word. word ≡ books.least_word at) }
{
    let name = Text::from_vec(Vec::from_slice(alloc, b"least")?);
    Ok(Word { name, at })
}

// The word of the most value.
fn most(alloc: Global, at: u64) -> Result<Word, AllocError>
    ensures { IfOk result (λ word. word ≡ books.most_word at) }
{
    let name = Text::from_vec(Vec::from_slice(alloc, b"most")?);
    Ok(Word { name, at })
}

// Appends an aggregate.
fn put_agg(aggs: &mut AggTrees, name: Word, what: AggWhat) -> Result<(), AllocError>
    ensures { OnOk result (aggs.new ≡ aggs.old ++ record { name = name; what = what } ∷ []) }
{
    aggs.push(AggTree { name, what })?;
    Ok(())
}

// The least and the most value of a column.
fn bounds(alloc: Global, at: u64, col: &Word) -> Result<AggTrees, AllocError>
    ensures { IfOk result (λ aggs. aggs ≡ books.bounds at col.now) }
{
    let mut aggs = AggTrees::new(alloc);
    put_agg(
        &mut aggs,
        least(alloc, at)?,
        AggWhat::Min(copied(alloc, col)?),
    )?;
    put_agg(
        &mut aggs,
        most(alloc, at)?,
        AggWhat::Max(copied(alloc, col)?),
    )?;
    Ok(aggs)
}

// A plan in a box.
fn boxed(alloc: Global, tree: Tree) -> Result<Box<Tree>, AllocError>
    ensures { IfOk result (λ made. made.value ≡ tree) }
{
    Ok(Box::new(alloc, tree)?)
}

// A plan with a step over it.
fn stepped(alloc: Global, at: u64, input: Tree, what: StepTree) -> Result<Tree, AllocError>
    ensures { IfOk result (λ tree. tree_image tree ≡ StepNode at (tree_image input) (step_image what)) }
{
    match boxed(alloc, input) {
        Ok(input) => Ok(Tree::Step { at, input, what }),
        Err(e) => {
            drop(what);
            Err(e)
        }
    }
}

// The test that the least value isn't the most value.
fn unequal(alloc: Global, at: u64) -> Result<StepTree, AllocError>
    ensures { IfOk result (λ what. step_image what ≡ books.bounds_differ at) }
{
    let left = least(alloc, at)?;
    let right = most(alloc, at)?;
    Ok(StepTree::Select(PredTree::Cmp(left, CmpOp::Ne, Term::Col(right))))
}

// The plan of the view of a dependency.
fn violations_tree(
    alloc: Global,
    at: u64,
    table: Word,
    keys: Words,
    col: &Word,
) -> Result<Tree, AllocError>
    ensures { IfOk result (λ tree. tree_image tree ≡ books.violations_tree at table keys col.now) }
{
    let aggs = bounds(alloc, at, col)?;
    let grouped = stepped(alloc, at, Tree::Scan(table), StepTree::Group(keys, aggs))?;
    let test = unequal(alloc, at)?;
    stepped(alloc, at, grouped, test)
}

// The plain backward declaration of a view to a table.
fn back(alloc: Global, at: u64, view: &Word, table: &Word) -> Result<Stmt, AllocError>
    ensures { IfOk result (λ stmt. stmt_image stmt ≡ BackNode at view.now table.now extras.Plain) }
{
    let view = copied(alloc, view)?;
    let table = copied(alloc, table)?;
    Ok(Stmt::Back {
        at,
        view,
        table,
        extra: Extra::Plain,
    })
}

// Appends what replaces a dependency, and its name.
fn put_dependency(
    alloc: Global,
    made: &mut Expanded,
    at: u64,
    name: Word,
    table: Word,
    keys: Words,
    col: Word,
) -> Result<(), AllocError>
    ensures stmts { OnOk result (map stmt_image made.new.book.stmts ≡ map stmt_image made.old.book.stmts ++ books.in_its_place (DependsNode at name table keys col)) }
    ensures fds { OnOk result (made.new.fds ≡ made.old.fds ++ name.name ∷ []) }
{
    made.fds.push(name.name.copy(alloc)?)?;
    let back = back(alloc, at, &name, &table)?;
    let plan = violations_tree(alloc, at, table, keys, &col)?;
    made.book.stmts.push(Stmt::View { name, plan })?;
    made.book.stmts.push(back)?;
    Ok(())
}

// Appends what replaces a statement, and its name if it is a dependency.
fn put_in_place(alloc: Global, made: &mut Expanded, stmt: Stmt) -> Result<(), AllocError>
    ensures stmts { OnOk result (map stmt_image made.new.book.stmts ≡ map stmt_image made.old.book.stmts ++ books.in_its_place (stmt_image stmt)) }
    ensures fds { OnOk result (made.new.fds ≡ made.old.fds ++ books.dependency_name (stmt_image stmt)) }
{
    match stmt {
        Stmt::Depends {
            at,
            name,
            table,
            keys,
            col,
        } => put_dependency(alloc, made, at, name, table, keys, col),
        other => {
            made.book.stmts.push(other)?;
            Ok(())
        }
    }
}

// Appends what replaces statements, and the names of the dependencies.
fn put_each(alloc: Global, made: &mut Expanded, stmts: Vec<Stmt>) -> Result<(), AllocError>
    requires none { map stmt_image made.old.book.stmts ≡ [] }
    requires no_name { made.old.fds ≡ [] }
    ensures stmts { OnOk result (map stmt_image made.new.book.stmts ≡ books.expanded (map stmt_image stmts.items)) }
    ensures fds { OnOk result (made.new.fds ≡ books.dependency_names (map stmt_image stmts.items)) }
{
    for stmt in stmts {
        put_in_place(alloc, made, stmt)?;
    }
    Ok(())
}

/// The book with each dependency replaced, in its place, by the view of its violations, `scan T | group keys {least = min c, most = max c} | where least != most`, and a plain `lineage back` from this view to the table. The words of the statement keep their places, and those that it doesn't have are at the place of `fd`.
pub fn expand(alloc: Global, book: Book) -> Result<Expanded, AllocError>
    ensures book { IfOk result (λ made. book_image made.book ≡ books.expanded (book_image book)) }
    ensures fds { IfOk result (λ made. made.fds ≡ books.dependency_names (book_image book)) }
{
    let Book { stmts } = book;
    let mut made = Expanded {
        book: Book {
            stmts: Stmts::new(alloc),
        },
        fds: Names::new(alloc),
    };
    put_each(alloc, &mut made, stmts.into_vec())?;
    Ok(made)
}
