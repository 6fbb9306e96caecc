ghost use Rattle.std.specs.Prelude.{◌≡◌, ◌≤◌, IfOk};
ghost use Rattle.smk_model.specs.Demo.{demo_files, demo_of};

use crate::tables::{airports, flights};
use smk_base::{DEMO_BOOK, DEMO_SCRIPT, Demo, DemoFile, DemoFiles, ListOf, Text};
use std::alloc::{AllocError, Global};

// A text of these bytes.
fn text_of(alloc: Global, bytes: &[u8]) -> Result<Text, AllocError>
    ensures { IfOk result (λ text. text ≡ bytes.now) }
{
    Ok(ListOf::from_vec(Vec::from_slice(alloc, bytes)?))
}

// The files that the book names.
fn files(alloc: Global, n: u32) -> Result<DemoFiles, AllocError>
    requires { n ≤ 200000 }
    ensures { IfOk result (λ made. made ≡ demo_files n) }
{
    let mut made = ListOf::new(alloc);
    made.push(DemoFile {
        name: text_of(alloc, b"flights.csv")?,
        bytes: flights(alloc, n)?,
    })?;
    made.push(DemoFile {
        name: text_of(alloc, b"airports.csv")?,
        bytes: airports(alloc)?,
    })?;
    Ok(made)
}

/// The texts of the demo of n flights: the book, which is the same for each n, the tables that it names, and the script.
pub fn demo(alloc: Global, n: u32) -> Result<Demo, AllocError>
    requires some { 1 ≤ n }
    requires few { n ≤ 200000 }
    ensures { IfOk result (λ made. made ≡ demo_of n) }
{
    Ok(Demo {
        book: text_of(alloc, DEMO_BOOK)?,
        files: files(alloc, n)?,
        script: text_of(alloc, DEMO_SCRIPT)?,
    })
}
