ghost use Rattle.std.specs.Prelude.{◌≡◌, ◌++◌, decimal, IfOk, OnOk};
ghost use Rattle.smk_model.specs.Demo.{size_line, summary};

use itoa::Buffer;
use smk_base::{Size, Sizes};
use std::alloc::{AllocError, Global};

// Writes words and a number at the end of a text. After an error the text is of no use.
fn add_count(text: &mut Vec<u8>, words: &[u8], number: u64) -> Result<(), AllocError>
    ensures { OnOk result (text.new.items ≡ text.old.items ++ words.now ++ decimal number) }
{
    let mut digits = Buffer::new();
    text.extend_from_slice(words)?;
    text.extend_from_slice(digits.format(number).as_bytes())?;
    Ok(())
}

// Writes the line of a view at the end of a text. After an error the text is of no use.
fn add_size(text: &mut Vec<u8>, view: &Size) -> Result<(), AllocError>
    ensures { OnOk result (text.new.items ≡ text.old.items ++ size_line view.now) }
{
    text.extend_from_slice(b"view ")?;
    text.extend_from_slice(view.name.as_slice())?;
    add_count(text, b" ", u64::from(view.rows))?;
    text.push(b'\n')?;
    Ok(())
}

/// The summary of the report of a demo: the number of flights, the views with the numbers of their rows, how many lines have a reply and how many of these are refused, and how many bytes the report has.
pub fn summary_text(
    alloc: Global,
    n: u32,
    views: &Sizes,
    replies: u64,
    refused: u64,
    report: u64,
) -> Result<Vec<u8>, AllocError>
    ensures { IfOk result (λ text. text.items ≡ summary n views.now replies refused report) }
{
    let mut text = Vec::new(alloc);
    add_count(&mut text, b"demo ", u64::from(n))?;
    text.push(b'\n')?;
    for view in views.as_slice() {
        add_size(&mut text, view)?;
    }
    add_count(&mut text, b"replies ", replies)?;
    add_count(&mut text, b" refused ", refused)?;
    add_count(&mut text, b"\nreport ", report)?;
    text.push(b'\n')?;
    Ok(text)
}
