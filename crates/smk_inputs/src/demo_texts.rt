// The texts of a demo in place of files.
ghost use Rattle.std.specs.{Prelude.{◌≡◌, ◌+◌, Some, take}, Option.option_copied};
ghost use Rattle.smk_model.specs.Outcome.{file_named, text_named};

use smk_base::{DEMO_BOOK_NAME, DEMO_SCRIPT_NAME, Demo, DemoFile, FilesFault};
use smk_outside::Files;
use std::alloc::Global;

/// The texts of a demo, which are read as files are. It tells them, and no read fails.
#[derive(Drop)]
pub struct DemoTexts {
    pub texts: Demo,
}

impl Files for DemoTexts {
    ghost held = { λ demo. Some (text_named demo.texts) };

    ghost faults = { λ _. 0 };

    fn read(&mut self, alloc: Global, name: &[u8], limit: u64) -> Result<Vec<u8>, FilesFault> {
        match find_text(&self.texts, name) {
            Some(bytes) => match Vec::from_slice(alloc, front_of(bytes, limit)) {
                Ok(front) => Ok(front),
                Err(_) => Err(FilesFault::NoMemory),
            },
            None => Err(FilesFault::Failed),
        }
    }
}

// The first `limit + 1` bytes, or all of them where there are fewer.
fn front_of(bytes: &[u8], limit: u64) -> &[u8]
    ensures { result.now ≡ take (limit + 1) bytes.now }
{
    let limit = limit as usize;
    if bytes.len() <= limit {
        bytes
    } else {
        &bytes[..limit + 1]
    }
}

// The bytes of the text of this name.
fn find_text<'a>(texts: &'a Demo, name: &[u8]) -> Option<&'a [u8]>
    ensures { option_copied result ≡ text_named texts.now name.now }
{
    if name == DEMO_BOOK_NAME {
        return Some(texts.book.as_slice());
    }
    if name == DEMO_SCRIPT_NAME {
        return Some(texts.script.as_slice());
    }
    find_file(texts.files.as_slice(), name)
}

// The bytes of the first file of this name.
fn find_file<'a>(files: &'a [DemoFile], name: &[u8]) -> Option<&'a [u8]>
    ensures { option_copied result ≡ file_named files.now name.now }
{
    for file in files {
        if file.name.as_slice() == name {
            return Some(file.bytes.as_slice());
        }
    }
    None
}
