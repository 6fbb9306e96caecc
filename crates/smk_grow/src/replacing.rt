// Replaces what was kept by what was made again. None of it takes memory.
ghost use Rattle.std.specs.Prelude.{◌≡◌, ◌<◌, ◌≤◌, ℕ, [], length, map, None};
ghost use Rattle.smk_base.specs.Places.{upto};
ghost use Rattle.smk_grow.specs.Renewed.{put_at, replaced};

use smk_base::{BrushOn, Rel};

// Puts a value in place of the one there, if there is one to put.
fn put<T: Drop>(olds: &mut [T], place: usize, fresh: Option<T>)
    requires { place < length olds.old }
    ensures { olds.new ≡ put_at olds.old place fresh }
{
    match fresh {
        Some(fresh) => olds[place] = fresh,
        None => {}
    }
}

// Replaces values by fresh ones, if there are any.
pub(crate) fn replace<T: Drop>(olds: &mut [T], fresh: Vec<Option<T>>)
    requires { length fresh.items ≤ length olds.old }
    ensures { olds.new ≡ replaced fresh.items olds.old }
{
    let mut rest = fresh;
    while let Some(one) = rest.pop() {
        let place = rest.len();
        put(olds, place, one);
    }
}

// Takes all brushes out of force.
pub(crate) fn release(brushes: &mut Vec<BrushOn>)
    ensures { brushes.new.items ≡ [] }
{
    brushes.clear();
}

// Drops all contents.
pub(crate) fn forget(contents: &mut [Option<Rel>])
    ensures { contents.new ≡ map (λ (w : ℕ). None) (upto (length contents.old)) }
{
    for content in contents.iter_mut() {
        *content = None;
    }
}
