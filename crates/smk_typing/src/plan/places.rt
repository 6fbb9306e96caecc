ghost use Rattle.std.specs.Prelude.{◌≡◌, Ok};
ghost use Rattle.smk_typing.specs.Answers.{Finds};

use smk_base::TypeFault;
use std::alloc::Global;

/// Puts a value in place of one that is there, which is dropped.
pub fn put<T: Drop>(place: &mut T, value: T)
    ensures { place.new ≡ value }
{
    *place = value;
}

/// A value in a box.
pub fn boxed<T: Drop>(alloc: Global, value: T) -> Result<Box<T>, TypeFault>
    ensures { Finds result (Ok value) (λ boxed. boxed.value) }
{
    Ok(Box::new(alloc, value)?)
}

/// Two values in boxes.
pub fn boxes<T: Drop>(alloc: Global, left: T, right: T) -> Result<(Box<T>, Box<T>), TypeFault>
    ensures { Finds {A = T × T} result (Ok (left, right)) (λ both. (both.0.value, both.1.value)) }
{
    let left = boxed(alloc, left)?;
    let right = boxed(alloc, right)?;
    Ok((left, right))
}
