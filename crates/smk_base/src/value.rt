ghost use Rattle.std.specs.Prelude.{◌≡◌, IfOk};
ghost use Rattle.smk_base.specs.Cells.{value_of_cell};
ghost use Rattle.smk_base.specs.Widths as widths;

use crate::list::Text;
use std::alloc::{AllocError, Global};
use std::hash::{Hash, Hasher};

/// A whole number or a byte text. There is no null.
#[derive(Drop)]
pub enum Value {
    Int(i128),
    Text(Text),
}

/// A value where it lies in a table.
#[derive(Clone, Copy)]
pub enum CellRef<'a> {
    Int(i128),
    Text(&'a [u8]),
}

/// What a column holds. An int of level 0 is in the range of i64; one of a higher level k is at most 2^(63+20k) in size.
#[derive(Clone, Copy, PartialEq, Eq)]
pub enum Kind {
    Int { level: u8 },
    Text,
}

impl Kind {
    /// The kind that holds the values of both, which are both ints or both texts: an int has the greater level.
    pub fn wider(self, other: Kind) -> Kind
        ensures { result ≡ widths.wider self other }
    {
        match self {
            Kind::Int { level } => match other {
                Kind::Int { level: other_level } => Kind::Int {
                    level: level.max(other_level),
                },
                Kind::Text => self,
            },
            Kind::Text => Kind::Text,
        }
    }
}

impl Value {
    /// A copy that is equal to its original.
    pub fn copy(&self, alloc: Global) -> Result<Value, AllocError>
        ensures { IfOk result (λ copy. copy ≡ self.now) }
    {
        match self {
            Value::Int(number) => Ok(Value::Int(*number)),
            Value::Text(text) => Ok(Value::Text(text.copy(alloc)?)),
        }
    }
}

impl Value {
    /// The value where it lies.
    pub fn as_cell(&self) -> CellRef<'_>
        ensures { value_of_cell result ≡ self.now }
    {
        match self {
            Value::Int(number) => CellRef::Int(*number),
            Value::Text(text) => CellRef::Text(text.as_slice()),
        }
    }
}

impl<'a> CellRef<'a> {
    /// A copy of the int or text, as a value of its own.
    pub fn to_value(self, alloc: Global) -> Result<Value, AllocError>
        ensures { IfOk result (λ value. value ≡ value_of_cell self.entry) }
    {
        match self {
            CellRef::Int(number) => Ok(Value::Int(number)),
            CellRef::Text(bytes) => Ok(Value::Text(Text::from_vec(Vec::from_slice(alloc, bytes)?))),
        }
    }
}

impl PartialEq for Value {
    ghost use Rattle.smk_base.specs.Values.{value_eq, value_same};
    ghost use Rattle.std.specs.Cmp.{decided, partial_equiv_from_equiv};

    ghost eq = { value_eq };

    ghost laws = { partial_equiv_from_equiv (decided value_eq value_same) };

    fn eq(&self, other: &Value) -> bool {
        match (self, other) {
            (Value::Int(a), Value::Int(b)) => *a == *b,
            (Value::Text(a), Value::Text(b)) => *a == *b,
            _ => false,
        }
    }
}

impl Eq for Value {
    ghost use Rattle.smk_base.specs.Values.{value_eq, value_same};
    ghost use Rattle.std.specs.Cmp.{decided};

    ghost laws = { decided value_eq value_same };
}

impl Hash for Value {
    ghost use Rattle.smk_base.specs.Values.{value_fed, value_same};
    ghost use Rattle.std.specs.Hash.{same_Alike};

    ghost hash_input = { value_fed };

    ghost respects_eq = { (same_Alike value_fed value_same).fed };

    fn hash<H: Hasher>(&self, state: &mut H) {
        match self {
            Value::Int(number) => {
                state.write_u8(0);
                number.hash(state);
            }
            Value::Text(text) => {
                state.write_u8(1);
                text.hash(state);
            }
        }
    }
}
