use crate::list::{ListOf, Text};
use crate::value::{Kind, Value};

/// A declared column of a table: its name, what it holds, and the value that an empty field takes, where one is declared.
#[derive(Drop)]
pub struct ColDecl {
    pub name: Text,
    pub kind: Kind,
    pub def: Option<Value>,
}

/// The declared columns of a table, in order.
pub type ColDecls = ListOf<ColDecl>;
