//! The table of codes.

ghost use Rattle.std.specs.Prelude.{◌<◌, List, [], length, slice_get};
ghost use Rattle.jv_model.specs.Operand.{Operand};
ghost use Rattle.jv_model.specs.Code.{Body};

use crate::mark::CodeMark;
use jv_types::{CodeBody, Const, List};
use std::marker::{Brand, Model, PhantomData};

/// A type that stands for one table of codes. Whoever calls a generic function picks the table.
pub trait Codes {
    /// The codes of methods by their numbers, with names in place of indices.
    ghost table: { List (Body Operand) };
}

impl Codes for Brand {
    ghost table = { [] };
}

/// The code of a method, and the number of the constant pool of its class.
#[derive(Debug, Drop)]
pub struct StoredCode {
    pub body: CodeBody,
    pub pool: u32,
}

/// The code of a method, and the constant pool that its indices are of.
#[derive(Clone, Copy, Debug)]
pub struct Code<'a> {
    pub body: &'a CodeBody,
    pub pool: &'a [Const],
}

/// The codes of the table that `C` names, which never change.
#[derive(Drop)]
pub struct CodeStore<C: Codes> {
    codes: List<StoredCode>,
    pools: List<List<Const>>,
    table: PhantomData<C>,
}

impl<C: Codes> Model for CodeStore<C> {
    ghost use Rattle.code_store.specs.Codes.{AreStored};

    ghost Value = { Unit {0} };

    ghost view = { λ it. tt };

    ghost invariant = { λ it. AreStored it.pools.items it.codes.items C.table };
}

impl<C: Codes> CodeStore<C> {
    ghost use Rattle.code_store.specs.Codes.{AreStored, ShowsCode};

    /// The store of the codes of a table, with the constant pools of their classes.
    pub fn new(codes: List<StoredCode>, pools: List<List<Const>>) -> CodeStore<C>
        requires { AreStored pools.items codes.items C.table }
    {
        CodeStore {
            codes,
            pools,
            table: PhantomData,
        }
    }

    /// The code that a mark shows. Its instructions follow each other, and its frame has at most
    /// 4,096 words.
    pub fn get(&self, mark: &CodeMark) -> Code<'_>
        requires { mark.now.body < length C.table }
        ensures { ShowsCode (slice_get C.table mark.now.body)
            result.pool.now result.body.now }
    {
        let stored = self.codes.get(mark.body);
        Code {
            body: &stored.body,
            pool: self.pools.get(stored.pool).as_slice(),
        }
    }
}
