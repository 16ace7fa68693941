//! Programs that the checker finds nothing wrong in.

ghost use Rattle.std.specs.Prelude.{◌≡◌, IfOk};
ghost use Rattle.fn_tree.specs.Literals.{HoldsValues};
ghost use Rattle.fn_tree.specs.Soundness.{IsSound};

use crate::literals::walk;
use crate::program::{Program, copy_items};
use r3_value::Memory;
use std::marker::Model;

/// A sound program, which contracts see as its items: one that the checker finds nothing wrong in,
/// whose names have 1 to 64 bytes and whose items have at most 16 parameters. A value can hold each
/// of its literals.
#[derive(Drop)]
pub struct Checked {
    program: Program,
}

impl Model for Checked {
    ghost use Rattle.std.specs.Prelude.{List};
    ghost use Rattle.fn_tree.specs.declared.program.Item.{Item};
    ghost use Rattle.std.specs.Coded.{codes};
    ghost use Rattle.fn_tree.specs.contracts.expr.Expr as expr;
    ghost use Rattle.fn_tree.specs.contracts.stmt.Stmt as stmt;

    ghost Value = { List Item };

    ghost coded = { Prim.hlevel (codes, expr.the_row.coded, stmt.the_row.coded) };

    ghost use Rattle.fn_tree.specs.Literals.{HoldsValues};
    ghost use Rattle.fn_tree.specs.Soundness.{IsSound};

    ghost view = { λ c. c.program.items.items };

    ghost invariant = { λ c. IsSound c.program.items.items × HoldsValues c.program.items.items };
}

impl Checked {
    /// Only a proof of soundness makes one.
    pub fn new(program: Program) -> Checked
        requires sound { IsSound program.items.items }
        ensures { result ≡ program.items.items }
    {
        walk(program.items.as_slice());
        Checked { program }
    }

    /// The program.
    pub fn program(&self) -> &Program
        ensures items { result.now.items.items ≡ self.now }
        ensures sound { IsSound self.now }
    {
        &self.program
    }

    /// Its names and literals are such as a value can hold.
    pub fn holds_values(&self)
        ensures { HoldsValues self.now }
    {
        let _ = &self.program;
    }

    /// A copy, or want of memory.
    pub fn copy(&self) -> Result<Checked, Memory>
        ensures { IfOk result (λ c. c ≡ self.now) }
    {
        let items = copy_items(
            *self.program.items.allocator(),
            self.program.items.as_slice(),
        )?;
        Ok(Checked {
            program: Program { items },
        })
    }
}
