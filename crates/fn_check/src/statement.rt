//! The first fault of a body, by recursion over its statements.

ghost use Rattle.std.specs.Prelude.{◌≡◌, ◌∷◌, ◌++◌, map, length, take, false, OnOk};
ghost use Rattle.fn_tree.specs.Soundness.{contains};
ghost use Rattle.fn_check.specs.Answers.{Finds, FindsIn};
ghost use Rattle.fn_check.specs.BodyCheck as meaning;
ghost use Rattle.fn_check.specs.BodyCheck.{kind_of};
ghost use Rattle.fn_check.specs.Found.{then_};

use crate::declarations::Declarations;
use crate::expression::{expression, expressions};
use crate::fault::{CheckKind, Stop};
use crate::uses::{call_use, spawn_use, table_use};
use crate::variables::Variables;
use fn_tree::expr::Expr;
use fn_tree::stmt::{Ask, Rhs, Stmt};
use r3_value::Txt;

/// What the body is that a statement stands in.
#[derive(Clone, Copy)]
pub enum BodyKind {
    Txn,
    Flow,
}

fn rows_here(kind: BodyKind) -> Result<(), CheckKind>
    ensures { result ≡ meaning.rows_here (kind_of kind) }
{
    match kind {
        BodyKind::Txn => Ok(()),
        BodyKind::Flow => Err(CheckKind::Kind),
    }
}

fn asks_here(kind: BodyKind) -> Result<(), CheckKind>
    ensures { result ≡ meaning.asks_here (kind_of kind) }
{
    match kind {
        BodyKind::Flow => Ok(()),
        BodyKind::Txn => Err(CheckKind::Kind),
    }
}

// An expression of a body: it may call each helper.
fn value(items: &Declarations<'_>, e: &Expr, scope: &Variables) -> Result<(), CheckKind>
    ensures { result ≡ meaning.value_check items.now e.now scope.now }
{
    expression(items, items.count(), e, scope)
}

fn values(items: &Declarations<'_>, es: &[Expr], scope: &Variables) -> Result<(), CheckKind>
    ensures { result ≡ meaning.args_check items.now es.now scope.now }
{
    expressions(items, items.count(), es, scope)
}

fn pair(items: &Declarations<'_>, a: &Expr, b: &Expr, scope: &Variables) -> Result<(), CheckKind>
    ensures { result ≡ meaning.pair_check items.now a.now b.now scope.now }
{
    value(items, a, scope)?;
    value(items, b, scope)
}

// The table that is read or written here.
fn table(items: &Declarations<'_>, kind: BodyKind, name: &Txt) -> Result<(), CheckKind>
    ensures { result ≡ meaning.table_check items.now (kind_of kind) name.now }
{
    rows_here(kind)?;
    table_use(items.item(name))
}

fn ask(
    items: &Declarations<'_>,
    kind: BodyKind,
    ask: &Ask,
    scope: &Variables,
) -> Result<(), CheckKind>
    ensures { result ≡ meaning.ask_check items.now (kind_of kind) ask.now scope.now }
{
    asks_here(kind)?;
    match ask {
        Ask::Call { name, args } => {
            call_use(items.item(name), args.len())?;
            values(items, args.as_slice(), scope)
        }
        Ask::Spawn { name, args } => {
            spawn_use(items.item(name), args.len())?;
            values(items, args.as_slice(), scope)
        }
        Ask::Await { id } => value(items, id, scope),
    }
}

fn rhs(
    items: &Declarations<'_>,
    kind: BodyKind,
    rhs: &Rhs,
    scope: &Variables,
) -> Result<(), CheckKind>
    ensures { result ≡ meaning.rhs_check items.now (kind_of kind) rhs.now scope.now }
{
    match rhs {
        Rhs::Plain(e) => value(items, e, scope),
        Rhs::Ask(a) => ask(items, kind, a, scope),
        Rhs::Get { table: name, key } => {
            table(items, kind, name)?;
            value(items, key, scope)
        }
        Rhs::Scan {
            table: name,
            lo,
            hi,
        } => {
            table(items, kind, name)?;
            pair(items, lo, hi, scope)
        }
    }
}

fn new_name(name: &Txt, scope: &Variables) -> Result<(), CheckKind>
    ensures found { result ≡ meaning.new_check name.now scope.now }
    ensures new { OnOk result (contains scope.now name.now ≡ false) }
{
    if scope.contains(name) {
        Err(CheckKind::DuplicateName)
    } else {
        Ok(())
    }
}

fn set_name(name: &Txt, scope: &Variables) -> Result<(), CheckKind>
    ensures { result ≡ meaning.set_check name.now scope.now }
{
    if scope.contains(name) {
        Ok(())
    } else {
        Err(CheckKind::Unbound)
    }
}

// A `let` but for the new name.
fn let_parts(
    items: &Declarations<'_>,
    kind: BodyKind,
    name: &Txt,
    value: &Rhs,
    scope: &Variables,
) -> Result<(), CheckKind>
    ensures found { result ≡ then_ (meaning.new_check name.now scope.now) (λ u. meaning.rhs_check items.now (kind_of kind) value.now scope.now) }
    ensures new { OnOk result (contains scope.now name.now ≡ false) }
{
    new_name(name, scope)?;
    rhs(items, kind, value, scope)
}

fn set_parts(
    items: &Declarations<'_>,
    kind: BodyKind,
    name: &Txt,
    value: &Rhs,
    scope: &Variables,
) -> Result<(), CheckKind>
    ensures { result ≡ then_ (meaning.set_check name.now scope.now) (λ u. meaning.rhs_check items.now (kind_of kind) value.now scope.now) }
{
    set_name(name, scope)?;
    rhs(items, kind, value, scope)
}

fn put_parts(
    items: &Declarations<'_>,
    kind: BodyKind,
    name: &Txt,
    key: &Expr,
    value: &Expr,
    scope: &Variables,
) -> Result<(), CheckKind>
    ensures { result ≡ meaning.rows_check items.now (kind_of kind) name.now (meaning.pair_check items.now key.now value.now) scope.now }
{
    table(items, kind, name)?;
    pair(items, key, value, scope)
}

fn delete_parts(
    items: &Declarations<'_>,
    kind: BodyKind,
    name: &Txt,
    key: &Expr,
    scope: &Variables,
) -> Result<(), CheckKind>
    ensures { result ≡ meaning.rows_check items.now (kind_of kind) name.now (meaning.value_check items.now key.now) scope.now }
{
    table(items, kind, name)?;
    value(items, key, scope)
}

/// The first fault of a statement. Where it has none, what it binds is in scope behind it.
#[cycle(statement)]
#[tactic(auto, using(crate::proofs::StatementLemmas::statement_checks))]
fn statement(
    items: &Declarations<'_>,
    kind: BodyKind,
    s: &Stmt,
    scope: &mut Variables,
) -> Result<(), Stop>
    ensures found { FindsIn result (meaning.stmt_check items.now (kind_of kind) s.now scope.old) scope.new }
    ensures kept { OnOk result (take (length scope.old) scope.new ≡ scope.old) }
{
    match s {
        Stmt::Let { name, rhs } => {
            let_parts(items, kind, name, rhs, scope)?;
            scope.bind(name)?;
            Ok(())
        }
        Stmt::Set { name, rhs } => {
            set_parts(items, kind, name, rhs, scope)?;
            Ok(())
        }
        Stmt::Do { ask: a } => {
            ask(items, kind, a, scope)?;
            Ok(())
        }
        Stmt::Put { table, key, value } => {
            put_parts(items, kind, table, key, value, scope)?;
            Ok(())
        }
        Stmt::Delete { table, key } => {
            delete_parts(items, kind, table, key, scope)?;
            Ok(())
        }
        Stmt::If { cond, yes, no } => {
            value(items, cond, scope)?;
            block(items, kind, yes.as_slice(), scope)?;
            match no {
                None => Ok(()),
                Some(no) => block(items, kind, no.as_slice(), scope),
            }
        }
        Stmt::While { cond, body } => {
            value(items, cond, scope)?;
            block(items, kind, body.as_slice(), scope)
        }
        Stmt::Each { name, list, body } => {
            new_name(name, scope)?;
            value(items, list, scope)?;
            block_with(items, kind, name, body.as_slice(), scope)
        }
        Stmt::Try {
            body,
            name,
            handler,
        } => {
            block(items, kind, body.as_slice(), scope)?;
            new_name(name, scope)?;
            block_with(items, kind, name, handler.as_slice(), scope)
        }
        Stmt::Return { value: e } => {
            value(items, e, scope)?;
            Ok(())
        }
        Stmt::Fail { word } => {
            value(items, word, scope)?;
            Ok(())
        }
    }
}

// A block in which a name is bound that isn't in scope.
#[cycle(statement)]
fn block_with(
    items: &Declarations<'_>,
    kind: BodyKind,
    name: &Txt,
    body: &[Stmt],
    scope: &mut Variables,
) -> Result<(), Stop>
    requires new { contains scope.old name.now ≡ false }
    ensures found { Finds result (meaning.block_with name.now (map (meaning.stmt_check items.now (kind_of kind)) body.now) scope.old) }
    ensures kept { OnOk result (scope.new ≡ scope.old) }
{
    let outer = scope.len();
    scope.bind(name)?;
    block(items, kind, body, scope)?;
    scope.cut(outer);
    Ok(())
}

/// The first fault of a block, whose bindings end with it.
#[cycle(statement)]
pub fn block(
    items: &Declarations<'_>,
    kind: BodyKind,
    body: &[Stmt],
    scope: &mut Variables,
) -> Result<(), Stop>
    ensures found { Finds result (meaning.block_check (map (meaning.stmt_check items.now (kind_of kind)) body.now) scope.old) }
    ensures kept { OnOk result (scope.new ≡ scope.old) }
{
    let outer = scope.len();
    for s in body {
        statement(items, kind, s, scope)?;
    }
    scope.cut(outer);
    Ok(())
}
