//! The symbols that the grammar's rules are made of.

use crate::lexeme::Lexeme;

/// A part of a program that has rules of its own.
#[derive(Clone, Copy)]
pub enum Part {
    /// The items that are left, up to the end.
    Items,
    /// The parameters of an item, in parentheses.
    Params,
    /// What stands behind the parenthesis of parameters.
    Names,
    /// What stands behind a parameter.
    MoreNames,
    /// Statements in braces.
    Block,
    /// The statements that are left, and the brace that closes them.
    Stmts,
    /// What follows the first block of an `if`.
    Else,
    /// A key in brackets.
    Key,
    /// What stands behind the `=` of a binding.
    Rhs,
    /// A step of a workflow.
    Ask,
    /// The arguments of a step, in parentheses.
    Args,
    /// What stands behind the parenthesis of such arguments.
    OuterList,
    /// What stands behind such an argument.
    MoreOuter,
    /// An expression that stands in no other.
    Outer,
    /// An expression.
    Expr,
    /// `|| ..`, any number of times.
    Ors,
    /// An operand of `||`.
    Conj,
    /// `&& ..`, any number of times.
    Ands,
    /// An operand of `&&`.
    Cmp,
    /// A comparison's sign and its right operand, or nothing.
    Compared,
    /// An operand of a comparison.
    Sum,
    /// `+ ..`, `- ..` and `++ ..`, any number of times.
    Terms,
    /// An operand of these.
    Prod,
    /// `* ..`, `/ ..` and `% ..`, any number of times.
    Factors,
    /// An operand of these.
    Unary,
    /// What stands behind a name: arguments, or nothing.
    Named,
    /// `[..]`, any number of times.
    Indexes,
    /// What stands behind the parenthesis of a helper's arguments.
    ParenList,
    /// What stands behind such an argument.
    MoreParen,
    /// What stands behind the bracket of a list.
    ListItems,
    /// What stands behind an element of a list.
    MoreItems,
}

/// An operation with two operands.
#[derive(Clone, Copy)]
pub enum Binary {
    Or,
    And,
    Eq,
    Ne,
    Lt,
    Le,
    Gt,
    Ge,
    Add,
    Sub,
    Join,
    Mul,
    Div,
    Rem,
    Index,
}

/// An operation with one operand.
#[derive(Clone, Copy)]
pub enum Unary {
    Neg,
    Not,
    Len,
    Str,
}

/// What an item declares.
#[derive(Clone, Copy)]
pub enum Declaration {
    Table,
    Queue,
    Outside,
    Helper,
    Txn,
    Flow,
}

/// A kind of statement.
#[derive(Clone, Copy)]
pub enum Statement {
    Let,
    Set,
    Do,
    Put,
    Delete,
    If,
    IfElse,
    While,
    Each,
    Try,
    Return,
    Fail,
}

/// What stands behind the `=` of a binding, or a step of a workflow.
#[derive(Clone, Copy)]
pub enum Binding {
    Call,
    Spawn,
    Await,
    Asked,
    Get,
    Scan,
    Plain,
}

/// How the tree of a part is made of those on top of the stack.
#[derive(Clone, Copy)]
pub enum Action {
    NoNames,
    AddName,
    Empty,
    NoExprs,
    AddExpr,
    Null,
    True,
    False,
    List,
    Apply,
    Variable,
    Item(Declaration),
    Stmt(Statement),
    Bind(Binding),
    Two(Binary),
    One(Unary),
}

/// What a rule is made of.
#[derive(Clone, Copy)]
pub enum Symbol {
    /// A reserved word or a sign.
    Fixed(Lexeme),
    /// A name.
    Name,
    /// The name of a parameter.
    Param,
    /// A number from 1 to 1,000.
    Bound,
    /// A number.
    Number,
    /// A text.
    Text,
    /// A part, by one of its rules.
    Part(Part),
    /// No token: a tree is made of those that stand on the stack.
    Make(Action),
    /// No token: an expression begins that stands in no other.
    Begin,
    /// No token: that expression ends.
    End,
}
