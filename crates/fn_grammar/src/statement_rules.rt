//! The rules of blocks, statements and steps.

use crate::lexeme::Lexeme;
use crate::symbol::Symbol::{Fixed, Make, Name};
use crate::symbol::{Action, Binding, Part, Statement, Symbol};

pub const BLOCK: [&[Symbol]; 1] = [&[
    Fixed(Lexeme::OpenBrace),
    Make(Action::Empty),
    Symbol::Part(Part::Stmts),
]];

pub const STMTS: [&[Symbol]; 12] = [
    &[
        Fixed(Lexeme::Let),
        Name,
        Fixed(Lexeme::Assign),
        Symbol::Part(Part::Rhs),
        Fixed(Lexeme::Semicolon),
        Make(Action::Stmt(Statement::Let)),
        Symbol::Part(Part::Stmts),
    ],
    &[
        Fixed(Lexeme::Set),
        Name,
        Fixed(Lexeme::Assign),
        Symbol::Part(Part::Rhs),
        Fixed(Lexeme::Semicolon),
        Make(Action::Stmt(Statement::Set)),
        Symbol::Part(Part::Stmts),
    ],
    &[
        Fixed(Lexeme::Do),
        Symbol::Part(Part::Ask),
        Fixed(Lexeme::Semicolon),
        Make(Action::Stmt(Statement::Do)),
        Symbol::Part(Part::Stmts),
    ],
    &[
        Fixed(Lexeme::Put),
        Name,
        Symbol::Part(Part::Key),
        Fixed(Lexeme::Assign),
        Symbol::Part(Part::Outer),
        Fixed(Lexeme::Semicolon),
        Make(Action::Stmt(Statement::Put)),
        Symbol::Part(Part::Stmts),
    ],
    &[
        Fixed(Lexeme::Delete),
        Name,
        Symbol::Part(Part::Key),
        Fixed(Lexeme::Semicolon),
        Make(Action::Stmt(Statement::Delete)),
        Symbol::Part(Part::Stmts),
    ],
    &[
        Fixed(Lexeme::If),
        Symbol::Part(Part::Outer),
        Symbol::Part(Part::Block),
        Symbol::Part(Part::Else),
        Symbol::Part(Part::Stmts),
    ],
    &[
        Fixed(Lexeme::While),
        Symbol::Part(Part::Outer),
        Symbol::Part(Part::Block),
        Make(Action::Stmt(Statement::While)),
        Symbol::Part(Part::Stmts),
    ],
    &[
        Fixed(Lexeme::Each),
        Name,
        Fixed(Lexeme::In),
        Symbol::Part(Part::Outer),
        Symbol::Part(Part::Block),
        Make(Action::Stmt(Statement::Each)),
        Symbol::Part(Part::Stmts),
    ],
    &[
        Fixed(Lexeme::Try),
        Symbol::Part(Part::Block),
        Fixed(Lexeme::Catch),
        Name,
        Symbol::Part(Part::Block),
        Make(Action::Stmt(Statement::Try)),
        Symbol::Part(Part::Stmts),
    ],
    &[
        Fixed(Lexeme::Return),
        Symbol::Part(Part::Outer),
        Fixed(Lexeme::Semicolon),
        Make(Action::Stmt(Statement::Return)),
        Symbol::Part(Part::Stmts),
    ],
    &[
        Fixed(Lexeme::Fail),
        Symbol::Part(Part::Outer),
        Fixed(Lexeme::Semicolon),
        Make(Action::Stmt(Statement::Fail)),
        Symbol::Part(Part::Stmts),
    ],
    &[Fixed(Lexeme::CloseBrace)],
];

pub const ELSE: [&[Symbol]; 2] = [
    &[
        Fixed(Lexeme::Else),
        Symbol::Part(Part::Block),
        Make(Action::Stmt(Statement::IfElse)),
    ],
    &[Make(Action::Stmt(Statement::If))],
];

pub const KEY: [&[Symbol]; 1] = [&[
    Fixed(Lexeme::OpenBracket),
    Symbol::Part(Part::Outer),
    Fixed(Lexeme::CloseBracket),
]];

pub const RHS: [&[Symbol]; 6] = [
    &[
        Fixed(Lexeme::Call),
        Name,
        Symbol::Part(Part::Args),
        Make(Action::Bind(Binding::Call)),
        Make(Action::Bind(Binding::Asked)),
    ],
    &[
        Fixed(Lexeme::Spawn),
        Name,
        Symbol::Part(Part::Args),
        Make(Action::Bind(Binding::Spawn)),
        Make(Action::Bind(Binding::Asked)),
    ],
    &[
        Fixed(Lexeme::Await),
        Symbol::Part(Part::Outer),
        Make(Action::Bind(Binding::Await)),
        Make(Action::Bind(Binding::Asked)),
    ],
    &[
        Fixed(Lexeme::Get),
        Name,
        Symbol::Part(Part::Key),
        Make(Action::Bind(Binding::Get)),
    ],
    &[
        Fixed(Lexeme::Scan),
        Name,
        Fixed(Lexeme::OpenBracket),
        Symbol::Part(Part::Outer),
        Fixed(Lexeme::Comma),
        Symbol::Part(Part::Outer),
        Fixed(Lexeme::CloseBracket),
        Make(Action::Bind(Binding::Scan)),
    ],
    &[
        Symbol::Part(Part::Outer),
        Make(Action::Bind(Binding::Plain)),
    ],
];

pub const ASK: [&[Symbol]; 3] = [
    &[
        Fixed(Lexeme::Call),
        Name,
        Symbol::Part(Part::Args),
        Make(Action::Bind(Binding::Call)),
    ],
    &[
        Fixed(Lexeme::Spawn),
        Name,
        Symbol::Part(Part::Args),
        Make(Action::Bind(Binding::Spawn)),
    ],
    &[
        Fixed(Lexeme::Await),
        Symbol::Part(Part::Outer),
        Make(Action::Bind(Binding::Await)),
    ],
];

pub const ARGS: [&[Symbol]; 1] = [&[
    Fixed(Lexeme::OpenParen),
    Make(Action::NoExprs),
    Symbol::Part(Part::OuterList),
]];

pub const OUTER_LIST: [&[Symbol]; 2] = [
    &[Fixed(Lexeme::CloseParen)],
    &[
        Symbol::Part(Part::Outer),
        Make(Action::AddExpr),
        Symbol::Part(Part::MoreOuter),
    ],
];

pub const MORE_OUTER: [&[Symbol]; 2] = [
    &[
        Fixed(Lexeme::Comma),
        Symbol::Part(Part::Outer),
        Make(Action::AddExpr),
        Symbol::Part(Part::MoreOuter),
    ],
    &[Fixed(Lexeme::CloseParen)],
];
