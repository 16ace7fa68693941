//! The rules of expressions.

use crate::lexeme::Lexeme;
use crate::symbol::Symbol::{Begin, End, Fixed, Make, Name, Number, Text};
use crate::symbol::{Action, Binary, Part, Symbol, Unary};

pub const OUTER: [&[Symbol]; 1] = [&[Begin, Symbol::Part(Part::Expr), End]];

pub const EXPR: [&[Symbol]; 1] = [&[Symbol::Part(Part::Conj), Symbol::Part(Part::Ors)]];

pub const ORS: [&[Symbol]; 2] = [
    &[
        Fixed(Lexeme::Or),
        Symbol::Part(Part::Conj),
        Make(Action::Two(Binary::Or)),
        Symbol::Part(Part::Ors),
    ],
    &[],
];

pub const CONJ: [&[Symbol]; 1] = [&[Symbol::Part(Part::Cmp), Symbol::Part(Part::Ands)]];

pub const ANDS: [&[Symbol]; 2] = [
    &[
        Fixed(Lexeme::And),
        Symbol::Part(Part::Cmp),
        Make(Action::Two(Binary::And)),
        Symbol::Part(Part::Ands),
    ],
    &[],
];

pub const CMP: [&[Symbol]; 1] = [&[Symbol::Part(Part::Sum), Symbol::Part(Part::Compared)]];

pub const COMPARED: [&[Symbol]; 7] = [
    &[
        Fixed(Lexeme::Eq),
        Symbol::Part(Part::Sum),
        Make(Action::Two(Binary::Eq)),
    ],
    &[
        Fixed(Lexeme::Ne),
        Symbol::Part(Part::Sum),
        Make(Action::Two(Binary::Ne)),
    ],
    &[
        Fixed(Lexeme::Lt),
        Symbol::Part(Part::Sum),
        Make(Action::Two(Binary::Lt)),
    ],
    &[
        Fixed(Lexeme::Le),
        Symbol::Part(Part::Sum),
        Make(Action::Two(Binary::Le)),
    ],
    &[
        Fixed(Lexeme::Gt),
        Symbol::Part(Part::Sum),
        Make(Action::Two(Binary::Gt)),
    ],
    &[
        Fixed(Lexeme::Ge),
        Symbol::Part(Part::Sum),
        Make(Action::Two(Binary::Ge)),
    ],
    &[],
];

pub const SUM: [&[Symbol]; 1] = [&[Symbol::Part(Part::Prod), Symbol::Part(Part::Terms)]];

pub const TERMS: [&[Symbol]; 4] = [
    &[
        Fixed(Lexeme::Plus),
        Symbol::Part(Part::Prod),
        Make(Action::Two(Binary::Add)),
        Symbol::Part(Part::Terms),
    ],
    &[
        Fixed(Lexeme::Minus),
        Symbol::Part(Part::Prod),
        Make(Action::Two(Binary::Sub)),
        Symbol::Part(Part::Terms),
    ],
    &[
        Fixed(Lexeme::Join),
        Symbol::Part(Part::Prod),
        Make(Action::Two(Binary::Join)),
        Symbol::Part(Part::Terms),
    ],
    &[],
];

pub const PROD: [&[Symbol]; 1] = [&[Symbol::Part(Part::Unary), Symbol::Part(Part::Factors)]];

pub const FACTORS: [&[Symbol]; 4] = [
    &[
        Fixed(Lexeme::Times),
        Symbol::Part(Part::Unary),
        Make(Action::Two(Binary::Mul)),
        Symbol::Part(Part::Factors),
    ],
    &[
        Fixed(Lexeme::Over),
        Symbol::Part(Part::Unary),
        Make(Action::Two(Binary::Div)),
        Symbol::Part(Part::Factors),
    ],
    &[
        Fixed(Lexeme::Percent),
        Symbol::Part(Part::Unary),
        Make(Action::Two(Binary::Rem)),
        Symbol::Part(Part::Factors),
    ],
    &[],
];

pub const UNARY: [&[Symbol]; 12] = [
    &[
        Fixed(Lexeme::Minus),
        Symbol::Part(Part::Unary),
        Make(Action::One(Unary::Neg)),
    ],
    &[
        Fixed(Lexeme::Not),
        Symbol::Part(Part::Unary),
        Make(Action::One(Unary::Not)),
    ],
    &[Number, Symbol::Part(Part::Indexes)],
    &[Text, Symbol::Part(Part::Indexes)],
    &[
        Fixed(Lexeme::Null),
        Make(Action::Null),
        Symbol::Part(Part::Indexes),
    ],
    &[
        Fixed(Lexeme::True),
        Make(Action::True),
        Symbol::Part(Part::Indexes),
    ],
    &[
        Fixed(Lexeme::False),
        Make(Action::False),
        Symbol::Part(Part::Indexes),
    ],
    &[Name, Symbol::Part(Part::Named), Symbol::Part(Part::Indexes)],
    &[
        Fixed(Lexeme::Len),
        Fixed(Lexeme::OpenParen),
        Symbol::Part(Part::Expr),
        Fixed(Lexeme::CloseParen),
        Make(Action::One(Unary::Len)),
        Symbol::Part(Part::Indexes),
    ],
    &[
        Fixed(Lexeme::Str),
        Fixed(Lexeme::OpenParen),
        Symbol::Part(Part::Expr),
        Fixed(Lexeme::CloseParen),
        Make(Action::One(Unary::Str)),
        Symbol::Part(Part::Indexes),
    ],
    &[
        Fixed(Lexeme::OpenBracket),
        Make(Action::NoExprs),
        Symbol::Part(Part::ListItems),
        Make(Action::List),
        Symbol::Part(Part::Indexes),
    ],
    &[
        Fixed(Lexeme::OpenParen),
        Symbol::Part(Part::Expr),
        Fixed(Lexeme::CloseParen),
        Symbol::Part(Part::Indexes),
    ],
];

pub const NAMED: [&[Symbol]; 2] = [
    &[
        Fixed(Lexeme::OpenParen),
        Make(Action::NoExprs),
        Symbol::Part(Part::ParenList),
        Make(Action::Apply),
    ],
    &[Make(Action::Variable)],
];

pub const INDEXES: [&[Symbol]; 2] = [
    &[
        Fixed(Lexeme::OpenBracket),
        Symbol::Part(Part::Expr),
        Fixed(Lexeme::CloseBracket),
        Make(Action::Two(Binary::Index)),
        Symbol::Part(Part::Indexes),
    ],
    &[],
];

pub const PAREN_LIST: [&[Symbol]; 2] = [
    &[Fixed(Lexeme::CloseParen)],
    &[
        Symbol::Part(Part::Expr),
        Make(Action::AddExpr),
        Symbol::Part(Part::MoreParen),
    ],
];

pub const MORE_PAREN: [&[Symbol]; 2] = [
    &[
        Fixed(Lexeme::Comma),
        Symbol::Part(Part::Expr),
        Make(Action::AddExpr),
        Symbol::Part(Part::MoreParen),
    ],
    &[Fixed(Lexeme::CloseParen)],
];

pub const LIST_ITEMS: [&[Symbol]; 2] = [
    &[Fixed(Lexeme::CloseBracket)],
    &[
        Symbol::Part(Part::Expr),
        Make(Action::AddExpr),
        Symbol::Part(Part::MoreItems),
    ],
];

pub const MORE_ITEMS: [&[Symbol]; 2] = [
    &[
        Fixed(Lexeme::Comma),
        Symbol::Part(Part::Expr),
        Make(Action::AddExpr),
        Symbol::Part(Part::MoreItems),
    ],
    &[Fixed(Lexeme::CloseBracket)],
];
