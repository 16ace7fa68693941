//! The rules of items and parameters.

use crate::lexeme::Lexeme;
use crate::symbol::Symbol::{Bound, Fixed, Make, Name, Param};
use crate::symbol::{Action, Declaration, Part, Symbol};

pub const ITEMS: [&[Symbol]; 7] = [
    &[
        Fixed(Lexeme::Table),
        Name,
        Fixed(Lexeme::Semicolon),
        Make(Action::Item(Declaration::Table)),
        Symbol::Part(Part::Items),
    ],
    &[
        Fixed(Lexeme::Queue),
        Name,
        Bound,
        Fixed(Lexeme::Semicolon),
        Make(Action::Item(Declaration::Queue)),
        Symbol::Part(Part::Items),
    ],
    &[
        Fixed(Lexeme::Outside),
        Name,
        Symbol::Part(Part::Params),
        Fixed(Lexeme::Semicolon),
        Make(Action::Item(Declaration::Outside)),
        Symbol::Part(Part::Items),
    ],
    &[
        Fixed(Lexeme::Helper),
        Name,
        Symbol::Part(Part::Params),
        Fixed(Lexeme::Assign),
        Symbol::Part(Part::Outer),
        Fixed(Lexeme::Semicolon),
        Make(Action::Item(Declaration::Helper)),
        Symbol::Part(Part::Items),
    ],
    &[
        Fixed(Lexeme::Txn),
        Name,
        Symbol::Part(Part::Params),
        Symbol::Part(Part::Block),
        Make(Action::Item(Declaration::Txn)),
        Symbol::Part(Part::Items),
    ],
    &[
        Fixed(Lexeme::Flow),
        Name,
        Symbol::Part(Part::Params),
        Symbol::Part(Part::Block),
        Make(Action::Item(Declaration::Flow)),
        Symbol::Part(Part::Items),
    ],
    &[],
];

pub const PARAMS: [&[Symbol]; 1] = [&[
    Fixed(Lexeme::OpenParen),
    Make(Action::NoNames),
    Symbol::Part(Part::Names),
]];

pub const NAMES: [&[Symbol]; 2] = [
    &[Fixed(Lexeme::CloseParen)],
    &[Param, Make(Action::AddName), Symbol::Part(Part::MoreNames)],
];

pub const MORE_NAMES: [&[Symbol]; 2] = [
    &[
        Fixed(Lexeme::Comma),
        Param,
        Make(Action::AddName),
        Symbol::Part(Part::MoreNames),
    ],
    &[Fixed(Lexeme::CloseParen)],
];
